// Two passes as one.
use crate::language::Lang;
use crate::passing::Pass;
use qc_containers::Memory;
use qc_types::Schema;
use std::alloc::Global;
use std::marker::PhantomData;

/// One pass and then another, as one pass.
#[derive(Drop)]
pub struct After<P, Q, M> {
    /// The pass that comes first.
    pub first: P,
    /// The pass that takes what the first gives.
    pub second: Q,
    /// The language between them.
    pub middle: PhantomData<M>,
}

impl<S: Lang, M: Lang, T: Lang, P: Pass<S, M>, Q: Pass<M, T>> Pass<S, T> for After<P, Q, M> {
    ghost use Rattle.qc_lang.specs.Growth.{grows_after, most_after};
    ghost use Rattle.qc_lang.specs.Laws.{growth_after};

    ghost most = { most_after P.most P.grows Q.most };

    ghost grows = { grows_after P.grows Q.grows };

    #[tactic(auto, using(crate::proofs::Passes::grown_after))]
    fn pass(&self, alloc: Global, schema: &Schema, from: S) -> Result<T, Memory> {
        let middle = self.first.pass(alloc, schema, from)?;
        self.second.pass(alloc, schema, middle)
    }

    ghost growth = { growth_after P.grows Q.grows P.growth Q.growth };
}
