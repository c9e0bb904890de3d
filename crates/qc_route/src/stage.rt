// Stages.
ghost use Rattle.std.specs.Prelude.{◌≡◌, IfOk};
ghost use Rattle.qc_data.specs.Encoding.{encoded};
ghost use Rattle.qc_data.specs.Outcome.{bits64, Gives};
ghost use Rattle.qc_route.specs.Stages.{language, outcome, spelling};

use crate::word::Word;
use qc_containers::{Chars, Memory};
use qc_data::{Halt, Json, enc};
use qc_imp::Imp;
use qc_js::Js;
use qc_js_run::exec;
use qc_lang::Lang;
use qc_nnrc::Nnrc;
use qc_nnrs::Nnrs;
use qc_nra::Nra;
use qc_oql::TypedQuery;
use qc_types::World;
use std::alloc::Global;

/// A tree that a query becomes on its way.
#[derive(Drop)]
pub enum Stage {
    /// A query of OQL with its type.
    Oql(TypedQuery),
    /// A tree of the algebra.
    Nraenv(Nra),
    /// A tree of the calculus.
    Nnrc(Nnrc),
    /// A program of statements.
    Nnrs(Nnrs),
    /// An imperative program.
    Imp(Imp),
    /// A program on JSON.
    Js(Js),
}

impl Stage {
    /// The word of its language.
    pub fn language(&self) -> Word
        ensures { result ≡ language self.now }
    {
        match self {
            Stage::Oql(_) => Word::Oql,
            Stage::Nraenv(_) => Word::Nraenv,
            Stage::Nnrc(_) => Word::Nnrc,
            Stage::Nnrs(_) => Word::Nnrs,
            Stage::Imp(_) => Word::Imp,
            Stage::Js(_) => Word::Js,
        }
    }

    /// The JSON that it answers in the world, in 64 bits.
    pub fn eval(&self, alloc: Global, world: &World) -> Result<Json, Halt>
        ensures { Gives (outcome bits64 world.now self.now) result }
    {
        match self {
            Stage::Oql(typed) => encoded(alloc, typed, world),
            Stage::Nraenv(tree) => encoded(alloc, tree, world),
            Stage::Nnrc(tree) => encoded(alloc, tree, world),
            Stage::Nnrs(program) => encoded(alloc, program, world),
            Stage::Imp(program) => encoded(alloc, program, world),
            Stage::Js(js) => exec(alloc, js, &enc(alloc, world.whole())?),
        }
    }

    /// The written form of a tree of the compiler: `None` of a query, and of a program on JSON, whose text `emit` puts.
    pub fn spell(&self, alloc: Global) -> Result<Option<Chars>, Memory>
        ensures { IfOk result (λ text. text ≡ spelling self.now) }
    {
        match self {
            Stage::Nraenv(tree) => Ok(Some(qc_nra::spell(alloc, tree)?)),
            Stage::Nnrc(tree) => Ok(Some(qc_nnrc::spell(alloc, tree)?)),
            Stage::Nnrs(program) => Ok(Some(qc_nnrs::spell(alloc, program)?)),
            Stage::Imp(program) => Ok(Some(qc_imp::spell(alloc, program)?)),
            Stage::Oql(_) | Stage::Js(_) => Ok(None),
        }
    }
}

// The JSON of what a tree answers.
fn encoded<L: Lang>(alloc: Global, tree: &L, world: &World) -> Result<Json, Halt>
    ensures { Gives (encoded (L.meaning bits64 tree.now world.now)) result }
{
    let answer = tree.eval(alloc, world)?;
    Ok(enc(alloc, &answer)?)
}
