// From the calculus to statements.

use crate::calculus_trees::whole_tree;
use qc_containers::Memory;
use qc_lang::Pass;
use qc_nnrc::Nnrc;
use qc_nnrs::Nnrs;
use qc_types::Schema;
use std::alloc::Global;

/// The pass from the calculus to statements. What is not an expression of them becomes a variable that statements bind.
#[derive(Drop)]
pub struct NnrcToNnrs;

impl Pass<Nnrc, Nnrs> for NnrcToNnrs {
    ghost use Rattle.std.specs.Prelude.{◌^◌, Some};
    ghost use Rattle.std.proofs.Common.{lit≤};

    ghost most = { 2 ^ 100 };

    ghost grows = { Some 32 };

    fn pass(&self, alloc: Global, _schema: &Schema, from: Nnrc) -> Result<Nnrs, Memory> {
        whole_tree(alloc, &from)
    }

    ghost growth = { lit≤ tt };
}
