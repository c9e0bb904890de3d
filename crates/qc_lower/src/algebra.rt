// From the algebra to the calculus.

use crate::algebra_trees::whole_tree;
use qc_containers::Memory;
use qc_lang::Pass;
use qc_nnrc::Nnrc;
use qc_nra::Nra;
use qc_types::Schema;
use std::alloc::Global;

/// The pass from the algebra to the calculus. A variable holds the input of a tree and another its environment.
#[derive(Drop)]
pub struct NraToNnrc;

impl Pass<Nra, Nnrc> for NraToNnrc {
    ghost use Rattle.std.specs.Prelude.{◌^◌, Some};
    ghost use Rattle.std.proofs.Common.{lit≤};

    ghost most = { 2 ^ 100 };

    ghost grows = { Some 32 };

    fn pass(&self, alloc: Global, _schema: &Schema, from: Nra) -> Result<Nnrc, Memory> {
        whole_tree(alloc, &from)
    }

    ghost growth = { lit≤ tt };
}
