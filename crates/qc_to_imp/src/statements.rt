// From statements to programs.

use crate::statement_trees::whole_program;
use qc_containers::Memory;
use qc_imp::Imp;
use qc_lang::Pass;
use qc_nnrs::Nnrs;
use qc_types::Schema;
use std::alloc::Global;

/// The pass from statements to programs. A variable has the number of binders that it stands under as its number.
#[derive(Drop)]
pub struct NnrsToImp;

impl Pass<Nnrs, Imp> for NnrsToImp {
    ghost use Rattle.std.specs.Prelude.{◌^◌, Some};
    ghost use Rattle.std.proofs.Common.{lit≤};

    ghost most = { 2 ^ 100 };

    ghost grows = { Some 32 };

    fn pass(&self, alloc: Global, _schema: &Schema, from: Nnrs) -> Result<Imp, Memory> {
        whole_program(alloc, &from)
    }

    ghost growth = { lit≤ tt };
}
