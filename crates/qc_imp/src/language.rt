// The programs as a language.

use crate::evaluating::value_of_program;
use crate::tree::Imp;
use qc_data::{Datum, Halt};
use qc_lang::Lang;
use qc_types::World;
use std::alloc::Global;

impl Lang for Imp {
    ghost use Rattle.std.specs.Prelude.{IsTrue};
    ghost use Rattle.qc_imp.specs.Laws.{agrees_imp, sized};
    ghost use Rattle.qc_imp.specs.Meaning.{imp};
    ghost use Rattle.qc_imp.specs.Sizes.{size};
    ghost use Rattle.qc_imp.specs.WellFormed.{well_formed};

    ghost meaning = { λ mode program world. imp mode world program };

    ghost good = { λ _ program. IsTrue (well_formed program) };

    ghost size = { λ _ program. size program };

    fn eval(&self, alloc: Global, world: &World) -> Result<Datum, Halt> {
        value_of_program(alloc, self, world)
    }

    ghost agrees = { λ low high program world. agrees_imp low high world program };

    ghost sized = { λ _ program. sized program };
}
