// The calculus as a language.

use crate::bindings::Frame;
use crate::evaluating::eval_at;
use crate::tree::Nnrc;
use qc_data::{Datum, Halt};
use qc_lang::Lang;
use qc_types::World;
use std::alloc::Global;

impl Lang for Nnrc {
    ghost use Rattle.std.specs.Prelude.{[]};
    ghost use Rattle.qc_nnrc.specs.Free.{IsClosed};
    ghost use Rattle.qc_nnrc.specs.Laws.{agrees_nnrc, sized};
    ghost use Rattle.qc_nnrc.specs.Meaning.{nnrc};
    ghost use Rattle.qc_nnrc.specs.Sizes.{size};

    ghost meaning = { λ mode tree world. nnrc mode world tree [] };

    ghost good = { λ _ tree. IsClosed tree };

    ghost size = { λ _ tree. size tree };

    fn eval(&self, alloc: Global, world: &World) -> Result<Datum, Halt> {
        let frame = Frame::new(alloc);
        eval_at(alloc, self, world, &frame)
    }

    ghost agrees = { λ low high tree world. agrees_nnrc low high world tree [] };

    ghost sized = { λ _ tree. sized tree };
}
