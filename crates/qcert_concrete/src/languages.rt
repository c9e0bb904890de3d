// Two small languages and a pass each way: numbers, and sums of two numbers.
use qc_containers::Memory;
use qc_data::{Datum, Halt};
use qc_lang::{Lang, Pass};
use qc_types::{Schema, World};
use std::alloc::Global;

/// A number.
#[derive(Drop)]
pub struct Whole {
    pub n: u8,
}

/// The sum of two numbers.
#[derive(Drop)]
pub struct Sum {
    pub left: u8,
    pub right: u8,
}

impl Lang for Whole {
    ghost use Rattle.std.specs.Prelude.{pos, refl};
    ghost use Rattle.std.proofs.Common.{lit≤};
    ghost use Rattle.qc_data.specs.Outcome.{Value};
    ghost use Rattle.qc_data.specs.declared.data.Datum.TheVariants as datum;

    ghost meaning = { λ _ tree _. Value (datum.Int (pos tree.n)) };

    ghost good = { λ _ _. Unit {0} };

    ghost size = { λ _ _. 1 };

    fn eval(&self, _alloc: Global, _world: &World) -> Result<Datum, Halt> {
        Ok(Datum::Int(i64::from(self.n)))
    }

    ghost agrees = { λ _ _ _ _. refl };

    ghost sized = { λ _ _. lit≤ tt };
}

impl Lang for Sum {
    ghost use Rattle.std.specs.Prelude.{pos, ◌+◌, ◌<◌, refl};
    ghost use Rattle.std.proofs.Common.{lit≤};
    ghost use Rattle.qc_data.specs.Outcome.{Value};
    ghost use Rattle.qc_data.specs.declared.data.Datum.TheVariants as datum;

    ghost meaning = { λ _ tree _. Value (datum.Int (pos (tree.left + tree.right))) };

    ghost good = { λ _ tree. tree.left + tree.right < 256 };

    ghost size = { λ _ _. 3 };

    fn eval(&self, _alloc: Global, _world: &World) -> Result<Datum, Halt> {
        Ok(Datum::Int(i64::from(self.left) + i64::from(self.right)))
    }

    ghost agrees = { λ _ _ _ _. refl };

    ghost sized = { λ _ _. lit≤ tt };
}

/// A number as the sum of itself and nothing.
#[derive(Drop)]
pub struct Split;

impl Pass<Whole, Sum> for Split {
    ghost use Rattle.std.specs.Prelude.{Some};
    ghost use Rattle.std.proofs.Common.{lit≤};

    ghost most = { 9 };

    ghost grows = { Some 3 };

    fn pass(&self, _alloc: Global, _schema: &Schema, from: Whole) -> Result<Sum, Memory> {
        Ok(Sum {
            left: from.n,
            right: 0,
        })
    }

    ghost growth = { lit≤ tt };
}

/// A sum as the number that it is.
#[derive(Drop)]
pub struct Add;

impl Pass<Sum, Whole> for Add {
    ghost use Rattle.std.specs.Prelude.{Some};
    ghost use Rattle.std.proofs.Common.{lit≤};

    ghost most = { 9 };

    ghost grows = { Some 1 };

    fn pass(&self, _alloc: Global, _schema: &Schema, from: Sum) -> Result<Whole, Memory> {
        Ok(Whole {
            n: from.left + from.right,
        })
    }

    ghost growth = { lit≤ tt };
}
