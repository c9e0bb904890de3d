// Integers, one and two.
ghost use Rattle.qc_data.specs.Outcome.{bits64, Gives};
ghost use Rattle.qc_ops.specs.Numbers.{absolute, addition, greater, lesser, multiplication, negative, quotient};
ghost use Rattle.qc_ops.specs.Numbers.{remainder, subtraction};

use crate::divisor::Divisor;
use crate::operands::{int_of, made};
use qc_data::{Datum, Halt};

pub(crate) fn negative(a: &Datum) -> Result<Datum, Halt>
    ensures { Gives (negative bits64 a.now) result }
{
    let n = int_of(a)?;
    made(-i128::from(n))
}

pub(crate) fn absolute(a: &Datum) -> Result<Datum, Halt>
    ensures { Gives (absolute bits64 a.now) result }
{
    let n = int_of(a)?;
    made(i128::from(n.unsigned_abs()))
}

pub(crate) fn quotient(divisor: Divisor, a: &Datum) -> Result<Datum, Halt>
    ensures { Gives (quotient bits64 divisor a.now) result }
{
    let n = int_of(a)?;
    made(i128::from(n) / i128::from(divisor.get()))
}

pub(crate) fn remainder(divisor: Divisor, a: &Datum) -> Result<Datum, Halt>
    ensures { Gives (remainder bits64 divisor a.now) result }
{
    let n = int_of(a)?;
    made(i128::from(n) % i128::from(divisor.get()))
}

pub(crate) fn addition(a: &Datum, b: &Datum) -> Result<Datum, Halt>
    ensures { Gives (addition bits64 a.now b.now) result }
{
    let x = int_of(a)?;
    let y = int_of(b)?;
    made(i128::from(x) + i128::from(y))
}

pub(crate) fn subtraction(a: &Datum, b: &Datum) -> Result<Datum, Halt>
    ensures { Gives (subtraction bits64 a.now b.now) result }
{
    let x = int_of(a)?;
    let y = int_of(b)?;
    made(i128::from(x) - i128::from(y))
}

pub(crate) fn multiplication(a: &Datum, b: &Datum) -> Result<Datum, Halt>
    ensures { Gives (multiplication bits64 a.now b.now) result }
{
    let x = int_of(a)?;
    let y = int_of(b)?;
    made(i128::from(x) * i128::from(y))
}

pub(crate) fn lesser(a: &Datum, b: &Datum) -> Result<Datum, Halt>
    ensures { Gives (lesser a.now b.now) result }
{
    let x = int_of(a)?;
    let y = int_of(b)?;
    Ok(Datum::Int(x.min(y)))
}

pub(crate) fn greater(a: &Datum, b: &Datum) -> Result<Datum, Halt>
    ensures { Gives (greater a.now b.now) result }
{
    let x = int_of(a)?;
    let y = int_of(b)?;
    Ok(Datum::Int(x.max(y)))
}
