// Values of operands, of which those that stand somewhere are not copied.
ghost use Rattle.std.specs.Prelude.{◌≡◌};
ghost use Rattle.qc_data.specs.HeldOperands.{datum_of};

use crate::data::Datum;

/// The value of an operand.
#[derive(Drop)]
pub enum Held<'a> {
    /// One that was made.
    Made(Datum),
    /// One that stands somewhere: in a tree, in a world, or where a name or a variable is bound to it.
    Lent(&'a Datum),
}

impl Held<'_> {
    /// The value itself.
    pub fn get(&self) -> &Datum
        ensures { result.now ≡ datum_of self.now }
    {
        match self {
            Held::Made(value) => value,
            Held::Lent(value) => value,
        }
    }
}
