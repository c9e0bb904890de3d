// The numbers of variables in programs.
ghost use Rattle.std.specs.Prelude.{◌≡◌};
ghost use Rattle.qc_to_imp.specs.inner.Numbering.{number_of, pairs_of};

// The variables that have a number, the newest first.
#[derive(Drop)]
pub(crate) enum Numbering<'a> {
    // None.
    Empty,
    // A variable with its number, and the others.
    Under(u128, u128, &'a Numbering<'a>),
}

// The number of a variable: that of its newest pair, and 0 where it has none.
pub(crate) fn number_of(numbering: &Numbering, variable: u128) -> u128
    ensures { result ≡ number_of variable (pairs_of numbering.now) }
{
    match numbering {
        Numbering::Empty => 0,
        Numbering::Under(bound, number, outer) => {
            if *bound == variable {
                *number
            } else {
                number_of(outer, variable)
            }
        }
    }
}
