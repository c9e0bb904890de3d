// Chains of bindings: those that binders make, around those of a whole tree.
ghost use Rattle.std.specs.Option.{option_copied};
ghost use Rattle.std.specs.Prelude.{◌≡◌};
ghost use Rattle.qc_nnrc.specs.Variables.{look};
ghost use Rattle.qc_nnrc.specs.inner.Chains.{pairs_of};

use crate::bindings::Bindings;

/// Bindings, the newest first.
#[derive(Drop)]
pub enum Chain<'a, T> {
    /// Those of the whole.
    Whole(&'a Bindings<T>),
    /// A variable and what it stands for.
    Bind(u128, &'a T, &'a Chain<'a, T>),
}

/// What a variable stands for: its newest binding, and `None` exactly where it has none.
pub fn binding<'a, T>(chain: &'a Chain<'a, T>, variable: u128) -> Option<&'a T>
    ensures { option_copied result ≡ look variable (pairs_of chain.now) }
{
    match chain {
        Chain::Whole(bindings) => bindings.get(variable),
        Chain::Bind(bound, value, outer) => {
            if *bound == variable {
                Some(value)
            } else {
                binding(outer, variable)
            }
        }
    }
}
