// Chains of bindings, which stand on the stack.
ghost use Rattle.std.specs.Option.{option_copied};
ghost use Rattle.std.specs.Prelude.{◌≡◌};
ghost use Rattle.qc_nnrs_store.specs.Variables.{class_of, is_pushed, is_read, is_set, value_in};
ghost use Rattle.qc_nnrs_store.specs.Chains.{frame_of, newest_class};

use qc_data::Datum;

/// Variables and how they may be used, the newest first.
#[derive(Drop)]
pub enum Chain<'a> {
    /// No variable.
    Empty,
    /// One that is read, with its value.
    Reads(u128, Option<&'a Datum>, &'a Chain<'a>),
    /// One that may be set.
    Sets(u128, &'a Chain<'a>),
    /// One that may be pushed to.
    Pushes(u128, &'a Chain<'a>),
}

// The chain from the newest binding of a variable on: the empty one where it is not bound.
fn newest<'a>(chain: &'a Chain<'a>, variable: u128) -> &'a Chain<'a>
    ensures { newest_class result.now ≡ class_of variable (frame_of chain.now) }
{
    match chain {
        Chain::Empty => chain,
        Chain::Reads(bound, _, outer) | Chain::Sets(bound, outer) | Chain::Pushes(bound, outer) => {
            if *bound == variable {
                chain
            } else {
                newest(outer, variable)
            }
        }
    }
}

/// The value of a variable, where it is read and has one.
pub fn value_in<'a>(chain: &'a Chain<'a>, variable: u128) -> Option<&'a Datum>
    ensures { option_copied result ≡ value_in (class_of variable (frame_of chain.now)) }
{
    match newest(chain, variable) {
        Chain::Reads(_, value, _) => *value,
        _ => None,
    }
}

/// Whether a variable is read.
pub fn is_read(chain: &Chain, variable: u128) -> bool
    ensures { result ≡ is_read (class_of variable (frame_of chain.now)) }
{
    matches!(newest(chain, variable), Chain::Reads(..))
}

/// Whether a variable may be set.
pub fn is_set(chain: &Chain, variable: u128) -> bool
    ensures { result ≡ is_set (class_of variable (frame_of chain.now)) }
{
    matches!(newest(chain, variable), Chain::Sets(..))
}

/// Whether a variable may be pushed to.
pub fn is_pushed(chain: &Chain, variable: u128) -> bool
    ensures { result ≡ is_pushed (class_of variable (frame_of chain.now)) }
{
    matches!(newest(chain, variable), Chain::Pushes(..))
}
