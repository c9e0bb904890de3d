// Divisors.
ghost use Rattle.std.specs.Prelude.{◌≡◌, ◌≢◌, pos, IfNone, IfSome};

use std::marker::Model;

/// An integer that is not 0. Clauses see the integer.
#[derive(Clone, Copy, Debug, PartialEq, Eq)]
pub struct Divisor {
    value: i64,
}

impl Model for Divisor {
    ghost use Rattle.std.specs.Prelude.{ℤ, pos, ◌≢◌};

    ghost Value = { ℤ };

    ghost view = { λ divisor. divisor.value };

    ghost invariant = { λ divisor. divisor.value ≢ pos 0 };

    ghost inverse = { λ n. record { value = n } };
}

impl Divisor {
    /// The divisor that the integer is: `None` exactly where it is 0.
    pub fn of(k: i64) -> Option<Divisor>
        ensures value { IfSome result (λ divisor. divisor ≡ k) }
        ensures none { IfNone result (k ≡ pos 0) }
        ensures zero { k ≡ pos 0 → result ≡ None }
    {
        if k == 0 {
            None
        } else {
            Some(Divisor { value: k })
        }
    }

    /// The integer, which is never 0.
    pub fn get(&self) -> i64
        ensures value { result ≡ self.now }
        ensures nonzero { self.now ≢ pos 0 }
    {
        self.value
    }
}
