// The value of a run of digits.
ghost use Rattle.std.specs.Prelude.{◌≡◌, ◌≤◌, ◌<◌, ◌+◌, ◌-◌, ◌*◌, ◌^◌, pos, IfSome, None, MatchOption};
ghost use Rattle.qc_lex.specs.Pieces.{value};

/// The number that digits spell, or `None` exactly where it is above `i64::MAX`.
pub fn number(digits: &[u8]) -> Option<i64>
    ensures within { IfSome result (λ n. value digits.now < 2 ^ 63) }
    ensures same { IfSome result (λ n. n ≡ pos (value digits.now)) }
    ensures above { result ≡ None → 2 ^ 63 ≤ value digits.now }
{
    let value = unsigned(digits)?;
    i64::try_from(value).ok()
}

/// The number that digits spell, or `None` exactly where it is above `u64::MAX`.
#[tactic(auto, using(crate::proofs::Values::over))]
fn unsigned(digits: &[u8]) -> Option<u64>
    ensures { MatchOption result (2 ^ 64 ≤ value digits.now) (λ n. n ≡ value digits.now) }
{
    let mut value = 0;
    for digit in digits {
        value = grown(value, *digit)?;
    }
    Some(value)
}

/// The number with one digit more, or `None` exactly where it is above `u64::MAX`.
fn grown(value: u64, digit: u8) -> Option<u64>
    ensures { MatchOption result (2 ^ 64 ≤ 10 * value + (digit - 48)) (λ n. n ≡ 10 * value + (digit - 48)) }
{
    let digit = u64::from(digit.saturating_sub(b'0'));
    value.checked_mul(10)?.checked_add(digit)
}
