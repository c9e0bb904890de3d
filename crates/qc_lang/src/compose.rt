// Composition.
ghost use Rattle.std.specs.Prelude.{◌≡◌};

use crate::language::Lang;
use crate::pair::After;
use crate::passing::Pass;
use std::marker::PhantomData;

/// The first pass and then the second.
pub fn after<S: Lang, M: Lang, T: Lang, P: Pass<S, M>, Q: Pass<M, T>>(
    first: P,
    second: Q,
) -> After<P, Q, M>
    ensures first { result.first ≡ first }
    ensures second { result.second ≡ second }
{
    After {
        first,
        second,
        middle: PhantomData,
    }
}
