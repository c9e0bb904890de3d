// Passes.
ghost use Rattle.std.specs.Prelude.{◌≤◌, IfOk};
ghost use Rattle.qc_lang.specs.Keeping.{Keeps};
ghost use Rattle.qc_lang.specs.Growth.{IsGrown};

use crate::language::Lang;
use qc_containers::Memory;
use qc_types::Schema;
use std::alloc::Global;

/// A pass from one language to another, which keeps values.
pub trait Pass<S: Lang, T: Lang> {
    ghost use Rattle.std.specs.Prelude.{ℕ, Option};
    ghost use Rattle.qc_lang.specs.Growth.{IsGrowth};

    /// The largest size that it takes.
    ghost most: { ℕ };

    /// How many times as large as the input the output may be, where that is known.
    ghost grows: { Option ℕ };

    /// The tree of the other language, or `Memory`. It takes a good tree of a size up to `most`.
    fn pass(&self, alloc: Global, schema: &Schema, from: S) -> Result<T, Memory>
        requires takes { S.good schema.now from }
        requires small { S.size schema.now from ≤ most }
        ensures keeps { IfOk result (λ to. Keeps schema.now (λ m w. S.meaning m from w) (λ m w. T.meaning m to w)) }
        ensures good { IfOk result (λ to. T.good schema.now to) }
        ensures size { IfOk result (λ to. IsGrown grows (S.size schema.now from) (T.size schema.now to)) };

    /// It grows at least once.
    ghost growth: { IsGrowth grows };
}
