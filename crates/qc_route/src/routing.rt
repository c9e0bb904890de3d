// Along whole paths.
ghost use Rattle.std.specs.Prelude.{◌≡◌, ◌≤◌, ◌*◌, ◌^◌, ℕ, length, IfOk, IsTrue, Some};
ghost use Rattle.qc_route.specs.Paths.{first_of, is_walk, last_of};
ghost use Rattle.qc_route.specs.Stages.{language, AtMost, IsGood, Keeps};
ghost use Rattle.qc_route.specs.inner.Rooms.{HasRoom};

use crate::advancing::advance;
use crate::edge::Edge;
use crate::path::Path;
use crate::stage::Stage;
use crate::word::Word;
use qc_containers::Memory;
use qc_types::Schema;
use std::alloc::Global;

/// The stage at the end of a path from the stage's language: in each mode and world it answers what the stage answers.
/// `Err` says that memory was wanting.
pub fn route(alloc: Global, schema: &Schema, stage: Stage, path: &Path) -> Result<Stage, Memory>
    requires good { IsGood schema.now stage }
    requires starts { first_of path.now ≡ Some (language stage) }
    requires small { AtMost (2 ^ 28) stage }
    ensures keeps { IfOk result (Keeps schema.now stage) }
    ensures good { IfOk result (IsGood schema.now) }
    ensures ends { IfOk result (λ last. last_of path.now ≡ Some (language last)) }
{
    along(alloc, schema, stage, path.words())
}

// Along a walk.
fn along(alloc: Global, schema: &Schema, stage: Stage, words: &[Word]) -> Result<Stage, Memory>
    requires good { IsGood schema.now stage }
    requires starts { first_of words.now ≡ Some (language stage) }
    requires walk { IsTrue (is_walk words.now) }
    requires small { HasRoom stage words.now }
    ensures keeps { IfOk result (Keeps schema.now stage) }
    ensures good { IfOk result (IsGood schema.now) }
    ensures ends { IfOk result (λ last. last_of words.now ≡ Some (language last)) }
{
    match words {
        [from, to, ..] => {
            let Some(edge) = Edge::between(*from, *to) else {
                unreachable!();
            };
            let next = advance(alloc, schema, stage, edge)?;
            along(alloc, schema, next, &words[1..])
        }
        _ => Ok(stage),
    }
}
