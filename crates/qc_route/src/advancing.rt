// Along one edge.
ghost use Rattle.std.specs.Prelude.{◌≡◌, ◌*◌, ◌^◌, ℕ, IfOk};
ghost use Rattle.qc_route.specs.Paths.{from, to};
ghost use Rattle.qc_route.specs.Stages.{language, AtMost, IsGood, Keeps};

use crate::edge::Edge;
use crate::stage::Stage;
use qc_containers::Memory;
use qc_lang::Pass;
use qc_lower::NraToNnrc;
use qc_to_imp::NnrsToImp;
use qc_to_js::to_js;
use qc_to_nnrs::NnrcToNnrs;
use qc_to_nra::OqlToNra;
use qc_types::Schema;
use std::alloc::Global;

/// The next stage along an edge from the stage's language: in each mode and world it answers what the stage answers
/// (`Keeps`), and it has at most 32 times the nodes, unless it is a program on JSON. `Err` says that memory was
/// wanting.
pub fn advance(alloc: Global, schema: &Schema, stage: Stage, edge: Edge) -> Result<Stage, Memory>
    requires good { IsGood schema.now stage }
    requires starts { language stage ≡ from edge }
    requires small { AtMost (2 ^ 100) stage }
    ensures keeps { IfOk result (Keeps schema.now stage) }
    ensures good { IfOk result (IsGood schema.now) }
    ensures ends { IfOk result (λ next. language next ≡ to edge) }
    ensures size { (n : ℕ) → AtMost n stage → IfOk result (AtMost (32 * n)) }
{
    match (stage, edge) {
        (Stage::Oql(typed), Edge::OqlToNraenv) => {
            Ok(Stage::Nraenv(OqlToNra.pass(alloc, schema, typed)?))
        }
        (Stage::Nraenv(tree), Edge::NraenvToNnrc) => {
            Ok(Stage::Nnrc(NraToNnrc.pass(alloc, schema, tree)?))
        }
        (Stage::Nnrc(tree), Edge::NnrcToNnrs) => {
            Ok(Stage::Nnrs(NnrcToNnrs.pass(alloc, schema, tree)?))
        }
        (Stage::Nnrs(program), Edge::NnrsToImp) => {
            Ok(Stage::Imp(NnrsToImp.pass(alloc, schema, program)?))
        }
        (Stage::Imp(program), Edge::ImpToJs) => Ok(Stage::Js(to_js(alloc, schema, &program)?)),
        _ => unreachable!(),
    }
}
