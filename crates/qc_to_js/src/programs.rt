// Programs on JSON for those over data.
ghost use Rattle.std.specs.Prelude.{IfOk, IsTrue};
ghost use Rattle.qc_imp.specs.WellFormed.{well_formed};
ghost use Rattle.qc_imp.specs.Meaning.{statements as of_block};
ghost use Rattle.qc_imp.specs.declared.tree.ImpStmt.TheViews.{out-ImpStmt};
ghost use Rattle.qc_to_js.specs.Answering.{AnswersAs};
ghost use Rattle.qc_to_js.specs.inner.Kept.{AreStmts};

use crate::statements::statements;
use qc_containers::{List, Memory};
use qc_imp::{Imp, ImpStmt};
use qc_js::{Expr, Js, Program, Stmt};
use qc_types::Schema;
use std::alloc::Global;

/// The program on JSON for one over data, over a schema: it meets the rules, and on the JSON of each world of the schema
/// it answers the encoding of what the other answers, and halts where the other does (`AnswersAs`). It writes out
/// constants, lists of names, and the classes that are below one. `Err` says that memory was wanting.
pub fn to_js(alloc: Global, schema: &Schema, program: &Imp) -> Result<Js, Memory>
    requires { IsTrue (well_formed program.now) }
    ensures { IfOk result (λ js. AnswersAs schema.now program.now js) }
{
    let body = body_of(alloc, schema, &program.body)?;
    let result = Expr::Var(program.result);
    Ok(Js::of(Program { body, result }))
}

// The statements of the block that a program's statement is.
fn body_of(alloc: Global, schema: &Schema, body: &ImpStmt) -> Result<List<Stmt>, Memory>
    ensures { IfOk result (λ made. AreStmts schema.now.classes (of_block (out-ImpStmt body.now)) made) }
{
    match body {
        ImpStmt::Block(all) => statements(alloc, schema.classes(), all.as_slice()),
        _ => Ok(List::new(alloc)),
    }
}
