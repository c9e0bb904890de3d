// Programs as a language.
ghost use Rattle.std.specs.Prelude.{◌≡◌};
ghost use Rattle.qc_data.specs.Outcome.{bits64, Gives};
ghost use Rattle.qc_js_run.specs.Language.{decoded};

use crate::evaluating::exec;
use qc_data::{Datum, Halt, Json, enc, into_datum};
use qc_js::Js;
use qc_lang::Lang;
use qc_types::World;
use std::alloc::Global;
use std::marker::Model;

/// A program that is run on the JSON of a world. Clauses see the program.
#[derive(Drop)]
pub struct Script {
    js: Js,
}

impl Model for Script {
    ghost use Rattle.std.specs.Coded.{codes};
    ghost use Rattle.std.specs.Prelude.{IsTrue};
    ghost use Rattle.qc_js.specs.WellFormed.{well_formed};
    ghost use Rattle.qc_js.specs.contracts.tree.Expr as expr;
    ghost use Rattle.qc_js.specs.contracts.tree.Stmt as stmt;
    ghost use Rattle.qc_js.specs.declared.tree.Program.{Program};

    ghost Value = { Program };

    ghost coded = { Prim.hlevel (codes, expr.the_row.coded, stmt.the_row.coded) };

    ghost view = { λ script. script.js };
}

impl Script {
    /// The program as a tree of the language.
    pub fn of(js: Js) -> Script
        ensures { result ≡ js }
    {
        Script { js }
    }

    /// The program.
    pub fn js(&self) -> &Js
        ensures { result.now ≡ self.now }
    {
        &self.js
    }
}

impl Lang for Script {
    ghost use Rattle.qc_js_run.specs.Language.{agrees_script, answer, size, sized};

    ghost meaning = { λ mode program world. answer mode program world };

    ghost good = { λ _ program. Unit {0} };

    ghost size = { λ _ program. size program };

    fn eval(&self, alloc: Global, world: &World) -> Result<Datum, Halt> {
        let input = enc(alloc, world.whole())?;
        let answer = exec(alloc, &self.js, &input)?;
        decoded(alloc, answer)
    }

    ghost agrees = { λ low high program world. agrees_script low high world program };

    ghost sized = { λ _ program. sized program };
}

// The datum that the tree encodes.
fn decoded(alloc: Global, j: Json) -> Result<Datum, Halt>
    ensures { Gives (decoded j) result }
{
    match into_datum(alloc, j)? {
        Some(d) => Ok(d),
        None => Err(Halt::Stuck),
    }
}
