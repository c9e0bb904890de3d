// Programs that meet the rules.
ghost use Rattle.std.specs.Prelude.{◌≡◌, IsTrue};
ghost use Rattle.qc_js.specs.WellFormed.{well_formed};

use crate::tree::Program;
use std::marker::Model;

/// A program that meets the rules (`well_formed`). Clauses see the program.
#[derive(Drop)]
pub struct Js {
    program: Program,
}

impl Model for Js {
    ghost use Rattle.std.specs.Coded.{codes};
    ghost use Rattle.std.specs.Prelude.{IsTrue};
    ghost use Rattle.qc_js.specs.WellFormed.{well_formed};
    ghost use Rattle.qc_js.specs.contracts.tree.Expr as expr;
    ghost use Rattle.qc_js.specs.contracts.tree.Stmt as stmt;
    ghost use Rattle.qc_js.specs.declared.tree.Program.{Program};

    ghost Value = { Program };

    ghost coded = { Prim.hlevel (codes, expr.the_row.coded, stmt.the_row.coded) };

    ghost view = { λ js. js.program };

    ghost invariant = { λ js. IsTrue (well_formed js.program) };
}

impl Js {
    /// The program, which meets the rules. It takes no memory.
    pub fn of(program: Program) -> Js
        requires { IsTrue (well_formed program) }
        ensures { result ≡ program }
    {
        Js { program }
    }

    /// The program.
    pub fn program(&self) -> &Program
        ensures same { result.now ≡ self.now }
        ensures good { IsTrue (well_formed self.now) }
    {
        &self.program
    }
}
