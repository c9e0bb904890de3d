// What the calls on a program of statements give.
ghost use Rattle.std.specs.Prelude.{◌≤◌, ◌^◌};
ghost use Rattle.qc_nnrs.specs.Sizes.{size};

use crate::outcome::{evaluated, judged};
use crate::statement_tree::program;
use qc_nnrs::{Nnrs, nodes, spell};
use qc_nnrs_rules::well_formed;
use qc_rows::{Answers, Compared, Form, MOST_NODES, Odd, Texts, counted, spelled};
use std::alloc::Global;

/// The row's program, of which each call that the row names is made.
pub fn tried(alloc: Global, texts: &Texts, row: &mut Form) -> Result<Compared, Odd> {
    let mut room = MOST_NODES;
    let tree = program(alloc, row.member("tree")?, &mut room)?;
    answered(alloc, texts, row, &tree)
}

// What the row wants of the calls, and what they give.
fn answered(alloc: Global, texts: &Texts, row: &mut Form, tree: &Nnrs) -> Result<Compared, Odd>
    requires { size tree.now ≤ 2 ^ 100 }
{
    let mut answers = Answers::of(alloc, row)?;
    counted(alloc, &mut answers, nodes(tree))?;
    spelled(alloc, &mut answers, "spell", spell(alloc, tree)?.as_str())?;
    judged(alloc, &mut answers, well_formed(tree))?;
    evaluated(alloc, texts, row, tree, &mut answers)?;
    answers.compared(alloc)
}
