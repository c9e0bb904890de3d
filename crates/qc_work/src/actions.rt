// What is done with a query: the line of its type, its program, and the line of its answer; and with a script.
ghost use Rattle.std.specs.Prelude.{◌≡◌, ◌⊎◌, IfOk, MatchResult};
ghost use Rattle.std.specs.String.{string_bytes};
ghost use Rattle.qc_lang.specs.Keeping.{IsOf};
ghost use Rattle.qc_work.specs.Work.{line, Check, Compile, Run, Exec};
ghost use Rattle.qc_work.specs.Promises.{Acts, HasItsType};
ghost use Rattle.qc_work.specs.Texts.{bytes_of};

use crate::refusal::Refusal;
use crate::sources::{Checked, compiled, evaluate, type_of};
use qc_containers::Memory;
use qc_data::{Halt, Json};
use qc_js::{Js, held};
use qc_js_run::exec;
use qc_js_text::one_program;
use qc_schema::{datum_text, tree_text, type_text};
use qc_types::World;
use std::alloc::Global;

/// A text that an action gives.
#[derive(Drop)]
pub enum Text {
    /// A line.
    Line(String),
    /// The layout of a program.
    Program(Js),
}

/// The JSON of the query's type and a line feed.
pub fn type_line(alloc: Global, checked: &Checked) -> Result<Text, Refusal>
    ensures { Acts bytes_of (Check checked.now) result }
{
    let text = type_text(alloc, type_of(&checked.query))?;
    let text = string_of(alloc, text.as_str())?;
    Ok(Text::Line(line(text)?))
}

/// The query's program.
pub fn program_text(alloc: Global, checked: Checked) -> Result<Text, Refusal>
    requires typed { HasItsType checked.schema checked.query }
    ensures { Acts bytes_of (Compile checked) result }
{
    let query = checked.query;
    let schema = checked.schema;
    let js = compiled(alloc, &schema, query)?;
    held(js.program());
    one_program();
    Ok(Text::Program(js))
}

/// The JSON of the query's answer in a world, and a line feed.
pub fn answer_line(alloc: Global, checked: &Checked, world: &World) -> Result<Text, Refusal>
    requires typed { HasItsType checked.now.schema checked.now.query }
    requires world { IsOf checked.now.schema world.now }
    ensures { Acts bytes_of (Run checked.now world.now) result }
{
    match evaluate(alloc, &checked.query, world) {
        Ok(answer) => Ok(Text::Line(line(datum_text(alloc, &answer)?)?)),
        Err(Halt::Range) => Err(Refusal::Range),
        Err(Halt::Stuck) => unreachable!(),
        Err(Halt::Memory) => Err(Refusal::Memory),
    }
}

/// The JSON that a program answers on an input, and a line feed.
pub fn result_line(alloc: Global, js: &Js, input: &Json) -> Result<Text, Refusal>
    ensures { Acts bytes_of (Exec js.now input.now) result }
{
    match exec(alloc, js, input) {
        Ok(answer) => Ok(Text::Line(line(tree_text(alloc, &answer)?)?)),
        Err(Halt::Range) => Err(Refusal::Range),
        Err(Halt::Stuck) => Err(Refusal::Stuck),
        Err(Halt::Memory) => Err(Refusal::Memory),
    }
}

// The text and a line feed behind it.
fn line(mut text: String) -> Result<String, Memory>
    ensures { IfOk result (λ made. string_bytes made ≡ line (string_bytes text)) }
{
    text.push_str("\n")?;
    Ok(text)
}

// The text as a string.
fn string_of(alloc: Global, text: &str) -> Result<String, Memory>
    ensures { IfOk result (λ made. string_bytes made ≡ text.now) }
{
    Ok(String::from_str(alloc, text)?)
}
