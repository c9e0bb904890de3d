// The texts of variables.
ghost use Rattle.std.specs.Prelude.{◌≡◌, ◌++◌, OnOk};
ghost use Rattle.std.specs.String.{string_bytes};
ghost use Rattle.qc_trees.specs.OperatorTexts.{next, variable_text};

use crate::operator_texts::push;
use itoa::Buffer;
use qc_containers::Memory;

/// Puts a variable.
pub fn push_variable(text: &mut String, x: u128) -> Result<(), Memory>
    ensures { OnOk result (string_bytes text.new ≡ string_bytes text.old ++ variable_text x) }
{
    let mut buffer = Buffer::new();
    push(text, "v")?;
    push(text, buffer.format(x))
}

/// Puts a text, and a variable behind a space.
pub fn push_bound(text: &mut String, before: &str, x: u128) -> Result<(), Memory>
    ensures { OnOk result (string_bytes text.new ≡ string_bytes text.old ++ (before.now ++ next (variable_text x))) }
{
    push(text, before)?;
    push(text, " ")?;
    push_variable(text, x)
}
