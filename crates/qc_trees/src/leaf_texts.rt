// The texts of forms without parts, and what stands before the part of an operator.
ghost use Rattle.std.specs.Prelude.{◌≡◌, ◌++◌, codes, OnOk};
ghost use Rattle.std.specs.String.{string_bytes};
ghost use Rattle.qc_data.specs.Encoding.{enc};
ghost use Rattle.qc_schema.specs.Writing.{text_of};
ghost use Rattle.qc_trees.specs.OperatorTexts as spec;

use crate::operator_texts::{push, push_json, push_name, push_unary};
use qc_containers::{Memory, Name};
use qc_data::{Datum, enc};
use qc_ops::Unary;
use std::alloc::Global;

/// Puts a constant.
pub fn push_constant(alloc: Global, text: &mut String, d: &Datum) -> Result<(), Memory>
    ensures { OnOk result
        (string_bytes text.new ≡ string_bytes text.old ++ spec.with_one (codes "const") (text_of (enc d.now))) }
{
    let tree = enc(alloc, d)?;
    push(text, "(const ")?;
    push_json(alloc, text, &tree)?;
    push(text, ")")
}

/// Puts a global.
pub fn push_global(alloc: Global, text: &mut String, name: &Name) -> Result<(), Memory>
    ensures { OnOk result
        (string_bytes text.new ≡ string_bytes text.old ++ spec.with_one (codes "global") (spec.name_text name.now)) }
{
    push(text, "(global ")?;
    push_name(alloc, text, name)?;
    push(text, ")")
}

/// Puts what stands before the part of an operator on one value.
pub fn open_unary(alloc: Global, text: &mut String, op: &Unary) -> Result<(), Memory>
    ensures { OnOk result
        (string_bytes text.new ≡ string_bytes text.old ++ (codes "(" ++ spec.unary_text op.now)) }
{
    push(text, "(")?;
    push_unary(alloc, text, op)
}
