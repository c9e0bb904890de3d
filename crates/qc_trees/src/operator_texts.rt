// The texts of operators and their parameters.
ghost use Rattle.std.specs.List.{list_all};
ghost use Rattle.std.specs.Prelude.{◌≡◌, ◌++◌, OnOk};
ghost use Rattle.std.specs.String.{string_bytes};
ghost use Rattle.qc_data.specs.declared.data.Json.TheVariants as json;
ghost use Rattle.qc_trees.specs.OperatorTexts as spec;
ghost use Rattle.qc_schema.specs.Writing.{text_of};

use qc_containers::{Chars, Memory, Name};
use qc_data::Json;
use qc_ops::{Binary, Divisor, Unary};
use qc_schema::json_text;
use std::alloc::Global;

/// Puts a text behind another.
pub fn push(text: &mut String, more: &str) -> Result<(), Memory>
    ensures { OnOk result (string_bytes text.new ≡ string_bytes text.old ++ more.now) }
{
    text.push_str(more)?;
    Ok(())
}

/// Puts the compact text of a JSON tree.
pub fn push_json(alloc: Global, text: &mut String, tree: &Json) -> Result<(), Memory>
    ensures { OnOk result (string_bytes text.new ≡ string_bytes text.old ++ text_of tree.now) }
{
    let json = json_text(alloc, tree)?;
    push(text, json.as_str())
}

// Whether a text is a word.
fn is_word(text: &str) -> bool
    ensures { result ≡ spec.is_word text.now }
{
    match text.as_bytes() {
        [] => false,
        [first, rest @ ..] => begins_word(*first) && are_in_word(rest),
    }
}

// Whether all bytes stand in words.
fn are_in_word(bytes: &[u8]) -> bool
    ensures { result ≡ list_all spec.in_word bytes.now }
{
    for byte in bytes {
        if !in_word(*byte) {
            return false;
        }
    }
    true
}

// Whether a byte begins a word.
fn begins_word(byte: u8) -> bool
    ensures { result ≡ spec.begins_word byte }
{
    byte.is_ascii_alphabetic() || byte == b'_'
}

// Whether a byte stands in words.
fn in_word(byte: u8) -> bool
    ensures { result ≡ spec.in_word byte }
{
    byte.is_ascii_alphanumeric() || byte == b'_'
}

/// Puts a name.
pub fn push_name(alloc: Global, text: &mut String, name: &Name) -> Result<(), Memory>
    ensures { OnOk result (string_bytes text.new ≡ string_bytes text.old ++ spec.name_text name.now) }
{
    if is_word(name.as_str()) {
        push(text, name.as_str())
    } else {
        push_quoted(alloc, text, name.as_str())
    }
}

// Puts a text as a JSON text.
fn push_quoted(alloc: Global, text: &mut String, content: &str) -> Result<(), Memory>
    ensures { OnOk result (string_bytes text.new ≡ string_bytes text.old ++ text_of (json.Text content.now)) }
{
    let tree = Json::Text(Chars::of(alloc, content)?);
    push_json(alloc, text, &tree)
}

// Puts a word and a name.
fn push_named(alloc: Global, text: &mut String, word: &str, name: &Name) -> Result<(), Memory>
    ensures { OnOk result
        (string_bytes text.new ≡ string_bytes text.old ++ (word.now ++ spec.name_text name.now)) }
{
    push(text, word)?;
    push_name(alloc, text, name)
}

// Puts a word and a divisor.
fn push_divisor(alloc: Global, text: &mut String, word: &str, k: Divisor) -> Result<(), Memory>
    ensures { OnOk result
        (string_bytes text.new ≡ string_bytes text.old ++ (word.now ++ text_of (json.Int k))) }
{
    push(text, word)?;
    push_json(alloc, text, &Json::Int(k.get()))
}

// Puts a list of names.
fn push_names(alloc: Global, text: &mut String, names: &[Name]) -> Result<(), Memory>
    ensures { OnOk result (string_bytes text.new ≡ string_bytes text.old ++ spec.names_text names.now) }
{
    match names {
        [] => push(text, "()"),
        [first, rest @ ..] => {
            push_named(alloc, text, "(", first)?;
            push_after(alloc, text, rest)
        }
    }
}

// Puts names behind spaces, and the end of their list.
fn push_after(alloc: Global, text: &mut String, names: &[Name]) -> Result<(), Memory>
    ensures { OnOk result (string_bytes text.new ≡ string_bytes text.old ++ spec.after_spaces names.now) }
{
    for name in names {
        push_named(alloc, text, " ", name)?;
    }
    push(text, ")")
}

// Puts a name with its direction.
fn push_key(alloc: Global, text: &mut String, key: &(Name, bool)) -> Result<(), Memory>
    ensures { OnOk result (string_bytes text.new ≡ string_bytes text.old ++ spec.key_text key.now) }
{
    push_name(alloc, text, &key.0)?;
    push(text, if key.1 { " asc" } else { " desc" })
}

// Puts a list of keys.
fn push_keys(alloc: Global, text: &mut String, keys: &[(Name, bool)]) -> Result<(), Memory>
    ensures { OnOk result (string_bytes text.new ≡ string_bytes text.old ++ spec.keys_text keys.now) }
{
    match keys {
        [] => push(text, "()"),
        [first, rest @ ..] => {
            push(text, "(")?;
            push_key(alloc, text, first)?;
            push_keys_after(alloc, text, rest)
        }
    }
}

// Puts keys behind spaces, and the end of their list.
fn push_keys_after(alloc: Global, text: &mut String, keys: &[(Name, bool)]) -> Result<(), Memory>
    ensures { OnOk result (string_bytes text.new ≡ string_bytes text.old ++ spec.keys_after keys.now) }
{
    for key in keys {
        push(text, " ")?;
        push_key(alloc, text, key)?;
    }
    push(text, ")")
}

/// Puts an operator on one value, with its parameters.
pub fn push_unary(alloc: Global, text: &mut String, op: &Unary) -> Result<(), Memory>
    ensures { OnOk result (string_bytes text.new ≡ string_bytes text.old ++ spec.unary_text op.now) }
{
    match op {
        Unary::Not => push(text, "not"),
        Unary::Neg => push(text, "neg"),
        Unary::Abs => push(text, "abs"),
        Unary::DivBy(k) => push_divisor(alloc, text, "divby ", *k),
        Unary::ModBy(k) => push_divisor(alloc, text, "modby ", *k),
        Unary::Count => push(text, "count"),
        Unary::Sum => push(text, "sum"),
        Unary::Min => push(text, "min"),
        Unary::Max => push(text, "max"),
        Unary::Avg => push(text, "avg"),
        Unary::Element => push(text, "element"),
        Unary::Flatten => push(text, "flatten"),
        Unary::Distinct => push(text, "distinct"),
        Unary::Single => push(text, "single"),
        Unary::Rec(name) => push_named(alloc, text, "rec ", name),
        Unary::Dot(name) => push_named(alloc, text, "dot ", name),
        Unary::Project(names) => {
            push(text, "project ")?;
            push_names(alloc, text, names.as_slice())
        }
        Unary::Left => push(text, "left"),
        Unary::Right => push(text, "right"),
        Unary::Brand(name) => push_named(alloc, text, "brand ", name),
        Unary::Unbrand => push(text, "unbrand"),
        Unary::Cast(name) => push_named(alloc, text, "cast ", name),
        Unary::Order(keys) => {
            push(text, "order ")?;
            push_keys(alloc, text, keys.as_slice())
        }
        Unary::Group(name, names) => {
            push_named(alloc, text, "group ", name)?;
            push(text, " ")?;
            push_names(alloc, text, names.as_slice())
        }
        Unary::Like(pattern) => {
            push(text, "like ")?;
            push_quoted(alloc, text, pattern.as_str())
        }
    }
}

/// The word of an operator on two values.
pub fn binary_word(op: Binary) -> &'static str
    ensures { result.now ≡ spec.binary_text op }
{
    match op {
        Binary::Eq => "eq",
        Binary::Lt => "lt",
        Binary::Le => "le",
        Binary::And => "and",
        Binary::Or => "or",
        Binary::Add => "add",
        Binary::Sub => "sub",
        Binary::Mul => "mul",
        Binary::Least => "least",
        Binary::Greatest => "greatest",
        Binary::Union => "union",
        Binary::Except => "except",
        Binary::Intersect => "intersect",
        Binary::Member => "member",
        Binary::Cat => "cat",
        Binary::Merge => "merge",
        Binary::Glue => "glue",
    }
}
