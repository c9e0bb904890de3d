// The texts that tell faults.
use qc_containers::NameFault;
use qc_grammar::SyntaxFault;
use qc_io::FetchFault;
use qc_lex::ScanFault;
use qc_rows::{Form, Odd};
use qc_schema::{InputFault, SchemaFault};
use qc_source::QueryFault;
use qc_types::{ClassFault, WorldFault};
use qc_typing::TypeFault;
use std::alloc::Global;
use std::fmt::Display;

/// The text that tells a fault.
pub fn told(alloc: Global, row: &mut Form) -> Result<String, Odd> {
    let family = row.word("enum")?;
    let variant = row.word("variant")?;
    match family {
        "NameFault" | "FetchFault" | "ClassFault" | "WorldFault" | "InputFault" | "SchemaFault" => {
            told_plain(alloc, family, variant)
        }
        _ => told_placed(alloc, family, variant),
    }
}

// A fault that has no place.
fn told_plain(alloc: Global, family: &str, variant: &str) -> Result<String, Odd> {
    match (family, variant) {
        ("NameFault", "BadName") => shown(alloc, NameFault::BadName),
        ("NameFault", "Memory") => shown(alloc, NameFault::Memory),
        ("FetchFault", "Failed") => shown(alloc, FetchFault::Failed),
        ("FetchFault", "TooLong") => shown(alloc, FetchFault::TooLong),
        ("FetchFault", "Memory") => shown(alloc, FetchFault::Memory),
        ("ClassFault", "BadClasses") => shown(alloc, ClassFault::BadClasses),
        ("ClassFault", "Memory") => shown(alloc, ClassFault::Memory),
        ("WorldFault", "NotWorld") => shown(alloc, WorldFault::NotWorld),
        ("WorldFault", "Memory") => shown(alloc, WorldFault::Memory),
        ("InputFault", "BadInput") => shown(alloc, InputFault::BadInput),
        ("InputFault", "Memory") => shown(alloc, InputFault::Memory),
        ("SchemaFault", "BadSchema") => shown(alloc, SchemaFault::BadSchema),
        ("SchemaFault", "Memory") => shown(alloc, SchemaFault::Memory),
        _ => Err(Odd::Form),
    }
}

// A fault of a text, some of which have a place.
fn told_placed(alloc: Global, family: &str, variant: &str) -> Result<String, Odd> {
    match (family, variant) {
        ("ScanFault", "BadScan") => shown(alloc, ScanFault::BadScan { at: 0 }),
        ("ScanFault", "TooManyTokens") => shown(alloc, ScanFault::TooManyTokens),
        ("ScanFault", "Memory") => shown(alloc, ScanFault::Memory),
        ("SyntaxFault", "BadSyntax") => shown(alloc, SyntaxFault::BadSyntax { at: 0 }),
        ("SyntaxFault", "Memory") => shown(alloc, SyntaxFault::Memory),
        ("TypeFault", "BadType") => shown(alloc, TypeFault::BadType { at: 0 }),
        ("TypeFault", "Memory") => shown(alloc, TypeFault::Memory),
        ("QueryFault", "BadScan") => shown(alloc, QueryFault::BadScan { at: 0 }),
        ("QueryFault", "TooManyTokens") => shown(alloc, QueryFault::TooManyTokens),
        ("QueryFault", "BadSyntax") => shown(alloc, QueryFault::BadSyntax { at: 0 }),
        ("QueryFault", "BadType") => shown(alloc, QueryFault::BadType { at: 0 }),
        ("QueryFault", "Memory") => shown(alloc, QueryFault::Memory),
        _ => Err(Odd::Form),
    }
}

fn shown<F: Display + Drop>(alloc: Global, fault: F) -> Result<String, Odd> {
    Ok(format!(in alloc; "fault {fault}")?)
}
