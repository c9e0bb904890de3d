// What the functions that read bytes and texts give.
use qc_containers::{Chars, Name, NameFault};
use qc_data::{Json, Jsons, enc};
use qc_grammar::SyntaxFault;
use qc_lex::{ScanFault, Table, Words, scan};
use qc_like::like;
use qc_oql_text::parse;
use qc_rows::{Form, Odd, Texts, fault_text, tree_text, truth_text};
use qc_schema::{InputFault, SchemaFault, read_input, read_json, read_schema};
use std::alloc::Global;

/// The most bytes that are scanned.
const MOST_BYTES: usize = 65_536;

/// The tree that bytes are read as.
pub fn tree(alloc: Global, texts: &Texts, row: &mut Form) -> Result<String, Odd> {
    let bytes = texts.bytes(alloc, row.member("text")?)?;
    match read_json(alloc, &bytes) {
        Ok(json) => tree_text(alloc, &json),
        Err(InputFault::BadInput) => fault_text(alloc, "BadInput"),
        Err(InputFault::Memory) => Err(Odd::Memory),
    }
}

/// Whether bytes are read as a schema.
pub fn schema(alloc: Global, texts: &Texts, row: &mut Form) -> Result<String, Odd> {
    let bytes = texts.bytes(alloc, row.member("text")?)?;
    match read_schema(alloc, &bytes) {
        Ok(_) => truth_text(alloc, true),
        Err(SchemaFault::BadSchema) => fault_text(alloc, "BadSchema"),
        Err(SchemaFault::Memory) => Err(Odd::Memory),
    }
}

/// The world that bytes are read as, by a schema.
pub fn input(alloc: Global, texts: &Texts, row: &mut Form) -> Result<String, Odd> {
    let schema = texts.bytes(alloc, row.member("schema")?)?;
    let bytes = texts.bytes(alloc, row.member("text")?)?;
    let Ok(schema) = read_schema(alloc, &schema) else {
        return Err(Odd::Form);
    };
    match read_input(alloc, &schema, &bytes) {
        Ok(world) => tree_text(alloc, &enc(alloc, world.whole())?),
        Err(InputFault::BadInput) => fault_text(alloc, "BadInput"),
        Err(InputFault::Memory) => Err(Odd::Memory),
    }
}

/// The name that a text is, and whether it is a user's.
pub fn a_name(alloc: Global, texts: &Texts, row: &mut Form) -> Result<String, Odd> {
    let text = texts.text(alloc, row.member("text")?)?;
    match Name::of(alloc, text.as_str()) {
        Ok(name) => {
            let mut told = Jsons::new(alloc);
            told.add(Json::Text(Chars::of(alloc, name.as_str())?))?;
            told.add(Json::Bool(name.is_user()))?;
            tree_text(alloc, &Json::Array(told))
        }
        Err(NameFault::BadName) => fault_text(alloc, "BadName"),
        Err(NameFault::Memory) => Err(Odd::Memory),
    }
}

/// Whether a text is like a pattern.
pub fn is_like(alloc: Global, texts: &Texts, row: &mut Form) -> Result<String, Odd> {
    let pattern = texts.text(alloc, row.member("pattern")?)?;
    let text = texts.text(alloc, row.member("text")?)?;
    truth_text(alloc, like(pattern.as_str(), text.as_str()))
}

/// The pieces of the tokens that bytes are.
pub fn pieces(alloc: Global, texts: &Texts, row: &mut Form) -> Result<String, Odd> {
    let table = match row.word("table")? {
        "oql" => Table::Oql,
        "sql" => Table::Sql,
        "rule" => Table::Rule,
        _ => return Err(Odd::Form),
    };
    match scan_few(alloc, texts, row, table)? {
        Ok(words) => pieces_of(alloc, &words),
        Err(fault) => scan_fault(alloc, fault),
    }
}

fn pieces_of(alloc: Global, words: &Words) -> Result<String, Odd> {
    let mut all = Jsons::new(alloc);
    for at in 0..words.len() {
        all.add(Json::Text(Chars::of(alloc, words.piece(at))?))?;
    }
    tree_text(alloc, &Json::Array(all))
}

/// Whether a text spells a query of OQL.
pub fn query(alloc: Global, texts: &Texts, row: &mut Form) -> Result<String, Odd> {
    match scan_few(alloc, texts, row, Table::Oql)? {
        Ok(words) => spelled(alloc, &words),
        Err(fault) => scan_fault(alloc, fault),
    }
}

fn spelled(alloc: Global, words: &Words) -> Result<String, Odd> {
    match parse(alloc, words) {
        Ok(_) => truth_text(alloc, true),
        Err(SyntaxFault::BadSyntax { at }) => {
            Ok(format!(in alloc; "fault BadSyntax at token {at}")?)
        }
        Err(SyntaxFault::Memory) => Err(Odd::Memory),
    }
}

// Scans the row's text, which has no more bytes than a scan takes.
fn scan_few(
    alloc: Global,
    texts: &Texts,
    row: &mut Form,
    table: Table,
) -> Result<Result<Words, ScanFault>, Odd> {
    let bytes = texts.bytes(alloc, row.member("text")?)?;
    if bytes.len() > MOST_BYTES {
        return Err(Odd::Form);
    }
    Ok(scan(alloc, &bytes, table))
}

fn scan_fault(alloc: Global, fault: ScanFault) -> Result<String, Odd> {
    match fault {
        ScanFault::BadScan { at } => Ok(format!(in alloc; "fault BadScan at byte {at}")?),
        ScanFault::TooManyTokens => fault_text(alloc, "TooManyTokens"),
        ScanFault::Memory => Err(Odd::Memory),
    }
}
