// A query as far as a stage, and its outcome there.
ghost use Rattle.std.specs.Prelude.{◌≤◌, ◌^◌, length, IfOk, IsTrue};
ghost use Rattle.qc_nnrc.specs.Free.{IsClosed};
ghost use Rattle.qc_nnrc.specs.Sizes as calculus;
ghost use Rattle.qc_nnrs.specs.Sizes as statements;
ghost use Rattle.qc_nnrs.specs.WellFormed.{well_formed};
ghost use Rattle.qc_nra.specs.Sizes.{size};

use qc_containers::Memory;
use qc_data::Json;
use qc_io::MemSink;
use qc_js::emit;
use qc_js_run::Script;
use qc_lang::{Lang, Pass};
use qc_lex::Table;
use qc_lower::NraToNnrc;
use qc_nnrc::Nnrc;
use qc_nnrs::Nnrs;
use qc_nra::Nra;
use qc_oql::read;
use qc_rows::{
    Answers, Compared, Form, Odd, Texts, fault_text, outcome_tree, schema, word_tree, world,
};
use qc_source::{QueryFault, tokens_of};
use qc_to_imp::NnrsToImp;
use qc_to_js::to_js;
use qc_to_nnrs::NnrcToNnrs;
use qc_to_nra::OqlToNra;
use qc_types::Schema;
use std::alloc::Global;

/// The most bytes of a query.
const MOST_BYTES: usize = 65_536;

/// The most bytes of a script.
const ROOM: usize = 1_048_576;

// A stage of the pipeline, by its language.
#[derive(Drop)]
enum Stage {
    Algebra,
    Calculus,
    Statements,
    Programs,
    Scripts,
}

/// The row's query as far as the row's stage, of which each call that the row names is made; or why there is none.
pub fn tried(alloc: Global, texts: &Texts, row: &mut Form) -> Result<Compared, Odd> {
    let stage = stage_of(row.word("stage")?)?;
    let schema = schema(alloc, texts, row)?;
    in_schema(alloc, texts, row, &schema, stage)
}

// The stage of the name.
fn stage_of(name: &str) -> Result<Stage, Odd> {
    match name {
        "nraenv" => Ok(Stage::Algebra),
        "nnrc" => Ok(Stage::Calculus),
        "nnrs" => Ok(Stage::Statements),
        "imp" => Ok(Stage::Programs),
        "js" => Ok(Stage::Scripts),
        _ => Err(Odd::Form),
    }
}

// The same in a schema.
fn in_schema(
    alloc: Global,
    texts: &Texts,
    row: &mut Form,
    schema: &Schema,
    stage: Stage,
) -> Result<Compared, Odd> {
    let globals = row.maybe("input");
    match translated(alloc, texts, row, schema)? {
        Ok(tree) => at_stage(alloc, schema, globals, row, stage, tree),
        Err(fault) => faulty(alloc, texts, row, fault),
    }
}

// The tree of the row's query, or why there is none.
fn translated(
    alloc: Global,
    texts: &Texts,
    row: &mut Form,
    schema: &Schema,
) -> Result<Result<Nra, QueryFault>, Odd>
    ensures { IfOk result (λ read. IfOk read (λ tree. size tree ≤ 2 ^ 80)) }
{
    let bytes = texts.bytes(alloc, row.member("query")?)?;
    if bytes.len() > MOST_BYTES {
        return Err(Odd::Form);
    }
    Ok(tree_of(alloc, schema, &bytes))
}

// The fault that came beside the one that the row wants.
fn faulty(
    alloc: Global,
    texts: &Texts,
    row: &mut Form,
    fault: QueryFault,
) -> Result<Compared, Odd> {
    let told = told(alloc, fault)?;
    Compared::of(alloc, texts, row, told.as_str())
}

// The query's tree of the algebra.
fn tree_of(alloc: Global, schema: &Schema, bytes: &[u8]) -> Result<Nra, QueryFault>
    requires { length bytes.now ≤ 65536 }
    ensures { IfOk result (λ tree. size tree ≤ 2 ^ 80) }
{
    let words = tokens_of(alloc, Table::Oql, bytes)?;
    let typed = read(alloc, schema, &words)?;
    match OqlToNra.pass(alloc, schema, typed) {
        Ok(tree) => Ok(tree),
        Err(Memory) => Err(QueryFault::Memory),
    }
}

// What the row wants of the calls on the stage's tree for one of the algebra, and what they give.
fn at_stage(
    alloc: Global,
    schema: &Schema,
    globals: Option<&Json>,
    row: &mut Form,
    stage: Stage,
    tree: Nra,
) -> Result<Compared, Odd>
    requires { size tree ≤ 2 ^ 80 }
{
    match stage {
        Stage::Algebra => in_algebra(alloc, schema, globals, row, &tree),
        Stage::Calculus => in_calculus(alloc, schema, globals, row, tree),
        Stage::Statements => in_statements(alloc, schema, globals, row, tree),
        Stage::Programs => in_programs(alloc, schema, globals, row, tree),
        Stage::Scripts => in_scripts(alloc, schema, globals, row, tree),
    }
}

// The same at the stage of the algebra.
fn in_algebra(
    alloc: Global,
    schema: &Schema,
    globals: Option<&Json>,
    row: &mut Form,
    tree: &Nra,
) -> Result<Compared, Odd> {
    let text = qc_nra::spell(alloc, tree)?;
    answered(alloc, schema, globals, row, tree, text.as_str())
}

// The same at the stage of the calculus.
fn in_calculus(
    alloc: Global,
    schema: &Schema,
    globals: Option<&Json>,
    row: &mut Form,
    tree: Nra,
) -> Result<Compared, Odd>
    requires { size tree ≤ 2 ^ 80 }
{
    let tree = calculus_of(alloc, schema, tree)?;
    let text = qc_nnrc::spell(alloc, &tree)?;
    answered(alloc, schema, globals, row, &tree, text.as_str())
}

// The same at the stage of statements.
fn in_statements(
    alloc: Global,
    schema: &Schema,
    globals: Option<&Json>,
    row: &mut Form,
    tree: Nra,
) -> Result<Compared, Odd>
    requires { size tree ≤ 2 ^ 80 }
{
    let tree = statements_of(alloc, schema, tree)?;
    let text = qc_nnrs::spell(alloc, &tree)?;
    answered(alloc, schema, globals, row, &tree, text.as_str())
}

// The same at the stage of imperative programs.
fn in_programs(
    alloc: Global,
    schema: &Schema,
    globals: Option<&Json>,
    row: &mut Form,
    tree: Nra,
) -> Result<Compared, Odd>
    requires { size tree ≤ 2 ^ 80 }
{
    let tree = statements_of(alloc, schema, tree)?;
    let tree = NnrsToImp.pass(alloc, schema, tree)?;
    let text = qc_imp::spell(alloc, &tree)?;
    answered(alloc, schema, globals, row, &tree, text.as_str())
}

// The same at the stage of programs on JSON.
fn in_scripts(
    alloc: Global,
    schema: &Schema,
    globals: Option<&Json>,
    row: &mut Form,
    tree: Nra,
) -> Result<Compared, Odd>
    requires { size tree ≤ 2 ^ 80 }
{
    let tree = statements_of(alloc, schema, tree)?;
    let tree = NnrsToImp.pass(alloc, schema, tree)?;
    let js = to_js(alloc, schema, &tree)?;
    let mut out = MemSink::new(alloc, ROOM)?;
    if emit(&js, &mut out).is_err() {
        return Err(Odd::Form);
    }
    match str::from_utf8(out.written()) {
        Ok(text) => answered(alloc, schema, globals, row, &Script::of(js), text),
        Err(_) => Err(Odd::Form),
    }
}

// The tree of the calculus for one of the algebra.
fn calculus_of(alloc: Global, schema: &Schema, tree: Nra) -> Result<Nnrc, Memory>
    requires { size tree ≤ 2 ^ 80 }
    ensures closed { IfOk result (λ made. IsClosed made) }
    ensures small { IfOk result (λ made. calculus.size made ≤ 2 ^ 90) }
{
    NraToNnrc.pass(alloc, schema, tree)
}

// The program of statements for a tree of the algebra.
fn statements_of(alloc: Global, schema: &Schema, tree: Nra) -> Result<Nnrs, Memory>
    requires { size tree ≤ 2 ^ 80 }
    ensures good { IfOk result (λ made. IsTrue (well_formed made)) }
    ensures small { IfOk result (λ made. statements.size made ≤ 2 ^ 100) }
{
    let tree = calculus_of(alloc, schema, tree)?;
    NnrcToNnrs.pass(alloc, schema, tree)
}

// The same of a tree with its written form.
fn answered<T: Lang>(
    alloc: Global,
    schema: &Schema,
    globals: Option<&Json>,
    row: &mut Form,
    tree: &T,
    text: &str,
) -> Result<Compared, Odd> {
    let mut answers = Answers::of(alloc, row)?;
    if answers.asks("spell") {
        answers.add(alloc, "spell", word_tree(alloc, text)?)?;
    }
    evaluated(alloc, schema, globals, tree, &mut answers)?;
    answers.compared(alloc)
}

// The tree's outcome in the row's world.
fn evaluated<T: Lang>(
    alloc: Global,
    schema: &Schema,
    globals: Option<&Json>,
    tree: &T,
    answers: &mut Answers,
) -> Result<(), Odd> {
    if !answers.asks("eval") {
        return Ok(());
    }
    let world = world(alloc, schema, globals)?;
    let outcome = outcome_tree(alloc, tree.eval(alloc, &world))?;
    answers.add(alloc, "eval", outcome)
}

// The text that tells why there is no query.
fn told(alloc: Global, fault: QueryFault) -> Result<String, Odd> {
    match fault {
        QueryFault::BadScan { at } => Ok(format!(in alloc; "fault BadScan at byte {at}")?),
        QueryFault::TooManyTokens => fault_text(alloc, "TooManyTokens"),
        QueryFault::BadSyntax { at } => Ok(format!(in alloc; "fault BadSyntax at token {at}")?),
        QueryFault::BadType { at } => Ok(format!(in alloc; "fault BadType at token {at}")?),
        QueryFault::Memory => Err(Odd::Memory),
    }
}
