// Actions that put the token before on the stack.
ghost use Rattle.std.specs.Prelude.{◌≡◌, pred, OnOk};
ghost use Rattle.qc_lex.specs.Words.{lexemes};
ghost use Rattle.qc_oql_tree.specs.Lexemes.{lexeme};
ghost use Rattle.qc_oql_table.specs.Actions as spec;

use crate::stack::{take_mark, take_tree};
use qc_containers::{Boxed, Memory};
use qc_grammar::Stack;
use qc_lex::Words;
use qc_oql_table::{Mark, Value, Word};
use qc_oql_tree::operators::constant_of;
use qc_oql_tree::{Lexeme, Oql};
use std::alloc::Global;

/// The last of the first tokens, of which there are so many.
fn before(words: &Words, count: u32) -> Lexeme<'_>
    ensures token { lexeme result ≡ spec.token (lexemes words.now) count }
    ensures place { result.at ≡ pred count }
{
    Lexeme {
        words,
        at: count.saturating_sub(1),
    }
}

/// Its place and its kind.
pub(crate) fn mark(words: &Words, count: u32, stack: &mut Stack<Value>) -> Result<(), Memory>
    ensures { OnOk result (stack.new ≡ spec.mark (lexemes words.now) count stack.old) }
{
    let token = before(words, count);
    stack.push(Value::Mark(Mark {
        at: token.at,
        kind: token.kind(),
    }))
}

/// Its text, with its place.
pub(crate) fn name(
    alloc: Global,
    words: &Words,
    count: u32,
    stack: &mut Stack<Value>,
) -> Result<(), Memory>
    ensures { OnOk result (stack.new ≡ spec.name (lexemes words.now) count stack.old) }
{
    let token = before(words, count);
    let text = token.text(alloc)?;
    stack.push(Value::Name(Word { at: token.at, text }))
}

/// The literal by which a value is divided.
pub(crate) fn positive(words: &Words, count: u32, stack: &mut Stack<Value>) -> Result<(), Memory>
    ensures { OnOk result (stack.new ≡ spec.positive (lexemes words.now) count stack.old) }
{
    stack.push(Value::Divisor(before(words, count).whole()))
}

/// The same with a sign.
pub(crate) fn negative(words: &Words, count: u32, stack: &mut Stack<Value>) -> Result<(), Memory>
    ensures { OnOk result (stack.new ≡ spec.negative (lexemes words.now) count stack.old) }
{
    let whole = before(words, count).whole();
    stack.push(Value::Divisor(-whole))
}

/// A whole number.
pub(crate) fn whole(words: &Words, count: u32, stack: &mut Stack<Value>) -> Result<(), Memory>
    ensures { OnOk result (stack.new ≡ spec.whole (lexemes words.now) count stack.old) }
{
    let token = before(words, count);
    stack.push(Value::Tree(Oql::Whole(token.at, token.whole())))
}

/// A text.
pub(crate) fn text(
    alloc: Global,
    words: &Words,
    count: u32,
    stack: &mut Stack<Value>,
) -> Result<(), Memory>
    ensures { OnOk result (stack.new ≡ spec.text (lexemes words.now) count stack.old) }
{
    let token = before(words, count);
    let content = token.content(alloc)?;
    stack.push(Value::Tree(Oql::Text(token.at, content)))
}

/// `true`, `false` or `nil`
pub(crate) fn constant(words: &Words, count: u32, stack: &mut Stack<Value>) -> Result<(), Memory>
    ensures { OnOk result (stack.new ≡ spec.constant (lexemes words.now) count stack.old) }
{
    let token = before(words, count);
    stack.push(Value::Tree(Oql::Constant(token.at, constant_of(token.kind()))))
}

/// A name.
pub(crate) fn variable(
    alloc: Global,
    words: &Words,
    count: u32,
    stack: &mut Stack<Value>,
) -> Result<(), Memory>
    ensures { OnOk result (stack.new ≡ spec.variable (lexemes words.now) count stack.old) }
{
    let token = before(words, count);
    let text = token.text(alloc)?;
    stack.push(Value::Tree(Oql::Name(token.at, text)))
}

/// `value.label`
pub(crate) fn dot(
    alloc: Global,
    words: &Words,
    count: u32,
    stack: &mut Stack<Value>,
) -> Result<(), Memory>
    ensures { OnOk result (stack.new ≡ spec.dot (lexemes words.now) count stack.old) }
{
    let of = Boxed::of(alloc, take_tree(stack))?;
    let token = before(words, count);
    let label = token.text(alloc)?;
    stack.push(Value::Tree(Oql::Dot(token.at, of, label)))
}

/// `value like text`
pub(crate) fn like(
    alloc: Global,
    words: &Words,
    count: u32,
    stack: &mut Stack<Value>,
) -> Result<(), Memory>
    ensures { OnOk result (stack.new ≡ spec.like (lexemes words.now) count stack.old) }
{
    let mark = take_mark(stack);
    let of = Boxed::of(alloc, take_tree(stack))?;
    let pattern = before(words, count).content(alloc)?;
    stack.push(Value::Tree(Oql::Like(mark.at, of, pattern)))
}
