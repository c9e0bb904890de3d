// The words of a call.
use crate::steps::Steps;
use qc_io::MemShelf;
use qc_rows::{Form, Odd, Texts, items};
use std::alloc::Global;
use std::rc::RcStr;

/// Adds the words of the row's call. Those of the short form, an action on a query, come with their files; where the
/// action is `run`, the result is how to have the answer in two steps.
pub fn add_words(
    alloc: Global,
    texts: &Texts,
    row: &mut Form,
    words: &mut Vec<RcStr>,
    shelf: &mut MemShelf,
) -> Result<Option<Steps>, Odd> {
    let Some(given) = row.maybe("words") else {
        return add_short(alloc, texts, row, words, shelf);
    };
    for word in items(given)? {
        words.push(RcStr::from_string(texts.text(alloc, word)?)?)?;
    }
    Ok(None)
}

fn add_short(
    alloc: Global,
    texts: &Texts,
    row: &mut Form,
    words: &mut Vec<RcStr>,
    shelf: &mut MemShelf,
) -> Result<Option<Steps>, Odd> {
    let action = row.word("action")?;
    let mut steps = Steps::new(alloc)?;
    push(alloc, words, &["qcert", action, "--source", "oql"])?;
    for (member, option) in [
        ("query", "--query"),
        ("schema", "--schema"),
        ("input", "--input"),
    ] {
        if let Some(text) = row.maybe(member) {
            let bytes = texts.bytes(alloc, text)?;
            shelf.add(member, &bytes)?;
            push(alloc, words, &[option, member])?;
            push(alloc, steps.with(member), &[option, member])?;
        }
    }
    Ok(if action == "run" { Some(steps) } else { None })
}

/// Puts the words behind the others.
pub fn push(alloc: Global, words: &mut Vec<RcStr>, more: &[&str]) -> Result<(), Odd> {
    for word in more {
        words.push(RcStr::from_str(alloc, word)?)?;
    }
    Ok(())
}
