// Texts against patterns.
ghost use Rattle.std.specs.Prelude.{◌≡◌, ◌∷◌, ◌<◌, ◌≤◌, [], chars, length, IfNone, IfSome};
ghost use Rattle.qc_like.specs.inner.Likeness.{answer_of, passed, IsShorter};
ghost use Rattle.qc_like.specs.Patterns.{is_like};

// How a pattern and a text go on together.
enum Walk<'a> {
    // Both are over.
    Over,
    // The text has other characters.
    Unlike,
    // The pattern has this behind a `%`, and the text has this left.
    Run(&'a str, &'a str),
}

/// Whether the whole text is like the pattern: in it `%` is any run of characters, `_` any one character, and every
/// other character itself. It takes no memory, and looks at most once at each character of the text for each of the
/// pattern, and at none that a last `%` is for.
pub fn like(pattern: &str, text: &str) -> bool
    ensures { result ≡ is_like pattern.now text.now }
{
    let mut pattern = pattern;
    let mut text = text;
    let mut behind_run = false;
    loop {
        match pass(pattern, text) {
            Walk::Over => return true,
            Walk::Run(rest, left) => {
                if rest.is_empty() {
                    return true;
                }
                pattern = rest;
                text = left;
                behind_run = true;
            }
            Walk::Unlike => {
                if !behind_run {
                    return false;
                }
                match first(text) {
                    Some((_, left)) => text = left,
                    None => return false,
                }
            }
        }
    }
}

// Goes over the pattern up to the next `%`, and the text with it.
fn pass<'a>(pattern: &'a str, text: &'a str) -> Walk<'a>
    ensures value { answer_of result ≡ passed (chars pattern.now) (chars text.now) }
    ensures shorter { IsShorter result pattern.now text.now }
{
    let mut pattern = pattern;
    let mut text = text;
    while let Some((p, rest)) = first(pattern) {
        if p == '%' {
            return Walk::Run(rest, text);
        }
        let Some((c, left)) = first(text) else {
            return Walk::Unlike;
        };
        if p != '_' && p != c {
            return Walk::Unlike;
        }
        pattern = rest;
        text = left;
    }
    match first(text) {
        None => Walk::Over,
        Some(_) => Walk::Unlike,
    }
}

// The first character, and what follows it.
fn first(text: &str) -> Option<(char, &str)>
    ensures none { IfNone result (text.now ≡ []) }
    ensures some { IfSome result (λ pair. chars text.now ≡ pair.0 ∷ chars pair.1.now) }
    ensures shorter { IfSome result (λ pair. length pair.1.now < length text.now) }
{
    let mut chars = text.chars();
    match chars.next() {
        Some(c) => Some((c, chars.as_str())),
        None => None,
    }
}
