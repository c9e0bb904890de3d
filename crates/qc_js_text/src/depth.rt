// How deep brackets are open.
ghost use Rattle.std.specs.Prelude.{◌≡◌, ◌<◌, ◌^◌};
ghost use Rattle.qc_js_lex.specs.declared.lexeme.Lexeme.TheVariants.{Fixed};
ghost use Rattle.qc_js_text.specs.inner.Depths as spec;

use qc_js_lex::Lexeme;

// How many brackets are open behind a lexeme.
fn open_behind(count: usize, lexeme: &Lexeme) -> usize
    requires { count < 2 ^ 63 }
    ensures { result ≡ spec.open_behind count lexeme.now }
{
    match lexeme {
        Lexeme::Fixed(place) => open_behind_fixed(count, *place),
        _ => count,
    }
}

// The same behind a word or a mark.
fn open_behind_fixed(count: usize, place: u8) -> usize
    requires { count < 2 ^ 63 }
    ensures { result ≡ spec.open_behind count (Fixed place) }
{
    match place {
        15 | 17 | 19 => count + 1,
        16 | 18 | 20 => count.saturating_sub(1),
        _ => count,
    }
}

/// Whether at most so many brackets are open at once.
pub(crate) fn is_shallow(lexemes: &[Lexeme], most: usize) -> bool
    requires { most < 2 ^ 62 }
    ensures { result ≡ spec.is_shallow most lexemes.now }
{
    let mut count = 0;
    for lexeme in lexemes {
        count = open_behind(count, lexeme);
        if count > most {
            return false;
        }
    }
    true
}
