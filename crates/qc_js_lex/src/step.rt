// What one byte does to what is begun.

ghost use Rattle.std.specs.Prelude.{◌≡◌, ◌<◌, ◌≤◌, ◌+◌, ◌*◌, ◌↔◌, IsTrue, Some, None, if◌then◌else◌};
ghost use Rattle.std.specs.Char.{is_digit, digit_value};
ghost use Rattle.qc_js_lex.specs.declared.step.Mode.TheVariants.{Minus, Hex0, Hex1, Hex2, Hex3};
ghost use Rattle.qc_js.specs.Spelling.{is_mark};
ghost use Rattle.qc_js_lex.specs.inner.Machine.{start, next, in_string, in_escape, grown, shifted, fit, unit_of, put};
ghost use Rattle.qc_js_lex.specs.inner.Machine.{lone, paired, in_digits, in_comment, ends_word};

/// What is begun.
#[derive(Clone, Copy, Debug)]
pub(crate) enum Mode {
    Between,
    Word,
    Minus,
    Zero,
    Digits(bool, i64),
    Text,
    Escape,
    /// In `\u`, after a high surrogate or 0, and some digits.
    Hex0(u32),
    Hex1(u32, u8),
    Hex2(u32, u8, u8),
    Hex3(u32, u8, u8, u8),
    High(u32),
    HighEscape(u32),
    Slash,
    Comment,
    CommentE2,
    CommentE280,
}

/// What to do with a byte.
#[derive(Clone, Copy, Debug)]
pub(crate) enum Act {
    Stay(Mode),
    Keep(Mode),
    Put(char),
    Begin(Mode),
    BeginKeep(Mode),
    Number(i64),
    EndText,
    Mark,
    Skip,
    Bad,
    BadHere,
}

fn is_mark(b: u8) -> bool
    ensures { result ≡ is_mark b }
{
    b == b'('
        || b == b')'
        || b == b'{'
        || b == b'}'
        || b == b'['
        || b == b']'
        || b == b','
        || b == b';'
        || b == b'.'
        || b == b'='
}

pub(crate) fn start(b: u8) -> Act
    ensures { result ≡ start b }
{
    if b == b' ' || b == b'\t' || b == b'\r' || b == b'\n' {
        Act::Skip
    } else if b.is_ascii_alphabetic() {
        Act::BeginKeep(Mode::Word)
    } else if b == b'-' {
        Act::Begin(Mode::Minus)
    } else if b == b'0' {
        Act::Begin(Mode::Zero)
    } else if b.is_ascii_digit() {
        Act::Begin(Mode::Digits(false, i64::from(b - b'0')))
    } else if b == b'"' {
        Act::Begin(Mode::Text)
    } else if b == b'/' {
        Act::Begin(Mode::Slash)
    } else if is_mark(b) {
        Act::Mark
    } else {
        Act::BadHere
    }
}

fn grown(negative: bool, z: i64, d: u8) -> Option<i64>
    requires { d < 10 }
    ensures { result ≡ grown negative z d }
{
    fit(shifted(negative, z, d))
}

fn shifted(negative: bool, z: i64, d: u8) -> i128
    requires { d < 10 }
    ensures { result ≡ shifted negative z d }
{
    if negative {
        i128::from(z) * 10 - i128::from(d)
    } else {
        i128::from(z) * 10 + i128::from(d)
    }
}

fn fit(z: i128) -> Option<i64>
    ensures { result ≡ fit z }
{
    if z < -9223372036854775808 || z > 9223372036854775807 {
        return None;
    }
    Some(z as i64)
}

fn in_digits(negative: bool, z: i64, b: u8) -> Act
    ensures { result ≡ in_digits negative z b }
{
    if b.is_ascii_digit() {
        match grown(negative, z, b - b'0') {
            Some(more) => Act::Stay(Mode::Digits(negative, more)),
            None => Act::Bad,
        }
    } else if b == b'n' {
        Act::Number(z)
    } else {
        Act::Bad
    }
}

fn digit(b: u8) -> Option<u8>
    ensures { result ≡ (if is_digit b 16 then Some (digit_value b) else None) }
{
    match b {
        b'0'..=b'9' => Some(b - b'0'),
        b'a'..=b'f' => Some(b - b'a' + 10),
        b'A'..=b'F' => Some(b - b'A' + 10),
        _ => None,
    }
}

fn unit_of(a: u8, b: u8, c: u8, d: u8) -> u32
    ensures { result ≡ unit_of a b c d }
{
    u32::from(a) * 4096 + u32::from(b) * 256 + u32::from(c) * 16 + u32::from(d)
}

fn put(c: u32) -> Act
    ensures { result ≡ put c }
{
    match char::from_u32(c) {
        Some(c) => Act::Put(c),
        None => Act::Bad,
    }
}

fn lone(u: u32) -> Act
    ensures { result ≡ lone u }
{
    if u >= 0xd800 && u < 0xdc00 {
        Act::Stay(Mode::High(u))
    } else {
        put(u)
    }
}

fn paired(h: u32, u: u32) -> Act
    ensures { result ≡ paired h u }
{
    if h >= 0xd800 && h < 0xdc00 && u >= 0xdc00 && u < 0xe000 {
        put(0x10000 + (h - 0xd800) * 1024 + (u - 0xdc00))
    } else {
        Act::Bad
    }
}

fn in_string(b: u8) -> Act
    ensures { result ≡ in_string b }
{
    match b {
        b'"' => Act::EndText,
        b'\\' => Act::Stay(Mode::Escape),
        0..=31 => Act::Bad,
        _ => Act::Keep(Mode::Text),
    }
}

fn in_escape(b: u8) -> Act
    ensures { result ≡ in_escape b }
{
    match b {
        b'u' => Act::Stay(Mode::Hex0(0)),
        b'"' => Act::Put('"'),
        b'\\' => Act::Put('\\'),
        b'b' => Act::Put('\u{8}'),
        b'f' => Act::Put('\u{c}'),
        b'n' => Act::Put('\n'),
        b'r' => Act::Put('\r'),
        b't' => Act::Put('\t'),
        _ => Act::Bad,
    }
}

fn in_comment(b: u8) -> Act
    ensures { result ≡ in_comment b }
{
    if b == b'\n' || b == b'\r' {
        Act::Skip
    } else if b == 0xe2 {
        Act::Begin(Mode::CommentE2)
    } else {
        Act::Stay(Mode::Comment)
    }
}

pub(crate) fn ends_word(m: Mode, b: u8) -> bool
    ensures { result ≡ ends_word m b }
{
    match m {
        Mode::Word => !b.is_ascii_alphanumeric(),
        _ => false,
    }
}

fn hex0(h: u32, b: u8) -> Act
    ensures { result ≡ next (Hex0 h) b }
{
    match digit(b) {
        Some(d) => Act::Stay(Mode::Hex1(h, d)),
        None => Act::Bad,
    }
}

fn hex1(h: u32, d: u8, b: u8) -> Act
    ensures { result ≡ next (Hex1 h d) b }
{
    match digit(b) {
        Some(e) => Act::Stay(Mode::Hex2(h, d, e)),
        None => Act::Bad,
    }
}

fn hex2(h: u32, d: u8, e: u8, b: u8) -> Act
    ensures { result ≡ next (Hex2 h d e) b }
{
    match digit(b) {
        Some(f) => Act::Stay(Mode::Hex3(h, d, e, f)),
        None => Act::Bad,
    }
}

fn hex3(h: u32, d: u8, e: u8, f: u8, b: u8) -> Act
    ensures { result ≡ next (Hex3 h d e f) b }
{
    match digit(b) {
        Some(g) => {
            let u = unit_of(d, e, f, g);
            if h == 0 { lone(u) } else { paired(h, u) }
        }
        None => Act::Bad,
    }
}

fn in_minus(b: u8) -> Act
    ensures { result ≡ next Minus b }
{
    if b == b'0' {
        Act::Stay(Mode::Zero)
    } else if b.is_ascii_digit() {
        Act::Stay(Mode::Digits(true, -i64::from(b - b'0')))
    } else {
        Act::Bad
    }
}

/// What `b` does where a token is begun, and goes on.
pub(crate) fn next(m: Mode, b: u8) -> Act
    ensures { result ≡ next m b }
{
    match m {
        Mode::Between => start(b),
        Mode::Word => Act::Keep(Mode::Word),
        Mode::Minus => in_minus(b),
        Mode::Zero => if b == b'n' { Act::Number(0) } else { Act::Bad },
        Mode::Digits(negative, z) => in_digits(negative, z, b),
        Mode::Text => in_string(b),
        Mode::Escape => in_escape(b),
        Mode::Hex0(h) => hex0(h, b),
        Mode::Hex1(h, d) => hex1(h, d, b),
        Mode::Hex2(h, d, e) => hex2(h, d, e, b),
        Mode::Hex3(h, d, e, f) => hex3(h, d, e, f, b),
        Mode::High(h) => if b == b'\\' {
            Act::Stay(Mode::HighEscape(h))
        } else {
            Act::Bad
        },
        Mode::HighEscape(h) => if b == b'u' {
            Act::Stay(Mode::Hex0(h))
        } else {
            Act::Bad
        },
        Mode::Slash => if b == b'/' {
            Act::Stay(Mode::Comment)
        } else {
            Act::Bad
        },
        Mode::Comment => in_comment(b),
        Mode::CommentE2 => if b == 0x80 {
            Act::Stay(Mode::CommentE280)
        } else {
            in_comment(b)
        },
        Mode::CommentE280 => if b == 0xa8 || b == 0xa9 {
            Act::Bad
        } else {
            in_comment(b)
        },
    }
}
