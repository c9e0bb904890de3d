// What bytes can begin, by the table of the language.
ghost use Rattle.std.specs.Prelude.{◌≡◌, ◌≤◌, ◌∷◌, length, take};
ghost use Rattle.std.specs.List.{prefix_len};
ghost use Rattle.std.specs.Char.{is_ascii_digit};
ghost use Rattle.qc_lex.specs.Class as class;
ghost use Rattle.qc_lex.specs.inner.Steps.{kind_of};

use crate::token::{Kind, Table};

/// Whether the byte is a blank.
pub fn is_blank(byte: u8) -> bool
    ensures { result ≡ class.is_blank byte }
{
    byte == b' ' || byte == b'\t' || byte == b'\r' || byte == b'\n'
}

fn in_word(byte: u8) -> bool
    ensures { result ≡ class.in_word byte }
{
    byte.is_ascii_alphanumeric() || byte == b'_'
}

/// How many letters, digits and underscores the bytes begin with.
pub fn word_length(bytes: &[u8]) -> usize
    ensures count { result ≡ prefix_len class.in_word bytes.now }
    ensures within { result ≤ length bytes.now }
{
    bytes.iter().take_while(|byte| in_word(**byte)).count()
}

/// How many digits the bytes begin with.
pub fn digit_count(bytes: &[u8]) -> usize
    ensures count { result ≡ prefix_len is_ascii_digit bytes.now }
    ensures within { result ≤ length bytes.now }
{
    bytes
        .iter()
        .take_while(|byte| byte.is_ascii_digit())
        .count()
}

fn in_line(byte: u8) -> bool
    ensures { result ≡ class.in_line byte }
{
    byte != b'\n'
}

/// How many bytes come before the next line feed, or before the end.
pub fn line_length(bytes: &[u8]) -> usize
    ensures count { result ≡ prefix_len class.in_line bytes.now }
    ensures within { result ≤ length bytes.now }
{
    bytes.iter().take_while(|byte| in_line(**byte)).count()
}

/// The first bytes, so many of them, or all where there are fewer.
fn front_of(bytes: &[u8], count: usize) -> &[u8]
    ensures { result.now ≡ take count bytes.now }
{
    if count < bytes.len() {
        &bytes[..count]
    } else {
        bytes
    }
}

/// Whether the bytes begin with a comment.
pub fn opens_comment(table: Table, bytes: &[u8]) -> bool
    ensures { result ≡ class.opens_comment table bytes.now }
{
    match table {
        Table::Oql => front_of(bytes, 2) == b"//".as_slice(),
        Table::Sql => front_of(bytes, 2) == b"--".as_slice(),
        Table::Rule => front_of(bytes, 1) == b";".as_slice(),
    }
}

fn quotes_text(table: Table, byte: u8) -> bool
    ensures { result ≡ class.quotes_text table byte }
{
    match table {
        Table::Oql => byte == b'"' || byte == b'\'',
        Table::Sql => byte == b'\'',
        Table::Rule => byte == b'"',
    }
}

fn quotes_name(table: Table, byte: u8) -> bool
    ensures { result ≡ class.quotes_name table byte }
{
    match table {
        Table::Sql => byte == b'"',
        Table::Oql | Table::Rule => false,
    }
}

/// The kind of the tokens that begin with the byte, if any do.
pub fn kind_of(table: Table, byte: u8) -> Kind
    ensures { result ≡ kind_of table byte }
{
    if byte.is_ascii_alphabetic() || byte == b'_' {
        Kind::Word
    } else if byte.is_ascii_digit() {
        Kind::Whole
    } else if quotes_text(table, byte) {
        Kind::Text
    } else if quotes_name(table, byte) {
        Kind::Quoted
    } else {
        Kind::Mark
    }
}

/// Whether the byte is a mark.
pub fn is_mark(table: Table, byte: u8) -> bool
    ensures { result ≡ class.is_mark table byte }
{
    match table {
        Table::Oql => matches!(
            byte,
            b'(' | b')' | b',' | b'.' | b':' | b';' | b'+' | b'-' | b'*' | b'/' | b'=' | b'<' | b'>'
        ),
        Table::Sql => matches!(
            byte,
            b'(' | b')' | b',' | b'.' | b';' | b'+' | b'-' | b'*' | b'/' | b'=' | b'<' | b'>'
        ),
        Table::Rule => matches!(byte, b'(' | b')' | b'-'),
    }
}

/// Whether the bytes are a mark of two bytes.
pub fn is_double(table: Table, pair: &[u8]) -> bool
    ensures { result ≡ class.is_double table pair.now }
{
    match table {
        Table::Oql => pair == b"!=".as_slice()
            || pair == b"<=".as_slice()
            || pair == b">=".as_slice()
            || pair == b"||".as_slice(),
        Table::Sql => pair == b"<>".as_slice()
            || pair == b"<=".as_slice()
            || pair == b">=".as_slice()
            || pair == b"||".as_slice(),
        Table::Rule => false,
    }
}
