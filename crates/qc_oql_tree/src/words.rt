// The words and marks of the language, and which kind of token each is.
ghost use Rattle.std.specs.Prelude.{◌≡◌, map};
ghost use Rattle.qc_oql_tree.specs.TokenKinds as kinds;
ghost use Rattle.qc_oql_tree.specs.Lexemes as spec;

use crate::kinds::{
    ABS, ALL, AND, AS, ASC, AT_LEAST, AT_MOST, AVG, BAG, BRAND, BY, CAST, CLOSE, COLON, COMMA,
    COUNT, DEFINE, DESC, DISTINCT, DIVIDE, DOT, ELEMENT, ELSE, EQUAL, EXCEPT, EXISTS, FALSE,
    FLATTEN, FOR, FROM, GLUE, GREATER, GREATEST, IF, IN, INTERSECT, LEAST, LEFT, LESS, LIKE, MATCH,
    MAX, MIN, MINUS, MOD, NAME, NIL, NOT, NOT_EQUAL, OPEN, OR, ORDER, ORELSE, OTHER, PLUS, RIGHT,
    SELECT, SEMICOLON, STRUCT, SUM, THEN, TIMES, TRUE, UNBRAND, UNION, WHERE,
};

/// The words that the language reserves, each with its kind.
const WORDS: &[(&str, u32)] = &[
    ("define", DEFINE),
    ("as", AS),
    ("select", SELECT),
    ("distinct", DISTINCT),
    ("from", FROM),
    ("where", WHERE),
    ("order", ORDER),
    ("by", BY),
    ("in", IN),
    ("asc", ASC),
    ("desc", DESC),
    ("if", IF),
    ("then", THEN),
    ("else", ELSE),
    ("exists", EXISTS),
    ("for", FOR),
    ("all", ALL),
    ("true", TRUE),
    ("false", FALSE),
    ("nil", NIL),
    ("struct", STRUCT),
    ("bag", BAG),
    ("match", MATCH),
    ("cast", CAST),
    ("brand", BRAND),
    ("or", OR),
    ("and", AND),
    ("not", NOT),
    ("like", LIKE),
    ("union", UNION),
    ("except", EXCEPT),
    ("intersect", INTERSECT),
    ("mod", MOD),
    ("count", COUNT),
    ("sum", SUM),
    ("min", MIN),
    ("max", MAX),
    ("avg", AVG),
    ("element", ELEMENT),
    ("flatten", FLATTEN),
    ("abs", ABS),
    ("left", LEFT),
    ("right", RIGHT),
    ("unbrand", UNBRAND),
    ("orelse", ORELSE),
    ("least", LEAST),
    ("greatest", GREATEST),
];

/// The marks, each with its kind.
const MARKS: &[(&str, u32)] = &[
    ("+", PLUS),
    ("-", MINUS),
    ("*", TIMES),
    ("/", DIVIDE),
    ("=", EQUAL),
    ("!=", NOT_EQUAL),
    ("<", LESS),
    ("<=", AT_MOST),
    (">", GREATER),
    (">=", AT_LEAST),
    ("||", GLUE),
    ("(", OPEN),
    (")", CLOSE),
    (",", COMMA),
    (".", DOT),
    (":", COLON),
    (";", SEMICOLON),
];

/// The kind of a word: its own where the language reserves it, or else a name's.
pub(crate) fn word_kind(piece: &str) -> u32
    ensures { result ≡ spec.kind_in spec.words kinds.NAME piece.now }
{
    kind_in(WORDS, NAME, piece)
}

/// The kind of a mark, or the other kind where the language has not the mark.
pub(crate) fn mark_kind(piece: &str) -> u32
    ensures { result ≡ spec.kind_in spec.marks kinds.OTHER piece.now }
{
    kind_in(MARKS, OTHER, piece)
}

/// The kind beside a piece in a table, or another where it isn't there.
fn kind_in(table: &[(&str, u32)], other: u32, piece: &str) -> u32
    ensures { result ≡ spec.kind_in (map (λ entry. (entry.0.now, entry.1)) table.now) other piece.now }
{
    for (text, kind) in table {
        if piece == *text {
            return *kind;
        }
    }
    other
}
