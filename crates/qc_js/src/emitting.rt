// The text of a program, put piece by piece. After a failed put nothing more is put: `ok` says that none has failed.
ghost use Rattle.std.specs.Prelude.{◌≡◌, ◌++◌, ◌/◌, ◌%◌, codes, map, decimal, true, OnOk, OnErr, [], ◌∷◌, ◌<◌, ◌≤◌};
ghost use Rattle.std.specs.Char.{digit_char};
ghost use Rattle.std.specs.Fmt.{signed_decimal};
ghost use Rattle.std.specs.Io.KnownBytes.{append_known};
ghost use Rattle.qc_io.specs.Device.{AppendsFront, Rose};
ghost use Rattle.qc_js.specs.inner.Adding.{Adds};
ghost use Rattle.qc_js.specs.Tokens.{variable};
ghost use Rattle.qc_rt.specs.Table.{word_of};
ghost use Rattle.qc_js.specs.Layout.{escaped, escaped_byte, layout};
ghost use Rattle.qc_js.specs.Spelling.{Spells};
ghost use Rattle.qc_js.specs.inner.Text.{expr_text, parts, array_text, call_text, stmt_text, lines, block_text};
ghost use Rattle.qc_js.specs.inner.Text.{let_text, set_text, const_text, push_text, collect_text, for_text, if_head};
ghost use Rattle.qc_js.specs.inner.Text.{comma_unless, program_text};

use crate::checked::Js;
use crate::facts::held;
use crate::tree::{Expr, Program, Stmt};
use itoa::Buffer;
use qc_containers::List;
use qc_io::{Failed, Sink};
use qc_rt::Rt;

fn put<O: Sink>(out: &mut O, ok: bool, piece: &str) -> bool
    ensures { Adds ok result (O.written out.old) (O.written out.new) (O.faults out.old) (O.faults out.new) piece.now }
{
    if !ok {
        return false;
    }
    match out.put(piece.as_bytes()) {
        Ok(()) => true,
        Err(_) => false,
    }
}

fn put_whole<O: Sink>(out: &mut O, ok: bool, n: u128) -> bool
    ensures { Adds ok result (O.written out.old) (O.written out.new) (O.faults out.old) (O.faults out.new) (decimal n) }
{
    let mut buffer = Buffer::new();
    put(out, ok, buffer.format(n))
}

fn put_signed<O: Sink>(out: &mut O, ok: bool, n: i64) -> bool
    ensures { Adds ok result (O.written out.old) (O.written out.new) (O.faults out.old) (O.faults out.new)
        (signed_decimal n) }
{
    let mut buffer = Buffer::new();
    put(out, ok, buffer.format(n))
}

fn put_variable<O: Sink>(out: &mut O, ok: bool, n: u128) -> bool
    ensures { Adds ok result (O.written out.old) (O.written out.new) (O.faults out.old) (O.faults out.new)
        (variable n) }
{
    let ok = put(out, ok, "v");
    put_whole(out, ok, n)
}

#[tactic(auto, using(crate::proofs::Fronts::adds_then))]
fn put_integer<O: Sink>(out: &mut O, ok: bool, n: i64) -> bool
    ensures { Adds ok result (O.written out.old) (O.written out.new) (O.faults out.old) (O.faults out.new)
        (signed_decimal n ++ codes "n") }
{
    let ok = put_signed(out, ok, n);
    put(out, ok, "n")
}

#[cycle(emit)]
fn emit_expr<O: Sink>(out: &mut O, ok: bool, e: &Expr) -> bool
    ensures { Adds ok result (O.written out.old) (O.written out.new) (O.faults out.old) (O.faults out.new)
        (expr_text e.now) }
{
    match e {
        Expr::Var(n) => put_variable(out, ok, *n),
        Expr::World => put(out, ok, "w"),
        Expr::True => put(out, ok, "true"),
        Expr::False => put(out, ok, "false"),
        Expr::Null => put(out, ok, "null"),
        Expr::Int(n) => put_integer(out, ok, *n),
        Expr::Text(text) => put_text(out, ok, text.as_str()),
        Expr::Array(items) => emit_array(out, ok, items),
        Expr::Call(f, items) => emit_call(out, ok, *f, items),
    }
}

#[cycle(emit)]
fn emit_array<O: Sink>(out: &mut O, ok: bool, items: &List<Expr>) -> bool
    ensures { Adds ok result (O.written out.old) (O.written out.new) (O.faults out.old) (O.faults out.new)
        (array_text (map expr_text items.now)) }
{
    let ok = put(out, ok, "[");
    let ok = emit_items(out, ok, items);
    put(out, ok, "]")
}

#[cycle(emit)]
fn emit_call<O: Sink>(out: &mut O, ok: bool, f: Rt, items: &List<Expr>) -> bool
    ensures { Adds ok result (O.written out.old) (O.written out.new) (O.faults out.old) (O.faults out.new)
        (call_text f (map expr_text items.now)) }
{
    let ok = put(out, ok, "rt.");
    let ok = put(out, ok, f.word());
    let ok = put(out, ok, "(");
    let ok = emit_items(out, ok, items);
    put(out, ok, ")")
}

fn put_comma<O: Sink>(out: &mut O, ok: bool, first: bool) -> bool
    ensures { Adds ok result (O.written out.old) (O.written out.new) (O.faults out.old) (O.faults out.new)
        (comma_unless first) }
{
    if first { ok } else { put(out, ok, ", ") }
}

#[cycle(emit)]
fn emit_items<O: Sink>(out: &mut O, ok: bool, items: &List<Expr>) -> bool
    ensures { Adds ok result (O.written out.old) (O.written out.new) (O.faults out.old) (O.faults out.new)
        (parts (map expr_text items.now)) }
{
    let mut ok = ok;
    for (i, item) in items.as_slice().iter().enumerate() {
        ok = put_comma(out, ok, i == 0);
        ok = emit_expr(out, ok, item);
    }
    ok
}

fn put_text<O: Sink>(out: &mut O, ok: bool, text: &str) -> bool
    ensures { Adds ok result (O.written out.old) (O.written out.new) (O.faults out.old) (O.faults out.new)
        (codes "\"" ++ (escaped text.now ++ codes "\"")) }
{
    let ok = put(out, ok, "\"");
    let ok = put_escaped(out, ok, text);
    put(out, ok, "\"")
}

fn put_escaped<O: Sink>(out: &mut O, ok: bool, text: &str) -> bool
    ensures { Adds ok result (O.written out.old) (O.written out.new) (O.faults out.old) (O.faults out.new)
        (escaped text.now) }
{
    let mut ok = ok;
    for b in text.as_bytes() {
        ok = put_byte(out, ok, *b);
    }
    ok
}

fn put_byte<O: Sink>(out: &mut O, ok: bool, b: u8) -> bool
    ensures { Adds ok result (O.written out.old) (O.written out.new) (O.faults out.old) (O.faults out.new)
        (escaped_byte b) }
{
    match b {
        b'"' => put(out, ok, "\\\""),
        b'\\' => put(out, ok, "\\\\"),
        0x20..=0xff => put_raw(out, ok, b),
        0x08 => put(out, ok, "\\b"),
        0x0c => put(out, ok, "\\f"),
        b'\n' => put(out, ok, "\\n"),
        b'\r' => put(out, ok, "\\r"),
        b'\t' => put(out, ok, "\\t"),
        _ => put_control(out, ok, b),
    }
}

fn put_control<O: Sink>(out: &mut O, ok: bool, b: u8) -> bool
    ensures { Adds ok result (O.written out.old) (O.written out.new) (O.faults out.old) (O.faults out.new)
        (codes "\\u00" ++ digit_char (b / 16) ∷ digit_char (b % 16) ∷ []) }
{
    let ok = put(out, ok, "\\u00");
    let ok = put_digit(out, ok, b / 16);
    put_digit(out, ok, b % 16)
}

fn put_digit<O: Sink>(out: &mut O, ok: bool, d: u8) -> bool
    requires { d < 16 }
    ensures { Adds ok result (O.written out.old) (O.written out.new) (O.faults out.old) (O.faults out.new)
        (digit_char d ∷ []) }
{
    put_raw(out, ok, hex_digit(d))
}

fn hex_digit(d: u8) -> u8
    requires { d < 16 }
    ensures { result ≡ digit_char d }
{
    if d < 10 { b'0' + d } else { b'a' + (d - 10) }
}

fn put_raw<O: Sink>(out: &mut O, ok: bool, b: u8) -> bool
    ensures { Adds ok result (O.written out.old) (O.written out.new) (O.faults out.old) (O.faults out.new) (b ∷ []) }
{
    if !ok {
        return false;
    }
    let piece = [b];
    match out.put(&piece) {
        Ok(()) => true,
        Err(_) => false,
    }
}

fn put_let<O: Sink>(out: &mut O, ok: bool, n: u128) -> bool
    ensures { Adds ok result (O.written out.old) (O.written out.new) (O.faults out.old) (O.faults out.new)
        (let_text n) }
{
    let ok = put(out, ok, "let ");
    let ok = put_variable(out, ok, n);
    put(out, ok, ";")
}

fn put_set<O: Sink>(out: &mut O, ok: bool, n: u128, e: &Expr) -> bool
    ensures { Adds ok result (O.written out.old) (O.written out.new) (O.faults out.old) (O.faults out.new)
        (set_text n (expr_text e.now)) }
{
    let ok = put_variable(out, ok, n);
    let ok = put(out, ok, " = ");
    let ok = emit_expr(out, ok, e);
    put(out, ok, ";")
}

fn put_const<O: Sink>(out: &mut O, ok: bool, n: u128, e: &Expr) -> bool
    ensures { Adds ok result (O.written out.old) (O.written out.new) (O.faults out.old) (O.faults out.new)
        (const_text n (expr_text e.now)) }
{
    let ok = put(out, ok, "const ");
    put_set(out, ok, n, e)
}

fn put_push<O: Sink>(out: &mut O, ok: bool, n: u128, e: &Expr) -> bool
    ensures { Adds ok result (O.written out.old) (O.written out.new) (O.faults out.old) (O.faults out.new)
        (push_text n (expr_text e.now)) }
{
    let ok = put_variable(out, ok, n);
    let ok = put(out, ok, ".push(");
    let ok = emit_expr(out, ok, e);
    put(out, ok, ");")
}

fn put_if<O: Sink>(out: &mut O, ok: bool, e: &Expr) -> bool
    ensures { Adds ok result (O.written out.old) (O.written out.new) (O.faults out.old) (O.faults out.new)
        (if_head (expr_text e.now)) }
{
    let ok = put(out, ok, "if (");
    let ok = emit_expr(out, ok, e);
    put(out, ok, ") ")
}

#[cycle(lines)]
fn emit_stmt<O: Sink>(out: &mut O, ok: bool, s: &Stmt) -> bool
    ensures { Adds ok result (O.written out.old) (O.written out.new) (O.faults out.old) (O.faults out.new)
        (stmt_text s.now) }
{
    match s {
        Stmt::Let(n) => put_let(out, ok, *n),
        Stmt::Set(n, e) => put_set(out, ok, *n, e),
        Stmt::Const(n, e) => put_const(out, ok, *n, e),
        Stmt::Collect(n, block) => emit_collect(out, ok, block, *n),
        Stmt::Push(n, e) => put_push(out, ok, *n, e),
        Stmt::For(n, e, block) => emit_for(out, ok, block, *n, e),
        Stmt::If(e, block, other) => {
            let ok = put_if(out, ok, e);
            let ok = emit_block(out, ok, block);
            let ok = put(out, ok, " else ");
            emit_block(out, ok, other)
        }
        Stmt::Block(block) => emit_block(out, ok, block),
    }
}

#[cycle(lines)]
fn emit_collect<O: Sink>(out: &mut O, ok: bool, block: &List<Stmt>, n: u128) -> bool
    ensures { Adds ok result (O.written out.old) (O.written out.new) (O.faults out.old) (O.faults out.new)
        (collect_text n (block_text (map stmt_text block.now))) }
{
    let ok = put(out, ok, "const ");
    let ok = put_variable(out, ok, n);
    let ok = put(out, ok, " = []; ");
    emit_block(out, ok, block)
}

#[cycle(lines)]
fn emit_for<O: Sink>(out: &mut O, ok: bool, block: &List<Stmt>, n: u128, e: &Expr) -> bool
    ensures { Adds ok result (O.written out.old) (O.written out.new) (O.faults out.old) (O.faults out.new)
        (for_text n (expr_text e.now) (block_text (map stmt_text block.now))) }
{
    let ok = put(out, ok, "for (const ");
    let ok = put_variable(out, ok, n);
    let ok = put(out, ok, " of ");
    let ok = emit_expr(out, ok, e);
    let ok = put(out, ok, ") ");
    emit_block(out, ok, block)
}

#[cycle(lines)]
fn emit_block<O: Sink>(out: &mut O, ok: bool, block: &List<Stmt>) -> bool
    ensures { Adds ok result (O.written out.old) (O.written out.new) (O.faults out.old) (O.faults out.new)
        (block_text (map stmt_text block.now)) }
{
    let ok = put(out, ok, "{");
    let ok = emit_lines(out, ok, block);
    put(out, ok, " }")
}

#[cycle(lines)]
fn emit_lines<O: Sink>(out: &mut O, ok: bool, block: &List<Stmt>) -> bool
    ensures { Adds ok result (O.written out.old) (O.written out.new) (O.faults out.old) (O.faults out.new)
        (lines (map stmt_text block.now)) }
{
    let mut ok = ok;
    for s in block.as_slice() {
        ok = put(out, ok, " ");
        ok = emit_stmt(out, ok, s);
    }
    ok
}

fn emit_program<O: Sink>(out: &mut O, p: &Program) -> bool
    ensures { Adds true result (O.written out.old) (O.written out.new) (O.faults out.old) (O.faults out.new)
        (layout p.now) }
{
    let ok = put(out, true, "function query(w, rt) {");
    let ok = emit_lines(out, ok, &p.body);
    let ok = put(out, ok, " return ");
    let ok = emit_expr(out, ok, &p.result);
    put(out, ok, "; }\n")
}

// The same, with what a failure is.
fn emit_whole<O: Sink>(out: &mut O, p: &Program) -> Result<(), Failed>
    ensures ok { OnOk result (O.written out.new ≡ append_known (O.written out.old) (layout p.now)) }
    ensures err { OnErr result (AppendsFront (O.written out.old) (O.written out.new) (layout p.now)) }
    ensures failed { OnErr result (Rose (O.faults out.old) (O.faults out.new)) }
    ensures count { O.faults out.old ≤ O.faults out.new }
{
    if emit_program(out, p) {
        Ok(())
    } else {
        Err(Failed)
    }
}

// The layout spells the program.
fn spelled(js: &Js)
    ensures { Spells (layout js.now) js.now }
{
    held(js.program());
}

/// Puts the layout of the program piece by piece, and takes no memory. The layout spells the program.
///
/// # Errors
///
/// `Failed` only where the count of the sink's faults rose; some front of the layout was put then.
pub fn emit<O: Sink>(js: &Js, out: &mut O) -> Result<(), Failed>
    ensures ok { OnOk result (O.written out.new ≡ append_known (O.written out.old) (layout js.now)) }
    ensures err { OnErr result (AppendsFront (O.written out.old) (O.written out.new) (layout js.now)) }
    ensures failed { OnErr result (Rose (O.faults out.old) (O.faults out.new)) }
    ensures count { O.faults out.old ≤ O.faults out.new }
    ensures spells { Spells (layout js.now) js.now }
{
    spelled(js);
    emit_whole(out, js.program())
}
