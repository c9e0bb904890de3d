// What holds of every tree that code holds.
ghost use Rattle.std.specs.Prelude.{IsTrue, map};
ghost use Rattle.std.specs.Str.{is_utf8};
ghost use Rattle.qc_js.specs.Held.{all_true, holds_expr, holds_program, holds_stmt, is_bits64, is_number};

use crate::tree::{Expr, Program, Stmt};
use qc_containers::Chars;

/// A program that code holds is one that code can hold: the numbers of its variables have 128 bits, its integers 64,
/// and its texts are in UTF-8. Call this where a proof needs these facts. It walks the program and answers nothing.
pub fn held(program: &Program)
    ensures { IsTrue (holds_program program.now) }
{
    held_block(program.body.as_slice());
    held_expr(&program.result);
}

// The same of a variable.
fn held_variable(x: u128)
    ensures { IsTrue (is_number x) }
{
    let _x = x;
}

// The same of an integer.
fn held_integer(n: i64)
    ensures { IsTrue (is_bits64 n) }
{
    let _n = n;
}

// The same of a text.
#[tactic(auto, using(crate::proofs::Texts::valid))]
fn held_text(text: &Chars)
    ensures { IsTrue (is_utf8 text.now) }
{
    let _text = text.as_str();
}

// The same of an expression.
#[cycle(expr)]
fn held_expr(e: &Expr)
    ensures { IsTrue (holds_expr e.now) }
{
    match e {
        Expr::Var(x) => held_variable(*x),
        Expr::World | Expr::True | Expr::False | Expr::Null => {}
        Expr::Int(n) => held_integer(*n),
        Expr::Text(text) => held_text(text),
        Expr::Array(members) => held_all(members.as_slice()),
        Expr::Call(_, arguments) => held_all(arguments.as_slice()),
    }
}

// The same of each expression.
#[cycle(expr)]
fn held_all(all: &[Expr])
    ensures { IsTrue (all_true (map holds_expr all.now)) }
{
    for e in all {
        held_expr(e);
    }
}

// The same of a statement.
#[cycle(stmt)]
fn held_stmt(s: &Stmt)
    ensures { IsTrue (holds_stmt s.now) }
{
    match s {
        Stmt::Let(x) => held_variable(*x),
        Stmt::Set(x, e) | Stmt::Const(x, e) | Stmt::Push(x, e) => {
            held_variable(*x);
            held_expr(e);
        }
        Stmt::Collect(x, block) => {
            held_variable(*x);
            held_block(block.as_slice());
        }
        Stmt::For(x, e, block) => {
            held_variable(*x);
            held_expr(e);
            held_block(block.as_slice());
        }
        Stmt::If(e, block, other) => {
            held_expr(e);
            held_block(block.as_slice());
            held_block(other.as_slice());
        }
        Stmt::Block(block) => held_block(block.as_slice()),
    }
}

// The same of each statement.
#[cycle(stmt)]
fn held_block(block: &[Stmt])
    ensures { IsTrue (all_true (map holds_stmt block.now)) }
{
    for s in block {
        held_stmt(s);
    }
}
