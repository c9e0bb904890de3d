// Whether programs meet the rules.
ghost use Rattle.std.specs.Prelude.{◌≡◌, map, IfOk};
ghost use Rattle.qc_js.specs.Held.{all_true};
ghost use Rattle.qc_js.specs.WellFormed.{all_rules, block_rule, collect_rule, const_rule, expr_fits, for_rule};
ghost use Rattle.qc_js.specs.WellFormed.{is_bare, push_rule, rule, set_rule, then_rule, well_formed};
ghost use Rattle.qc_js.specs.inner.Steps.{Steps};

use crate::scope::{Class, class_of, declare, may_push, may_read, may_set};
use crate::tree::{Expr, Program, Stmt};
use qc_containers::{List, Memory};
use std::alloc::Global;

/// Whether the program meets the rules: no variable is declared where one of its number is in scope; each is in scope
/// where it is used, and is read, set and pushed to only as it may be; each call has as many arguments as its function
/// takes; and no constant is written as the bare `[]`.
pub fn meets_rules(alloc: Global, program: &Program) -> Result<bool, Memory>
    ensures { IfOk result (λ good. good ≡ well_formed program.now) }
{
    let mut scope = Vec::new(alloc);
    if !check_all(&mut scope, &program.body)? {
        return Ok(false);
    }
    Ok(fits(scope.as_slice(), &program.result))
}

// Whether an expression reads what may be read, and its calls have the arguments that their functions take.
#[cycle(fits)]
#[tactic(auto, using(crate::proofs::Counts::same_count))]
fn fits(scope: &[(u128, Class)], e: &Expr) -> bool
    ensures { result ≡ expr_fits scope.now e.now }
{
    match e {
        Expr::Var(x) => may_read(class_of(scope, *x)),
        Expr::Array(members) => all_fit(scope, members),
        Expr::Call(function, arguments) => {
            arguments.len() == function.arguments() && all_fit(scope, arguments)
        }
        Expr::World | Expr::True | Expr::False | Expr::Null | Expr::Int(_) | Expr::Text(_) => true,
    }
}

// The same of each expression.
#[cycle(fits)]
fn all_fit(scope: &[(u128, Class)], all: &List<Expr>) -> bool
    ensures { result ≡ all_true (map (expr_fits scope.now) all.now) }
{
    for e in all.as_slice() {
        if !fits(scope, e) {
            return false;
        }
    }
    true
}

// Whether an expression is `[]` and no more.
fn is_bare(e: &Expr) -> bool
    ensures { result ≡ is_bare e.now }
{
    match e {
        Expr::Array(members) => match members.as_slice() {
            [] => true,
            _ => false,
        },
        _ => false,
    }
}

fn check_set(scope: &mut Vec<(u128, Class)>, x: u128, e: &Expr) -> bool
    ensures { Steps result (set_rule x e.now scope.old.items) scope.old.items scope.new.items }
{
    if !fits(scope.as_slice(), e) {
        return false;
    }
    may_set(class_of(scope.as_slice(), x))
}

fn check_push(scope: &mut Vec<(u128, Class)>, x: u128, e: &Expr) -> bool
    ensures { Steps result (push_rule x e.now scope.old.items) scope.old.items scope.new.items }
{
    if !fits(scope.as_slice(), e) {
        return false;
    }
    may_push(class_of(scope.as_slice(), x))
}

fn check_const(scope: &mut Vec<(u128, Class)>, x: u128, e: &Expr) -> Result<bool, Memory>
    ensures { IfOk result (λ good. Steps good (const_rule x e.now scope.old.items) scope.old.items scope.new.items) }
{
    if !fits(scope.as_slice(), e) {
        return Ok(false);
    }
    if is_bare(e) {
        return Ok(false);
    }
    let good = declare(scope, x, Class::Readable)?;
    Ok(good)
}

// Whether a statement meets the rules. The scope grows by what it declares.
#[cycle(rules)]
fn check(scope: &mut Vec<(u128, Class)>, s: &Stmt) -> Result<bool, Memory>
    ensures { IfOk result (λ good. Steps good (rule s.now scope.old.items) scope.old.items scope.new.items) }
{
    match s {
        Stmt::Let(x) => {
            let good = declare(scope, *x, Class::Settable)?;
            Ok(good)
        }
        Stmt::Set(x, e) => Ok(check_set(scope, *x, e)),
        Stmt::Const(x, e) => {
            let good = check_const(scope, *x, e)?;
            Ok(good)
        }
        Stmt::Collect(x, block) => {
            let good = check_collect(scope, block, *x)?;
            Ok(good)
        }
        Stmt::Push(x, e) => Ok(check_push(scope, *x, e)),
        Stmt::For(x, e, block) => {
            let good = check_for(scope, block, *x, e)?;
            Ok(good)
        }
        Stmt::If(e, block, other) => {
            if !check_then(scope, block, e)? {
                return Ok(false);
            }
            let good = check_block(scope, other)?;
            Ok(good)
        }
        Stmt::Block(block) => {
            let good = check_block(scope, block)?;
            Ok(good)
        }
    }
}

// The same of statements in order.
#[cycle(rules)]
fn check_all(scope: &mut Vec<(u128, Class)>, block: &List<Stmt>) -> Result<bool, Memory>
    ensures { IfOk result
        (λ good. Steps good (all_rules (map rule block.now) scope.old.items) scope.old.items scope.new.items) }
{
    for s in block.as_slice() {
        if !check(scope, s)? {
            return Ok(false);
        }
    }
    Ok(true)
}

// The same of a block, whose declarations end with it.
#[cycle(rules)]
fn check_block(scope: &mut Vec<(u128, Class)>, block: &List<Stmt>) -> Result<bool, Memory>
    ensures { IfOk result
        (λ good. Steps good (block_rule (map rule block.now) scope.old.items) scope.old.items scope.new.items) }
{
    let mark = scope.len();
    if !check_all(scope, block)? {
        return Ok(false);
    }
    scope.truncate(mark);
    Ok(true)
}

#[cycle(rules)]
fn check_for(
    scope: &mut Vec<(u128, Class)>,
    block: &List<Stmt>,
    x: u128,
    e: &Expr,
) -> Result<bool, Memory>
    ensures { IfOk result
        (λ good. Steps good (for_rule x e.now (map rule block.now) scope.old.items) scope.old.items scope.new.items) }
{
    if !fits(scope.as_slice(), e) {
        return Ok(false);
    }
    let mark = scope.len();
    if !declare(scope, x, Class::Readable)? {
        return Ok(false);
    }
    if !check_all(scope, block)? {
        return Ok(false);
    }
    scope.truncate(mark);
    Ok(true)
}

#[cycle(rules)]
fn check_collect(
    scope: &mut Vec<(u128, Class)>,
    block: &List<Stmt>,
    x: u128,
) -> Result<bool, Memory>
    ensures { IfOk result
        (λ good. Steps good (collect_rule x (map rule block.now) scope.old.items) scope.old.items scope.new.items) }
{
    let mark = scope.len();
    if !declare(scope, x, Class::Pushable)? {
        return Ok(false);
    }
    if !check_all(scope, block)? {
        return Ok(false);
    }
    scope.truncate(mark);
    scope.push((x, Class::Readable))?;
    Ok(true)
}

#[cycle(rules)]
fn check_then(scope: &mut Vec<(u128, Class)>, block: &List<Stmt>, e: &Expr) -> Result<bool, Memory>
    ensures { IfOk result
        (λ good. Steps good (then_rule e.now (map rule block.now) scope.old.items) scope.old.items scope.new.items) }
{
    if !fits(scope.as_slice(), e) {
        return Ok(false);
    }
    let good = check_block(scope, block)?;
    Ok(good)
}
