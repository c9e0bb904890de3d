// The trees of programs, one variant for each alternative of the grammar.
use qc_containers::{Chars, List};
use qc_rt::Rt;

/// An expression.
#[derive(Drop)]
pub enum Expr {
    /// `v` and the number: the value of the variable.
    Var(u128),
    /// `w`: the JSON of the world.
    World,
    /// `true`.
    True,
    /// `false`.
    False,
    /// `null`.
    Null,
    /// An integer.
    Int(i64),
    /// A text.
    Text(Chars),
    /// An array of the values of its members.
    Array(List<Expr>),
    /// A call of a function of the runtime with the values of its arguments.
    Call(Rt, List<Expr>),
}

/// A statement. What it declares is there to the end of the block that it stands in.
#[derive(Drop)]
pub enum Stmt {
    /// `let`: declares a variable that may be set, and has no value yet.
    Let(u128),
    /// Sets the variable to the value of the expression.
    Set(u128, Expr),
    /// `const`: declares a variable that stands for the value of the expression.
    Const(u128, Expr),
    /// `const` and `[]`, and a block: declares a variable that stands for the array of all that the block pushes to it.
    Collect(u128, List<Stmt>),
    /// `push`: pushes the value of the expression to the variable.
    Push(u128, Expr),
    /// `for`: the block for each member of the array in order, for which the variable stands.
    For(u128, Expr, List<Stmt>),
    /// `if`: the first block where the condition is true, and the second where it is false.
    If(Expr, List<Stmt>, List<Stmt>),
    /// A block: the statements in order.
    Block(List<Stmt>),
}

/// The function `query` of the world and the runtime, which runs its statements and returns the value of an expression.
#[derive(Drop)]
pub struct Program {
    /// The statements.
    pub body: List<Stmt>,
    /// The expression that is returned.
    pub result: Expr,
}
