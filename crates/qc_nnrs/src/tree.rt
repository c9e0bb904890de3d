// Programs of statements over read-only, assignable and collecting variables.
use qc_containers::{Boxed, Name};
use qc_data::Datum;
use qc_ops::{Binary, Unary};

/// An expression: it reads variables and the globals of a world, and writes nothing.
#[derive(Drop)]
pub enum NnrsExpr {
    /// The value of the variable.
    Var(u128),
    /// The datum.
    Const(Datum),
    /// The global of the name.
    Global(Name),
    /// The operator on the value of the expression.
    Unary(Unary, Boxed<NnrsExpr>),
    /// The operator on the values of the expressions.
    Binary(Binary, Boxed<NnrsExpr>, Boxed<NnrsExpr>),
}

/// A statement: it reads variables, and writes to those that may be set or pushed to.
#[derive(Drop)]
pub enum NnrsStmt {
    /// The first statement and then the second.
    Seq(Boxed<NnrsStmt>, Boxed<NnrsStmt>),
    /// The statement, in which the variable stands for the value of the expression and is only read.
    Let(u128, Boxed<NnrsExpr>, Boxed<NnrsStmt>),
    /// The first statement, in which the variable may only be set, and then the second, in which it may only be read:
    /// it stands for the last value that it was set to.
    LetMut(u128, Boxed<NnrsStmt>, Boxed<NnrsStmt>),
    /// The first statement, in which the variable may only be pushed to, and then the second, in which it may only be
    /// read: it stands for the collection of all that was pushed to it, in order.
    LetColl(u128, Boxed<NnrsStmt>, Boxed<NnrsStmt>),
    /// The variable set to the value of the expression.
    Set(u128, Boxed<NnrsExpr>),
    /// The value of the expression pushed to the variable.
    Push(u128, Boxed<NnrsExpr>),
    /// The statement for each member of the collection in order, for which the variable stands.
    For(u128, Boxed<NnrsExpr>, Boxed<NnrsStmt>),
    /// The first statement where the condition is true, and else the second.
    If(Boxed<NnrsExpr>, Boxed<NnrsStmt>, Boxed<NnrsStmt>),
    /// By the side of the value, the first statement with the first variable as its content, or the second statement
    /// with the second one.
    Either(Boxed<NnrsExpr>, u128, Boxed<NnrsStmt>, u128, Boxed<NnrsStmt>),
}

/// A program: it runs the statement, in which the variable may only be set, and returns the last value that the
/// variable was set to.
#[derive(Drop)]
pub struct Nnrs {
    /// The statement.
    pub body: NnrsStmt,
    /// The variable that the program returns.
    pub result: u128,
}
