// Programs of statements over variables that are declared in blocks.
use qc_containers::{Boxed, List, Name};
use qc_data::Datum;
use qc_ops::{Binary, Unary};

/// An expression: it reads variables and the globals of a world, and changes none.
#[derive(Drop)]
pub enum ImpExpr {
    /// The value of the variable.
    Var(u128),
    /// The datum.
    Const(Datum),
    /// The global of the name.
    Global(Name),
    /// The operator on the value of the expression.
    Unary(Unary, Boxed<ImpExpr>),
    /// The operator on the values of the expressions.
    Binary(Binary, Boxed<ImpExpr>, Boxed<ImpExpr>),
    /// Whether the value is a left one; it is a left or a right one.
    IsLeft(Boxed<ImpExpr>),
    /// The content of a left or a right value.
    Payload(Boxed<ImpExpr>),
}

/// A statement. What it declares is there to the end of the block that it stands in.
#[derive(Drop)]
pub enum ImpStmt {
    /// The statements in order.
    Block(List<ImpStmt>),
    /// Declares a variable that may be set, and has no value yet.
    Var(u128),
    /// Declares a variable that stands for the value of the expression.
    Val(u128, Boxed<ImpExpr>),
    /// Sets the variable to the value of the expression.
    Set(u128, Boxed<ImpExpr>),
    /// Declares a variable that stands for the collection of all that the statements, which are a block, push to it.
    /// They may not read it.
    Collect(u128, List<ImpStmt>),
    /// Pushes the value of the expression to the variable.
    Push(u128, Boxed<ImpExpr>),
    /// The statement for each member of the collection in order, for which the variable stands.
    For(u128, Boxed<ImpExpr>, Boxed<ImpStmt>),
    /// The first statement where the condition is true, and else the second.
    If(Boxed<ImpExpr>, Boxed<ImpStmt>, Boxed<ImpStmt>),
}

/// A program: it runs the statement, which is a block, and returns the value of a variable that the block declares.
#[derive(Drop)]
pub struct Imp {
    /// The statement.
    pub body: ImpStmt,
    /// The variable that the program returns.
    pub result: u128,
}
