// What actions leave for later ones.
use qc_containers::List;
use qc_js::{Expr, Stmt};
use qc_rt::Rt;

/// What an action leaves for a later one.
#[derive(Drop)]
pub enum Value {
    /// The number of a variable.
    Name(u128),
    /// A function of the runtime.
    Function(Rt),
    /// An expression.
    Tree(Expr),
    /// Members of an array, or arguments.
    Members(List<Expr>),
    /// A statement.
    Statement(Stmt),
    /// Statements in order.
    Statements(List<Stmt>),
}
