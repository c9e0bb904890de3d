// Trees of the calculus.
use qc_containers::{Boxed, Name};
use qc_data::Datum;
use qc_ops::{Binary, Unary};

/// The number of a variable.
pub type Var = u128;

/// An expression of the calculus. It has variables, which are numbers, and the globals of a world; below, `a`, `b` and
/// `c` are its parts in order, and `x` and `y` the variables that it binds.
#[derive(Drop)]
pub enum Nnrc {
    /// The value of the variable.
    Var(u128),
    /// The datum.
    Const(Datum),
    /// The global of the name.
    Global(Name),
    /// The operator on the value of `a`.
    Unary(Unary, Boxed<Nnrc>),
    /// The operator on the values of `a` and `b`.
    Binary(Binary, Boxed<Nnrc>, Boxed<Nnrc>),
    /// `b` with the value of `a` as `x`.
    Let(u128, Boxed<Nnrc>, Boxed<Nnrc>),
    /// The list of `b` with each member of `a` as `x`.
    For(u128, Boxed<Nnrc>, Boxed<Nnrc>),
    /// `b` where `a` is true, and else `c`.
    If(Boxed<Nnrc>, Boxed<Nnrc>, Boxed<Nnrc>),
    /// Where `a` is a left value, `b` with its content as `x`; where it is a right one, `c` with its content as `y`.
    Either(Boxed<Nnrc>, u128, Boxed<Nnrc>, u128, Boxed<Nnrc>),
}
