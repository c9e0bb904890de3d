// Trees of the algebra.
use qc_containers::{Boxed, Name};
use qc_data::Datum;
use qc_ops::{Binary, Unary};

/// An expression of the algebra. It has an input, an environment and the globals of a world; below, `a`, `b` and `c`
/// are its parts in order.
#[derive(Drop)]
pub enum Nra {
    /// The datum.
    Const(Datum),
    /// The input.
    Input,
    /// The environment.
    Env,
    /// The global of the name.
    Global(Name),
    /// The operator on the value of `a`.
    Unary(Unary, Boxed<Nra>),
    /// The operator on the values of `a` and `b`.
    Binary(Binary, Boxed<Nra>, Boxed<Nra>),
    /// `a` with the value of `b` as its input.
    Comp(Boxed<Nra>, Boxed<Nra>),
    /// `a` with each member of `b` as its input.
    Map(Boxed<Nra>, Boxed<Nra>),
    /// The members of `b` on which, as its input, `a` is true.
    Select(Boxed<Nra>, Boxed<Nra>),
    /// All fields of each pair of a member of `a` and one of `b`, those of `a` outermost.
    Product(Boxed<Nra>, Boxed<Nra>),
    /// For each record of `b`, its fields with those of each member of `a`, which has the record as its input.
    DepJoin(Boxed<Nra>, Boxed<Nra>),
    /// The collection `a` where it has members, and then `b` is not evaluated; else the collection `b`.
    Default(Boxed<Nra>, Boxed<Nra>),
    /// `a` with the value of `b` as its environment.
    EnvComp(Boxed<Nra>, Boxed<Nra>),
    /// `a` with each member of the environment as its environment.
    MapEnv(Boxed<Nra>),
    /// With its content as the input, `a` where the input is a left value, and `b` where it is a right one.
    Either(Boxed<Nra>, Boxed<Nra>),
    /// `b` where `a` is true, and else `c`.
    If(Boxed<Nra>, Boxed<Nra>, Boxed<Nra>),
}
