// The functions of the runtime that operators are.
ghost use Rattle.std.specs.Prelude.{◌≡◌};
ghost use Rattle.qc_rt.specs.Laws.{function1, function2};

use qc_ops::{Binary, Unary};
use qc_rt::Rt;

// The function of an operator of one operand.
pub(crate) fn function_of_one(op: &Unary) -> Rt
    ensures { result ≡ function1 op.now }
{
    match op {
        Unary::Not => Rt::Not,
        Unary::Neg => Rt::Neg,
        Unary::Abs => Rt::Abs,
        Unary::DivBy(_) => Rt::DivBy,
        Unary::ModBy(_) => Rt::ModBy,
        Unary::Count => Rt::Count,
        Unary::Sum => Rt::Sum,
        Unary::Min => Rt::Min,
        Unary::Max => Rt::Max,
        Unary::Avg => Rt::Avg,
        Unary::Element => Rt::Element,
        Unary::Flatten => Rt::Flatten,
        Unary::Distinct => Rt::Distinct,
        Unary::Single => Rt::Single,
        Unary::Rec(_) => Rt::Rec,
        Unary::Dot(_) => Rt::Dot,
        Unary::Project(_) => Rt::Project,
        Unary::Left => Rt::Left,
        Unary::Right => Rt::Right,
        Unary::Brand(_) => Rt::Brand,
        Unary::Unbrand => Rt::Unbrand,
        Unary::Cast(_) => Rt::Cast,
        Unary::Order(_) => Rt::Order,
        Unary::Group(_, _) => Rt::Group,
        Unary::Like(_) => Rt::Like,
    }
}

// The function of an operator of two operands.
pub(crate) fn function_of_two(op: Binary) -> Rt
    ensures { result ≡ function2 op }
{
    match op {
        Binary::Eq => Rt::Eq,
        Binary::Lt => Rt::Lt,
        Binary::Le => Rt::Le,
        Binary::And => Rt::And,
        Binary::Or => Rt::Or,
        Binary::Add => Rt::Add,
        Binary::Sub => Rt::Sub,
        Binary::Mul => Rt::Mul,
        Binary::Least => Rt::Least,
        Binary::Greatest => Rt::Greatest,
        Binary::Union => Rt::Union,
        Binary::Except => Rt::Except,
        Binary::Intersect => Rt::Intersect,
        Binary::Member => Rt::Member,
        Binary::Cat => Rt::Cat,
        Binary::Merge => Rt::Merge,
        Binary::Glue => Rt::Glue,
    }
}
