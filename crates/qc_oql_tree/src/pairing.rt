// How the operators of queries go back to operators on values.
ghost use Rattle.std.specs.Prelude.{◌≡◌};
ghost use Rattle.qc_oql_tree.specs.OperatorMeanings.{branding, division};
ghost use Rattle.qc_oql_tree.specs.inner.Pairings.{on_one, pairing_of};

use crate::tree::{Binary, Branding, Division, Unary};
use qc_containers::Name;
use qc_ops::{Binary as OnTwo, Divisor, Unary as OnOne};

/// How an operator of two operands goes back to operators on values.
#[derive(Clone, Copy)]
pub enum Pairing {
    /// The operator itself.
    Plain(OnTwo),
    /// The operator with its operands exchanged.
    Exchanged(OnTwo),
    /// The negation of `Eq`.
    Unequal,
}

/// The operator on one value that an operator of queries is; `exists` is none.
pub fn on_one(operator: Unary) -> Option<OnOne>
    ensures { result ≡ on_one operator }
{
    match operator {
        Unary::Not => Some(OnOne::Not),
        Unary::Neg => Some(OnOne::Neg),
        Unary::Count => Some(OnOne::Count),
        Unary::Sum => Some(OnOne::Sum),
        Unary::Min => Some(OnOne::Min),
        Unary::Max => Some(OnOne::Max),
        Unary::Avg => Some(OnOne::Avg),
        Unary::Element => Some(OnOne::Element),
        Unary::Flatten => Some(OnOne::Flatten),
        Unary::Distinct => Some(OnOne::Distinct),
        Unary::Abs => Some(OnOne::Abs),
        Unary::Left => Some(OnOne::Left),
        Unary::Right => Some(OnOne::Right),
        Unary::Unbrand => Some(OnOne::Unbrand),
        Unary::Exists => None,
    }
}

/// How an operator of two operands goes back to operators on values; `orelse` does not.
pub fn pairing_of(operator: Binary) -> Option<Pairing>
    ensures { result ≡ pairing_of operator }
{
    match operator {
        Binary::Or => Some(Pairing::Plain(OnTwo::Or)),
        Binary::And => Some(Pairing::Plain(OnTwo::And)),
        Binary::Eq => Some(Pairing::Plain(OnTwo::Eq)),
        Binary::Ne => Some(Pairing::Unequal),
        Binary::Lt => Some(Pairing::Plain(OnTwo::Lt)),
        Binary::Le => Some(Pairing::Plain(OnTwo::Le)),
        Binary::Gt => Some(Pairing::Exchanged(OnTwo::Lt)),
        Binary::Ge => Some(Pairing::Exchanged(OnTwo::Le)),
        Binary::Member => Some(Pairing::Plain(OnTwo::Member)),
        Binary::Union => Some(Pairing::Plain(OnTwo::Union)),
        Binary::Except => Some(Pairing::Plain(OnTwo::Except)),
        Binary::Intersect => Some(Pairing::Plain(OnTwo::Intersect)),
        Binary::Add => Some(Pairing::Plain(OnTwo::Add)),
        Binary::Sub => Some(Pairing::Plain(OnTwo::Sub)),
        Binary::Glue => Some(Pairing::Plain(OnTwo::Glue)),
        Binary::Mul => Some(Pairing::Plain(OnTwo::Mul)),
        Binary::OrElse => None,
        Binary::Least => Some(Pairing::Plain(OnTwo::Least)),
        Binary::Greatest => Some(Pairing::Plain(OnTwo::Greatest)),
    }
}

/// The operator on one value that a division by the divisor is.
pub fn division(operator: Division, divisor: Divisor) -> OnOne
    ensures { result ≡ division operator divisor }
{
    match operator {
        Division::DivBy => OnOne::DivBy(divisor),
        Division::ModBy => OnOne::ModBy(divisor),
    }
}

/// The operator on one value that a function of the class is.
pub fn branding(operator: Branding, class: Name) -> OnOne
    ensures { result ≡ branding operator class }
{
    match operator {
        Branding::Cast => OnOne::Cast(class),
        Branding::Brand => OnOne::Brand(class),
    }
}
