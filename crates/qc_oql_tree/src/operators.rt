// Operators and other choices, by the kinds of their tokens.
ghost use Rattle.std.specs.Prelude.{◌≡◌};
ghost use Rattle.qc_oql_tree.specs.OperatorTokens as spec;

use crate::kinds::{
    ABS, AND, AT_LEAST, AT_MOST, AVG, CAST, COUNT, DISTINCT, DIVIDE, ELEMENT, EQUAL, EXCEPT, FALSE,
    FLATTEN, GLUE, GREATER, IN, INTERSECT, LEAST, LEFT, LESS, MAX, MIN, MINUS, NOT, NOT_EQUAL, OR,
    ORELSE, PLUS, RIGHT, SUM, TIMES, TRUE, UNBRAND, UNION,
};
use crate::tree::{Binary, Branding, Constant, Division, Unary};

/// The literal that a kind of word is.
pub fn constant_of(kind: u32) -> Constant
    ensures { result ≡ spec.constant_of kind }
{
    if kind == TRUE {
        Constant::True
    } else if kind == FALSE {
        Constant::False
    } else {
        Constant::Nil
    }
}

/// The operator or function of one operand that a kind of token is.
pub fn unary_of(kind: u32) -> Unary
    ensures { result ≡ spec.unary_of kind }
{
    if kind == NOT {
        Unary::Not
    } else if kind == MINUS {
        Unary::Neg
    } else if kind == COUNT {
        Unary::Count
    } else if kind == SUM {
        Unary::Sum
    } else if kind == MIN {
        Unary::Min
    } else if kind == MAX {
        Unary::Max
    } else if kind == AVG {
        Unary::Avg
    } else if kind == ELEMENT {
        Unary::Element
    } else if kind == FLATTEN {
        Unary::Flatten
    } else if kind == DISTINCT {
        Unary::Distinct
    } else if kind == ABS {
        Unary::Abs
    } else if kind == LEFT {
        Unary::Left
    } else if kind == RIGHT {
        Unary::Right
    } else if kind == UNBRAND {
        Unary::Unbrand
    } else {
        Unary::Exists
    }
}

/// The operator or function of two operands that a kind of token is.
pub fn binary_of(kind: u32) -> Binary
    ensures { result ≡ spec.binary_of kind }
{
    if kind == OR {
        Binary::Or
    } else if kind == AND {
        Binary::And
    } else if kind == EQUAL {
        Binary::Eq
    } else if kind == NOT_EQUAL {
        Binary::Ne
    } else if kind == LESS {
        Binary::Lt
    } else if kind == AT_MOST {
        Binary::Le
    } else if kind == GREATER {
        Binary::Gt
    } else if kind == AT_LEAST {
        Binary::Ge
    } else if kind == IN {
        Binary::Member
    } else if kind == UNION {
        Binary::Union
    } else if kind == EXCEPT {
        Binary::Except
    } else if kind == INTERSECT {
        Binary::Intersect
    } else if kind == PLUS {
        Binary::Add
    } else if kind == MINUS {
        Binary::Sub
    } else if kind == GLUE {
        Binary::Glue
    } else if kind == TIMES {
        Binary::Mul
    } else if kind == ORELSE {
        Binary::OrElse
    } else if kind == LEAST {
        Binary::Least
    } else {
        Binary::Greatest
    }
}

/// The division that a kind of token is.
pub fn division_of(kind: u32) -> Division
    ensures { result ≡ spec.division_of kind }
{
    if kind == DIVIDE {
        Division::DivBy
    } else {
        Division::ModBy
    }
}

/// The function of a class that a kind of word is.
pub fn branding_of(kind: u32) -> Branding
    ensures { result ≡ spec.branding_of kind }
{
    if kind == CAST {
        Branding::Cast
    } else {
        Branding::Brand
    }
}
