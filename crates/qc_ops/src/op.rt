// Operators.
use crate::divisor::Divisor;
use qc_containers::{Chars, List, Name};

/// Names of fields. Of equal ones only the first counts.
pub type Names = List<Name>;

/// The names that rows are ordered by, the first first, each with whether it is ascending. Of equal names only the
/// first counts.
pub type Keys = List<(Name, bool)>;

/// An operator on one value.
#[derive(Drop)]
pub enum Unary {
    /// The other truth value.
    Not,
    /// The negative of an integer.
    Neg,
    /// The absolute value of an integer.
    Abs,
    /// The quotient of an integer by the divisor, toward zero.
    DivBy(Divisor),
    /// The remainder of that quotient, which has the sign of the integer.
    ModBy(Divisor),
    /// How many members a collection has.
    Count,
    /// The total of a collection of integers.
    Sum,
    /// Left of the least of a collection of integers; right of unit if it is empty.
    Min,
    /// Left of the greatest of a collection of integers; right of unit if it is empty.
    Max,
    /// Left of the total of a collection of integers by their number, toward zero; right of unit if it is empty.
    Avg,
    /// Left of the only member of a collection; right of unit if it has none or several.
    Element,
    /// The members of the members of a collection of collections.
    Flatten,
    /// The members of a collection that are the same as none before them.
    Distinct,
    /// The collection of the value.
    Single,
    /// The record of the value at the name.
    Rec(Name),
    /// The value of a record at the name.
    Dot(Name),
    /// The fields of a record at the names.
    Project(Names),
    /// The value on the left side.
    Left,
    /// The value on the right side.
    Right,
    /// The value of the class whose content is the value.
    Brand(Name),
    /// The content of a class's value.
    Unbrand,
    /// Left of a class's value if its class is the named one or below it; else right of unit.
    Cast(Name),
    /// A collection of records in the order of their values at the keys; those that tie keep theirs.
    Order(Keys),
    /// A collection of records by their values at the names: for each, the record of these values, with those that have
    /// them at the first name.
    Group(Name, Names),
    /// Whether a text is like the pattern, in which `%` is any run of characters and `_` any one character.
    Like(Chars),
}

/// An operator on two values.
#[derive(Clone, Copy, Debug, PartialEq, Eq)]
pub enum Binary {
    /// Whether they are the same, where the order of a collection's members does not matter.
    Eq,
    /// Whether the first of two integers or two texts is below the second.
    Lt,
    /// Whether the first of two integers or two texts is not above the second.
    Le,
    /// Whether both are true.
    And,
    /// Whether one is true.
    Or,
    /// The sum of two integers.
    Add,
    /// The difference of two integers.
    Sub,
    /// The product of two integers.
    Mul,
    /// The lesser of two integers.
    Least,
    /// The greater of two integers.
    Greatest,
    /// The members of the first collection and then those of the second.
    Union,
    /// The members of the first collection without as many copies of each, from the first on, as the second has.
    Except,
    /// The members of the first collection, of each as many copies, from the first on, as the second has.
    Intersect,
    /// Whether the second, a collection, has a member that is the same as the first.
    Member,
    /// The fields of two records, where both have a name the second's.
    Cat,
    /// The collection of that record if the two have the same values at the names that they share, and else none.
    Merge,
    /// The first text and then the second.
    Glue,
}
