// Data, and the JSON trees that encode them.

use qc_containers::{Boxed, Chars, Name, NameMap, SharedList, TextMap};
/// The members of a collection.
pub type Items = SharedList<Datum>;

/// The fields of a record.
pub type Fields = NameMap<Datum>;

/// The members of a JSON array.
pub type Jsons = SharedList<Json>;

/// The members of a JSON object.
pub type Members = TextMap<Json>;

/// A value of a query. Clauses see it with integers of any size; those that code holds have 64 bits.
#[derive(PartialEq, Eq, PartialOrd, Ord, Drop)]
pub enum Datum {
    /// The value that says nothing.
    Unit,
    /// A truth value.
    Bool(bool),
    /// An integer.
    Int(i64),
    /// A text.
    Text(Chars),
    /// A collection: a list, which `same` compares as a bag.
    Coll(Items),
    /// A record: values by distinct names.
    Rec(Fields),
    /// A value of the left side of a sum.
    Left(Boxed<Datum>),
    /// A value of the right side of a sum.
    Right(Boxed<Datum>),
    /// A value of a class, by the class's name.
    Brand(Name, Boxed<Datum>),
}

/// A JSON tree whose numbers are integers.
#[derive(Drop)]
pub enum Json {
    /// Null.
    Null,
    /// A boolean.
    Bool(bool),
    /// An integer.
    Int(i64),
    /// A text.
    Text(Chars),
    /// An array.
    Array(Jsons),
    /// An object: values by distinct texts.
    Object(Members),
}
