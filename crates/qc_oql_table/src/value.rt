// What actions leave for later ones.
use qc_containers::{Chars, List};
use qc_oql_tree::{Filter, Key, Named, Oql, Order};

/// The place and the kind of a token.
#[derive(Clone, Copy)]
pub struct Mark {
    /// The number of the token.
    pub at: u32,
    /// Its kind.
    pub kind: u32,
}

/// The text of a token.
#[derive(Drop)]
pub struct Word {
    /// The number of the token.
    pub at: u32,
    /// Its text.
    pub text: Chars,
}

/// What an action leaves for a later one.
#[derive(Drop)]
pub enum Value {
    /// The token of an operator, a function or a form.
    Mark(Mark),
    /// A name.
    Name(Word),
    /// The literal by which a value is divided.
    Divisor(i64),
    /// An expression.
    Tree(Oql),
    /// Members of a bag.
    Members(List<Oql>),
    /// Names with expressions: definitions, sources or fields.
    Entries(List<Named>),
    /// Keys of an order.
    Keys(List<Key>),
    /// A condition, if there is one.
    Filtered(Option<Filter>),
    /// An order, if there is one.
    Ordered(Option<Order>),
}
