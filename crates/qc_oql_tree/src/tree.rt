// Trees of queries. The first field of each form is the number of the token that it is named by.
use qc_containers::{Boxed, Chars, List};

/// A literal that is a word.
#[derive(Clone, Copy)]
pub enum Constant {
    /// `true`
    True,
    /// `false`
    False,
    /// `nil`
    Nil,
}

/// An operator or a function of one operand. Those that are no marks and no `not` are written with parentheses.
#[derive(Clone, Copy)]
pub enum Unary {
    Not,
    Neg,
    Count,
    Sum,
    Min,
    Max,
    Avg,
    Element,
    Flatten,
    Distinct,
    Abs,
    Left,
    Right,
    Unbrand,
    Exists,
}

/// An operator or a function of two operands.
#[derive(Clone, Copy)]
pub enum Binary {
    Or,
    And,
    /// `=`
    Eq,
    /// `!=`
    Ne,
    /// `<`
    Lt,
    /// `<=`
    Le,
    /// `>`
    Gt,
    /// `>=`
    Ge,
    /// `in`
    Member,
    Union,
    Except,
    Intersect,
    /// `+`
    Add,
    /// `-`
    Sub,
    /// `||`
    Glue,
    /// `*`
    Mul,
    OrElse,
    Least,
    Greatest,
}

/// A division by a literal.
#[derive(Clone, Copy)]
pub enum Division {
    /// `/`
    DivBy,
    /// `mod`
    ModBy,
}

/// A function of a class and an operand.
#[derive(Clone, Copy)]
pub enum Branding {
    Cast,
    Brand,
}

/// Whether some member is to meet a condition, or each.
#[derive(Clone, Copy)]
pub enum Quantifier {
    /// `exists`
    Exists,
    /// `for all`
    ForAll,
}

/// Whether the least value of a key comes first, or the greatest.
#[derive(Clone, Copy)]
pub enum Direction {
    /// `asc`, or nothing
    Asc,
    /// `desc`
    Desc,
}

/// An expression.
#[cycle(oql)]
#[derive(Drop)]
pub enum Oql {
    /// A name.
    Name(u32, Chars),
    /// A whole number.
    Whole(u32, i64),
    /// The text between the quotes.
    Text(u32, Chars),
    /// `true`, `false` or `nil`
    Constant(u32, Constant),
    /// `struct(label: value, ..)`, at `struct`
    Struct(u32, List<Named>),
    /// `bag(value, ..)`, at `bag`
    Bag(u32, List<Oql>),
    /// An operator or a function with its operand, at its first token.
    Unary(u32, Unary, Boxed<Oql>),
    /// An operator or a function with its operands, at the operator or the function's word.
    Binary(u32, Binary, Boxed<Oql>, Boxed<Oql>),
    /// `value / divisor` or `value mod divisor`, at the operator.
    Divide(u32, Division, Boxed<Oql>, i64),
    /// `value like pattern`, at `like`
    Like(u32, Boxed<Oql>, Chars),
    /// `value.label`, at the label.
    Dot(u32, Boxed<Oql>, Chars),
    /// `cast(class, value)` or `brand(class, value)`, at the word.
    Brand(u32, Branding, Chars, Boxed<Oql>),
    /// `match(value, left name: value, right name: value)`, at `match`
    Match(u32, Boxed<Oql>, Boxed<Named>, Boxed<Named>),
    /// `if condition then value else value`, at `if`
    If(u32, Boxed<Oql>, Boxed<Oql>, Boxed<Oql>),
    /// `exists name in source : condition` or `for all name in source : condition`, at the first word.
    Quantified(u32, Quantifier, Boxed<Named>, Boxed<Oql>),
    /// `select ..`, at `select`
    Select(u32, Boxed<Select>),
}

/// A name with an expression: a label with its value, or a bound name with its source or its body.
#[cycle(oql)]
#[derive(Drop)]
pub struct Named {
    /// The number of the name's token.
    pub at: u32,
    /// The name.
    pub name: Chars,
    /// The expression.
    pub of: Oql,
}

/// What stands behind `select`.
#[cycle(oql)]
#[derive(Drop)]
pub struct Select {
    /// Whether `distinct` stands behind `select`.
    pub distinct: bool,
    /// The value for each binding.
    pub value: Oql,
    /// The bound names with their sources, of which there is at least one.
    pub sources: List<Named>,
    /// The condition, if there is one.
    pub filter: Option<Filter>,
    /// The keys, if there are any.
    pub order: Option<Order>,
}

/// `where condition`
#[cycle(oql)]
#[derive(Drop)]
pub struct Filter {
    /// The number of the token `where`.
    pub at: u32,
    /// The condition.
    pub test: Oql,
}

/// `order by key, ..`
#[cycle(oql)]
#[derive(Drop)]
pub struct Order {
    /// The number of the token `order`.
    pub at: u32,
    /// The keys, of which there is at least one.
    pub keys: List<Key>,
}

/// A key of an order.
#[cycle(oql)]
#[derive(Drop)]
pub struct Key {
    /// The value that is compared.
    pub of: Oql,
    /// Which values come first.
    pub direction: Direction,
}

/// A query: definitions, each of which the later ones and the expression see, and the expression.
#[derive(Drop)]
pub struct Query {
    /// The names that are defined.
    pub defines: List<Named>,
    /// The expression.
    pub body: Oql,
}
