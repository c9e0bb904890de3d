// The functions of the runtime, in one table.
ghost use Rattle.std.specs.Prelude.{◌≡◌, ◌≢◌, ℕ, List, IfSome, None};
ghost use Rattle.qc_rt.specs.Table.{arguments_of, function_of, operands_of, parameters_of, spelled_by, word_of};
ghost use Rattle.qc_rt.specs.declared.function.Rt.{Rt};

/// A function of the runtime.
#[derive(Clone, Copy, Debug, PartialEq, Eq)]
pub enum Rt {
    /// `not`: the other truth value.
    Not,
    /// `neg`: the negative of an integer.
    Neg,
    /// `abs`: the absolute value of an integer.
    Abs,
    /// `divby`: the quotient of an integer by a divisor, toward zero.
    DivBy,
    /// `modby`: the remainder of that quotient.
    ModBy,
    /// `count`: how many members an array has.
    Count,
    /// `sum`: the total of an array of integers.
    Sum,
    /// `min`: left of the least of an array of integers; right of null if it is empty.
    Min,
    /// `max`: left of the greatest of an array of integers; right of null if it is empty.
    Max,
    /// `avg`: left of the total of an array of integers by their number; right of null if it is empty.
    Avg,
    /// `element`: left of the only member of an array; else right of null.
    Element,
    /// `flatten`: the members of the members of an array of arrays.
    Flatten,
    /// `distinct`: the members of an array that are the same as none before them.
    Distinct,
    /// `single`: the array of the one value.
    Single,
    /// `rec`: the object of the value at a name.
    Rec,
    /// `dot`: the value of a plain object at a name.
    Dot,
    /// `project`: the members of a plain object at some names.
    Project,
    /// `left`: the value on the left side.
    Left,
    /// `right`: the value on the right side.
    Right,
    /// `brand`: the value of a class whose content is the value.
    Brand,
    /// `unbrand`: the content of a class's value.
    Unbrand,
    /// `cast`: left of a class's value if its class is one of a list; else right of null.
    Cast,
    /// `order`: an array of plain objects in the order of their values at some names, each rising or falling.
    Order,
    /// `group`: an array of plain objects by their values at some names, with those that have them at a name.
    Group,
    /// `like`: whether a text is like a pattern.
    Like,
    /// `eq`: whether two values are the same, where the order of an array's members does not matter.
    Eq,
    /// `lt`: whether the first of two integers or two texts is below the second.
    Lt,
    /// `le`: whether the first of two integers or two texts is not above the second.
    Le,
    /// `and`: whether both truth values are true.
    And,
    /// `or`: whether one of two truth values is true.
    Or,
    /// `add`: the sum of two integers.
    Add,
    /// `sub`: the difference of two integers.
    Sub,
    /// `mul`: the product of two integers.
    Mul,
    /// `least`: the lesser of two integers.
    Least,
    /// `greatest`: the greater of two integers.
    Greatest,
    /// `union`: the members of the first array and then those of the second.
    Union,
    /// `except`: the members of the first array without as many copies of each as the second has.
    Except,
    /// `intersect`: the members of the first array, of each as many copies as the second has.
    Intersect,
    /// `member`: whether the second, an array, has a member that is the same as the first.
    Member,
    /// `cat`: the members of two plain objects, where both have a name the second's.
    Cat,
    /// `merge`: the array of that object if the two have the same values at names that they share; else none.
    Merge,
    /// `glue`: the first text and then the second.
    Glue,
    /// `nothing`: the object of no members.
    Nothing,
    /// `isleft`: whether a value on a side is on the left one.
    IsLeft,
    /// `payload`: the value that is on a side.
    Payload,
}

// All functions.
const ALL: &[Rt] = &[
    Rt::Not,
    Rt::Neg,
    Rt::Abs,
    Rt::DivBy,
    Rt::ModBy,
    Rt::Count,
    Rt::Sum,
    Rt::Min,
    Rt::Max,
    Rt::Avg,
    Rt::Element,
    Rt::Flatten,
    Rt::Distinct,
    Rt::Single,
    Rt::Rec,
    Rt::Dot,
    Rt::Project,
    Rt::Left,
    Rt::Right,
    Rt::Brand,
    Rt::Unbrand,
    Rt::Cast,
    Rt::Order,
    Rt::Group,
    Rt::Like,
    Rt::Eq,
    Rt::Lt,
    Rt::Le,
    Rt::And,
    Rt::Or,
    Rt::Add,
    Rt::Sub,
    Rt::Mul,
    Rt::Least,
    Rt::Greatest,
    Rt::Union,
    Rt::Except,
    Rt::Intersect,
    Rt::Member,
    Rt::Cat,
    Rt::Merge,
    Rt::Glue,
    Rt::Nothing,
    Rt::IsLeft,
    Rt::Payload,
];

impl Rt {
    /// The word by which a program calls the function. No two functions have one word.
    #[tactic(auto, using(crate::proofs::Words::one_word))]
    pub fn word(self) -> &'static str
        ensures value { result.now ≡ word_of self }
        ensures one { (other : Rt) → word_of other ≡ word_of self → other ≡ self }
    {
        match self {
            Rt::Not => "not",
            Rt::Neg => "neg",
            Rt::Abs => "abs",
            Rt::DivBy => "divby",
            Rt::ModBy => "modby",
            Rt::Count => "count",
            Rt::Sum => "sum",
            Rt::Min => "min",
            Rt::Max => "max",
            Rt::Avg => "avg",
            Rt::Element => "element",
            Rt::Flatten => "flatten",
            Rt::Distinct => "distinct",
            Rt::Single => "single",
            Rt::Rec => "rec",
            Rt::Dot => "dot",
            Rt::Project => "project",
            Rt::Left => "left",
            Rt::Right => "right",
            Rt::Brand => "brand",
            Rt::Unbrand => "unbrand",
            Rt::Cast => "cast",
            Rt::Order => "order",
            Rt::Group => "group",
            Rt::Like => "like",
            Rt::Eq => "eq",
            Rt::Lt => "lt",
            Rt::Le => "le",
            Rt::And => "and",
            Rt::Or => "or",
            Rt::Add => "add",
            Rt::Sub => "sub",
            Rt::Mul => "mul",
            Rt::Least => "least",
            Rt::Greatest => "greatest",
            Rt::Union => "union",
            Rt::Except => "except",
            Rt::Intersect => "intersect",
            Rt::Member => "member",
            Rt::Cat => "cat",
            Rt::Merge => "merge",
            Rt::Glue => "glue",
            Rt::Nothing => "nothing",
            Rt::IsLeft => "isleft",
            Rt::Payload => "payload",
        }
    }

    /// How many parameters the function takes before its operands.
    pub fn parameters(self) -> usize
        ensures { result ≡ parameters_of self }
    {
        match self {
            Rt::Order | Rt::Group => 2,
            Rt::DivBy
            | Rt::ModBy
            | Rt::Rec
            | Rt::Dot
            | Rt::Project
            | Rt::Brand
            | Rt::Cast
            | Rt::Like => 1,
            _ => 0,
        }
    }

    /// How many operands the function takes.
    pub fn operands(self) -> usize
        ensures { result ≡ operands_of self }
    {
        match self {
            Rt::Nothing => 0,
            Rt::Eq
            | Rt::Lt
            | Rt::Le
            | Rt::And
            | Rt::Or
            | Rt::Add
            | Rt::Sub
            | Rt::Mul
            | Rt::Least
            | Rt::Greatest
            | Rt::Union
            | Rt::Except
            | Rt::Intersect
            | Rt::Member
            | Rt::Cat
            | Rt::Merge
            | Rt::Glue => 2,
            _ => 1,
        }
    }

    /// How many arguments the function takes: parameters and operands.
    pub fn arguments(self) -> usize
        ensures { result ≡ arguments_of self }
    {
        self.parameters() + self.operands()
    }

    /// The function of the word: `None` exactly where there is none.
    pub fn of_word(word: &str) -> Option<Rt>
        ensures value { result ≡ function_of word.now }
        ensures some { IfSome result (λ function. word_of function ≡ word.now) }
        ensures none { result ≡ None → (function : Rt) → word_of function ≢ word.now }
    {
        first_of(word, ALL)
    }
}

// The first of the functions that has the word.
#[tactic(auto, using(crate::proofs::Words::spelled_more))]
fn first_of(word: &str, functions: &[Rt]) -> Option<Rt>
    ensures { result ≡ spelled_by word.now functions.now }
{
    for function in functions {
        if function.word() == word {
            return Some(*function);
        }
    }
    None
}
