// Symbols of grammars, and the actions of words.

/// A symbol of an alternative.
#[derive(Clone, Copy)]
pub enum Symbol {
    /// A token of this kind.
    Token(u32),
    /// The words of this rule.
    Rule(u32),
    /// No token, and this action.
    Action(u32),
}

/// An action of a word, in order.
#[derive(Clone, Copy)]
pub struct Event {
    /// The action.
    pub action: u32,
    /// How many tokens were before it.
    pub at: u32,
}
