// Grammars as tables.
ghost use Rattle.std.specs.Prelude.{◌≡◌, ◌≤◌, ◌+◌, [], true, length, is_some};
ghost use Rattle.std.specs.Option.{option_map};
ghost use Rattle.qc_grammar.specs.inner.Machine as spec;
ghost use Rattle.qc_grammar.specs.inner.Turns.{Opens};

use crate::symbol::Symbol;

/// A grammar as numbers. Rules, kinds and actions have numbers of their own, the start is the rule 0, and what comes
/// next is 0 at the end, or a kind and 1.
#[derive(Clone, Copy)]
pub struct Table<'a> {
    /// The alternatives, two numbers a step: each symbol in order (0 and a token, 1 and a rule, 2 and an action), and
    /// at the end another.
    pub steps: &'a [u8],
    /// How many may come next.
    pub width: u32,
    /// For each rule, by what comes next: 0, or the place and 1 in `steps` of the alternative that is chosen.
    pub turns: &'a [u16],
}

impl<'a> Table<'a> {
    /// The place of the alternative that is chosen on this and 1, or 0.
    fn turn(self, rule: u32, next: u64) -> usize
        ensures { result ≡ spec.turn (spec.row (spec.table self.entry) rule) next }
    {
        if next >= u64::from(self.width) {
            return 0;
        }
        let at = u64::from(rule) * u64::from(self.width) + next;
        match self.turns.get(at as usize) {
            Some(turn) => usize::from(*turn),
            None => 0,
        }
    }

    /// The place of the alternative that is chosen on this.
    pub(crate) fn choose(self, rule: u32, next: u64) -> Option<usize>
        ensures { option_map (spec.body_at (spec.table self.entry)) result
            ≡ spec.choose (spec.table self.entry) rule next }
    {
        match self.turn(rule, next) {
            0 => None,
            turn => Some(turn - 1),
        }
    }

    /// The symbol at this place of an alternative, or `None` at its end.
    pub(crate) fn symbol(self, place: usize) -> Option<Symbol>
        ensures same { Opens (spec.table self.entry) place result }
        ensures within { is_some result ≡ true → place + 2 ≤ length (spec.table self.entry).steps }
    {
        if self.steps.len().saturating_sub(place) < 2 {
            return None;
        }
        symbol(self.steps[place], self.steps[place + 1])
    }

    /// Whether an alternative ends at this place. `false` may be said of an end that the steps lack.
    pub(crate) fn ends(self, place: usize) -> bool
        ensures { result ≡ true → spec.body_at (spec.table self.entry) place ≡ [] }
    {
        place < self.steps.len() && self.steps[place] > 2
    }
}

/// The symbol that a step tells, or `None` at the end of an alternative.
fn symbol(step: u8, value: u8) -> Option<Symbol>
    ensures { result ≡ spec.symbol step value }
{
    let value = u32::from(value);
    match step {
        0 => Some(Symbol::Token(value)),
        1 => Some(Symbol::Rule(value)),
        2 => Some(Symbol::Action(value)),
        _ => None,
    }
}
