// What variables stand for.
ghost use Rattle.std.specs.Option.{option_copied};
ghost use Rattle.std.specs.Prelude.{◌≡◌, [], IfErr, OnErr, OnOk};
ghost use Rattle.qc_nnrc.specs.Variables.{look, put};
ghost use Rattle.qc_nnrc.specs.inner.Places.{place_of};

use qc_data::Datum;
use qc_types::Ty;
use std::alloc::Global;
use std::marker::Model;

/// The types of variables.
pub type Scope = Bindings<Ty>;

/// The values of variables.
pub type Frame = Bindings<Datum>;

/// What variables stand for, which are numbers. Clauses see the list of pairs.
#[derive(Drop)]
pub struct Bindings<T> {
    pairs: Vec<(u128, T)>,
}

impl<T> Model for Bindings<T> {
    ghost use Rattle.std.specs.Prelude.{List, ℕ};
    ghost use Rattle.std.specs.Coded.{coded_list, coded×, coded_ℕ};

    ghost Value = { List (ℕ × T) };

    ghost coded = { coded_list (coded× coded_ℕ T.code) };

    ghost view = { λ bindings. bindings.pairs.items };
}

impl<T> Bindings<T> {
    /// No bindings, which take no memory.
    pub fn new(alloc: Global) -> Bindings<T>
        ensures { result ≡ [] }
    {
        Bindings {
            pairs: Vec::new(alloc),
        }
    }

    /// What a variable stands for: `None` exactly where nothing was put at it.
    pub fn get(&self, variable: u128) -> Option<&T>
        ensures { option_copied result ≡ look variable self.now }
    {
        for pair in self.pairs.as_slice() {
            if pair.0 == variable {
                return Some(&pair.1);
            }
        }
        None
    }
}

impl<T: Drop> Bindings<T> {
    /// Puts what a variable stands for, in place of what was put before. `Err` hands it back unchanged for want of
    /// memory, and the bindings are as before.
    #[tactic(auto, using(crate::proofs::Places::put_there, crate::proofs::Places::put_last))]
    pub fn put(&mut self, variable: u128, value: T) -> Result<(), T>
        ensures ok { OnOk result (self.new ≡ put variable value self.old) }
        ensures err { OnErr result (self.new ≡ self.old) }
        ensures back { IfErr result (λ same. same ≡ value) }
    {
        let at = place(self.pairs.as_slice(), variable);
        if at < self.pairs.len() {
            self.pairs[at] = (variable, value);
            return Ok(());
        }
        match self.pairs.push((variable, value)) {
            Ok(()) => Ok(()),
            Err(refused) => Err(refused.value.1),
        }
    }
}

// How many pairs stand before that of the variable.
fn place<T>(pairs: &[(u128, T)], variable: u128) -> usize
    ensures { result ≡ place_of variable pairs.now }
{
    let mut at = 0;
    for pair in pairs {
        if pair.0 == variable {
            return at;
        }
        at += 1;
    }
    at
}
