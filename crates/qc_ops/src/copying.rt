// Operators again.
ghost use Rattle.std.specs.Prelude.{◌≡◌, IfOk};

use crate::op::{Keys, Names, Unary};
use qc_containers::{Memory, Name};
use std::alloc::Global;

impl Unary {
    /// The same operator.
    pub fn copy(&self, alloc: Global) -> Result<Unary, Memory>
        ensures { IfOk result (λ same. same ≡ self.now) }
    {
        match self {
            Unary::Not => Ok(Unary::Not),
            Unary::Neg => Ok(Unary::Neg),
            Unary::Abs => Ok(Unary::Abs),
            Unary::DivBy(k) => Ok(Unary::DivBy(*k)),
            Unary::ModBy(k) => Ok(Unary::ModBy(*k)),
            Unary::Count => Ok(Unary::Count),
            Unary::Sum => Ok(Unary::Sum),
            Unary::Min => Ok(Unary::Min),
            Unary::Max => Ok(Unary::Max),
            Unary::Avg => Ok(Unary::Avg),
            Unary::Element => Ok(Unary::Element),
            Unary::Flatten => Ok(Unary::Flatten),
            Unary::Distinct => Ok(Unary::Distinct),
            Unary::Single => Ok(Unary::Single),
            Unary::Rec(name) => Ok(Unary::Rec(name.copy(alloc)?)),
            Unary::Dot(name) => Ok(Unary::Dot(name.copy(alloc)?)),
            Unary::Project(names) => Ok(Unary::Project(copy_names(alloc, names.as_slice())?)),
            Unary::Left => Ok(Unary::Left),
            Unary::Right => Ok(Unary::Right),
            Unary::Brand(name) => Ok(Unary::Brand(name.copy(alloc)?)),
            Unary::Unbrand => Ok(Unary::Unbrand),
            Unary::Cast(name) => Ok(Unary::Cast(name.copy(alloc)?)),
            Unary::Order(keys) => Ok(Unary::Order(copy_keys(alloc, keys.as_slice())?)),
            Unary::Group(name, names) => {
                let name = name.copy(alloc)?;
                Ok(Unary::Group(name, copy_names(alloc, names.as_slice())?))
            }
            Unary::Like(pattern) => Ok(Unary::Like(pattern.copy(alloc)?)),
        }
    }
}

// The same names.
fn copy_names(alloc: Global, names: &[Name]) -> Result<Names, Memory>
    ensures { IfOk result (λ same. same ≡ names.now) }
{
    let mut all = Names::new(alloc);
    for name in names {
        all.add(name.copy(alloc)?)?;
    }
    Ok(all)
}

// The same keys.
fn copy_keys(alloc: Global, keys: &[(Name, bool)]) -> Result<Keys, Memory>
    ensures { IfOk result (λ same. same ≡ keys.now) }
{
    let mut all = Keys::new(alloc);
    for key in keys {
        all.add((key.0.copy(alloc)?, key.1))?;
    }
    Ok(all)
}
