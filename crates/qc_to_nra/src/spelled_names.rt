// Names from texts.
ghost use Rattle.std.specs.Prelude.{◌≡◌, IfOk, IsTrue};
ghost use Rattle.qc_containers.specs.Name.{is_name};

use qc_containers::{Chars, Memory, Name, NameFault};
use std::alloc::Global;

// The name that the text is.
pub(crate) fn name_of(alloc: Global, text: &Chars) -> Result<Name, Memory>
    requires { IsTrue (is_name text.now) }
    ensures { IfOk result (λ name. name ≡ text.now) }
{
    match Name::spelled(text.copy(alloc)?) {
        Some(name) => Ok(name),
        None => unreachable!(),
    }
}

// The name of a field of the pass's own.
pub(crate) fn own_name(alloc: Global, text: &str) -> Result<Name, Memory>
    requires { IsTrue (is_name text.now) }
    ensures { IfOk result (λ name. name ≡ text.now) }
{
    match Name::of(alloc, text) {
        Ok(name) => Ok(name),
        Err(NameFault::Memory) => Err(Memory),
        Err(NameFault::BadName) => unreachable!(),
    }
}
