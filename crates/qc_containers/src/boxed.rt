// Boxes without a pointer in what clauses see.
ghost use Rattle.std.specs.Prelude.{◌≡◌, IfOk, IfErr};

use crate::memory::Memory;
use crate::share::Share;
use std::alloc::Global;
use std::marker::Model;
use std::rc::Rc;

/// A value on the heap, which its copies share. Clauses see the value and no pointer, so two boxes of the same value
/// are the same.
#[derive(Drop)]
pub struct Boxed<T> {
    inner: Rc<T>,
}

impl<T> Model for Boxed<T> {
    ghost Value = { T };

    ghost coded = { T.code };

    ghost view = { λ boxed. boxed.inner.value };
}

impl<T: Drop> Boxed<T> {
    /// A box of the value, which is dropped where memory is wanting.
    pub fn of(alloc: Global, value: T) -> Result<Boxed<T>, Memory>
        ensures { IfOk result (λ boxed. boxed ≡ value) }
    {
        let inner = Rc::new(alloc, value)?;
        Ok(Boxed { inner })
    }
}

impl<T> Boxed<T> {
    /// The value.
    pub fn get(&self) -> &T
        ensures { result.now ≡ self.now }
    {
        self.inner.as_ref()
    }
}

impl<T: Drop> Share for Boxed<T> {
    fn share(&self, alloc: Global) -> Result<Boxed<T>, Memory> {
        let inner = self.inner.clone()?;
        Ok(Boxed { inner })
    }
}

impl<T: Share + Drop> Boxed<T> {
    /// The value: that of a sole owner is moved, and one that boxes share is shared. `Err` hands the box back unchanged
    /// for want of memory.
    pub fn into_inner(self, alloc: Global) -> Result<T, Boxed<T>>
        ensures ok { IfOk result (λ value. value ≡ self) }
        ensures back { IfErr result (λ same. same ≡ self) }
    {
        match Rc::try_unwrap(self.inner) {
            Ok(value) => Ok(value),
            Err(inner) => match inner.as_ref().share(alloc) {
                Ok(value) => Ok(value),
                Err(_) => Err(Boxed { inner }),
            },
        }
    }
}
