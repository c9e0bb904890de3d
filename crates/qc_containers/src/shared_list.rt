// Lists that their copies share.
ghost use Rattle.std.specs.Prelude.{◌≡◌, [], ◌∷◌, ◌++◌, ◌≤◌, ◌-◌, length, take, slice_get, IfOk, IfErr, OnOk, OnErr};
ghost use Rattle.std.specs.List.{insert};
ghost use Rattle.std.specs.List.Sorted.{IsSorted, IsStable};
ghost use Rattle.std.specs.Option.{option_copied};

use crate::memory::Memory;
use crate::share::Share;
use std::alloc::Global;
use std::marker::Model;
use std::rc::Rc;

/// A list that grows at its end and that its copies share. Clauses see the list of its items. What changes a list that
/// is shared copies it first, and shares its items; the others stay as they are.
#[derive(Drop)]
pub struct SharedList<T> {
    items: Option<Rc<Vec<T>>>,
    alloc: Global,
}

impl<T> Model for SharedList<T> {
    ghost use Rattle.std.specs.Prelude.{List};
    ghost use Rattle.std.specs.Coded.{coded_list};
    ghost use Rattle.qc_containers.specs.Sharing.{list_of};

    ghost Value = { List T };

    ghost coded = { coded_list T.code };

    ghost view = { λ list. list_of list.items };
}

impl<T> SharedList<T> {
    /// A list without items, which takes no memory.
    pub fn new(alloc: Global) -> SharedList<T>
        ensures { result ≡ [] }
    {
        SharedList { items: None, alloc }
    }

    /// How many items there are.
    pub fn len(&self) -> usize
        ensures { result ≡ length self.now }
    {
        self.as_slice().len()
    }

    /// The item at a place, counted from 0: `None` exactly past the end.
    pub fn get(&self, at: usize) -> Option<&T>
        ensures { option_copied result ≡ slice_get self.now at }
    {
        self.as_slice().get(at)
    }

    /// The items in order.
    pub fn as_slice(&self) -> &[T]
        ensures { result.now ≡ self.now }
    {
        match &self.items {
            Some(items) => items.as_slice(),
            None => &[],
        }
    }

    // Whether no other list has these items. It only saves a copy, so no clause speaks of it.
    fn is_sole_owner(&self) -> bool {
        match &self.items {
            Some(items) => Rc::strong_count(items) == 1,
            None => false,
        }
    }
}

impl<T: Drop> Share for SharedList<T> {
    fn share(&self, alloc: Global) -> Result<SharedList<T>, Memory> {
        match &self.items {
            Some(items) => {
                let items = items.clone()?;
                Ok(SharedList {
                    items: Some(items),
                    alloc,
                })
            }
            None => Ok(SharedList { items: None, alloc }),
        }
    }
}

impl<T: Share + Drop> SharedList<T> {
    /// Puts the item last. `Err` hands it back unchanged for want of memory, and the list is as before.
    pub fn push(&mut self, item: T) -> Result<(), T>
        ensures ok { OnOk result (self.new ≡ self.old ++ item ∷ []) }
        ensures err { OnErr result (self.new ≡ self.old) }
        ensures back { IfErr result (λ same. same ≡ item) }
    {
        let end = self.len();
        self.insert(end, item)
    }

    /// Puts the item at a place, counted from 0, before those that stand there and after it. `Err` hands it back
    /// unchanged for want of memory, and the list is as before.
    pub fn insert(&mut self, at: usize, item: T) -> Result<(), T>
        requires { at ≤ length self.old }
        ensures ok { OnOk result (self.new ≡ insert self.old at item) }
        ensures err { OnErr result (self.new ≡ self.old) }
        ensures back { IfErr result (λ same. same ≡ item) }
    {
        if self.own().is_err() {
            return Err(item);
        }
        let Some(items) = &mut self.items else {
            return Err(item);
        };
        let Some(items) = Rc::get_mut(items) else {
            return Err(item);
        };
        match items.insert(at, item) {
            Ok(()) => Ok(()),
            Err(refused) => Err(refused.value),
        }
    }

    /// Puts the item last, or drops it for want of memory, and then the list is as before.
    pub fn add(&mut self, item: T) -> Result<(), Memory>
        ensures ok { OnOk result (self.new ≡ self.old ++ item ∷ []) }
        ensures err { OnErr result (self.new ≡ self.old) }
    {
        match self.push(item) {
            Ok(()) => Ok(()),
            Err(_) => Err(Memory),
        }
    }

    /// Takes the last item away: `Ok(None)` exactly where there is none. `Err` for want of memory, and the list is as
    /// before.
    pub fn pop(&mut self) -> Result<Option<T>, Memory>
        ensures last { IfOk result (λ last. last ≡ slice_get self.old (length self.old - 1)) }
        ensures rest { OnOk result (self.new ≡ take (length self.old - 1) self.old) }
        ensures err { OnErr result (self.new ≡ self.old) }
    {
        if self.len() == 0 {
            return Ok(None);
        }
        self.own()?;
        let Some(items) = &mut self.items else {
            return Err(Memory);
        };
        match Rc::get_mut(items) {
            Some(items) => Ok(items.pop()),
            None => Err(Memory),
        }
    }

    /// The items: those of a sole owner are moved, and those of a shared list are shared. `Err` hands the list back
    /// unchanged for want of memory.
    pub fn take_apart(self) -> Result<Vec<T>, SharedList<T>>
        ensures ok { IfOk result (λ items. items.items ≡ self) }
        ensures back { IfErr result (λ same. same ≡ self) }
    {
        let alloc = self.alloc;
        let Some(items) = self.items else {
            return Ok(Vec::new(alloc));
        };
        match Rc::try_unwrap(items) {
            Ok(items) => Ok(items),
            Err(items) => match copied(alloc, items.as_slice()) {
                Ok(copies) => Ok(copies),
                Err(_) => Err(SharedList {
                    items: Some(items),
                    alloc,
                }),
            },
        }
    }

    // Makes this list the sole owner of its items, by a copy where it is not. The list stays the same. After `Ok`
    // there is an owner and `Rc::get_mut` gives the items, which no clause can say: callers answer want of memory
    // where it does not.
    fn own(&mut self) -> Result<(), Memory>
        ensures { self.new ≡ self.old }
    {
        if self.is_sole_owner() {
            return Ok(());
        }
        let items = copied(self.alloc, self.as_slice())?;
        self.items = Some(Rc::new(self.alloc, items)?);
        Ok(())
    }
}

impl<T: Ord + Share + Drop> SharedList<T> {
    /// Sorts the items, and keeps the order of those that tie. `Err` leaves them as before.
    pub fn sort(&mut self) -> Result<(), Memory>
        ensures sorted { OnOk result (IsSorted T.cmp self.new) }
        ensures stable { IsStable T.cmp self.old self.new }
        ensures err { OnErr result (self.new ≡ self.old) }
    {
        self.own()?;
        let Some(items) = &mut self.items else {
            return Err(Memory);
        };
        let Some(items) = Rc::get_mut(items) else {
            return Err(Memory);
        };
        match items.sort() {
            Ok(()) => Ok(()),
            Err(_) => Err(Memory),
        }
    }
}

// Each item again.
fn copied<T: Share + Drop>(alloc: Global, items: &[T]) -> Result<Vec<T>, Memory>
    ensures { IfOk result (λ copies. copies.items ≡ items.now) }
{
    let mut copies = Vec::with_capacity(alloc, items.len())?;
    for item in items {
        copies.push(item.share(alloc)?)?;
    }
    Ok(copies)
}
