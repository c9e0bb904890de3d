// Classes by their places in the order listed, counted from 0, with an index of their names.
ghost use Rattle.std.specs.Prelude.{◌≡◌, ◌<◌, [], ◌∷◌, Some, false, length, reverse, slice_get, IfOk, IsTrue};
ghost use Rattle.std.specs.Option.{option_copied};
ghost use Rattle.qc_types.specs.Classes.{below, class_of, common, listed};
ghost use Rattle.qc_types.specs.Schemas.{good_classes};
ghost use Rattle.qc_types.specs.inner.Places.{EntryAt, IsJump, New, Within, earlier, first_in, name_at, on_path};
ghost use Rattle.qc_types.specs.inner.Places.{parent_at, parent_place, path, place_of, up};

use crate::faults::ClassFault;
use crate::ty::ClassDef;
use qc_containers::{Memory, Name, NameMap, Share, SharedList};
use std::alloc::Global;
use std::marker::Model;

// A class beside its parent's place and its jump.
#[derive(Drop)]
pub(crate) struct Entry {
    def: ClassDef,
    parent: Option<usize>,
    jump: Option<Jump>,
}

// A way upward from a class: over how many others it goes, and to which place.
#[derive(Clone, Copy)]
pub(crate) struct Jump {
    over: usize,
    to: usize,
}

// A place in the order listed.
#[derive(Clone, Copy)]
pub(crate) struct Place {
    at: usize,
}

// Classes of distinct names, found by name and by place. Clauses see the classes, the last listed first.
#[derive(Drop)]
pub(crate) struct ClassIndex {
    entries: SharedList<Entry>,
    places: NameMap<Place>,
}

impl Model for ClassIndex {
    ghost use Rattle.std.specs.Prelude.{List};
    ghost use Rattle.qc_types.specs.declared.ty.ClassDef.{ClassDef};
    ghost use Rattle.qc_types.specs.inner.Coding.{classes_code};
    ghost use Rattle.qc_types.specs.inner.Places.{IsIndex, defs_of};

    ghost Value = { List ClassDef };

    ghost coded = { classes_code };

    ghost view = { λ index. defs_of index.entries };

    ghost invariant = { λ index. IsIndex index.entries index.places };
}

impl ClassIndex {
    // No classes. It takes no memory.
    pub(crate) fn empty(alloc: Global) -> ClassIndex
        ensures { result ≡ [] }
    {
        ClassIndex {
            entries: SharedList::new(alloc),
            places: NameMap::new(alloc),
        }
    }

    // The classes of a list in which each parent stands before its children. `BadClasses` only where a name repeats.
    pub(crate) fn of(alloc: Global, defs: Vec<ClassDef>) -> Result<ClassIndex, ClassFault>
        ensures ok { IfOk result (λ index. index ≡ reverse defs.items) }
        ensures bad { result ≡ Err ClassFault.BadClasses → good_classes (reverse defs.items) ≡ false }
    {
        let mut index = ClassIndex::empty(alloc);
        let mut left = last_first(alloc, defs)?;
        while let Some(def) = left.pop() {
            match index.with(alloc, def) {
                Ok(more) => index = more,
                Err(fault) => return Err(fault),
            }
        }
        Ok(index)
    }

    // The index with one class more, the last listed. `BadClasses` only where a class has its name.
    fn with(self, alloc: Global, def: ClassDef) -> Result<ClassIndex, ClassFault>
        ensures ok { IfOk result (λ index. index ≡ def ∷ self) }
        ensures bad { result ≡ Err ClassFault.BadClasses → IsTrue (listed self def.name) }
    {
        if self.place(def.name.as_str()).is_some() {
            return Err(ClassFault::BadClasses);
        }
        let parent = self.place_over(&def);
        let jump = self.jump_over(parent);
        let name = def.name.copy(alloc)?;
        let at = self.entries.len();
        let mut entries = self.entries;
        let mut places = self.places;
        if places.put(name, Place { at }).is_err() {
            return Err(ClassFault::Memory);
        }
        entries.add(Entry { def, parent, jump })?;
        Ok(ClassIndex { entries, places })
    }

    // How many classes there are.
    pub(crate) fn len(&self) -> usize
        ensures { result ≡ length self.now }
    {
        self.entries.len()
    }

    // The class at a place: `None` exactly past the end.
    pub(crate) fn at(&self, at: usize) -> Option<&ClassDef>
        ensures { option_copied result ≡ slice_get (reverse self.now) at }
    {
        match self.entry(at) {
            Some(entry) => Some(&entry.def),
            None => None,
        }
    }

    // The class of a name: `None` exactly where no class has it.
    pub(crate) fn find(&self, name: &str) -> Option<&ClassDef>
        ensures { option_copied result ≡ class_of self.now name.now }
    {
        match self.place(name) {
            Some(place) => self.at(place),
            None => None,
        }
    }

    // The class of a name among those listed before a place.
    pub(crate) fn before(&self, at: usize, name: &str) -> Option<&ClassDef>
        ensures { option_copied result ≡ class_of (earlier self.now at) name.now }
    {
        match self.place(name) {
            Some(place) => { if place < at { self.at(place) } else { None } }
            None => None,
        }
    }

    // The place of the class of a name.
    pub(crate) fn place(&self, name: &str) -> Option<usize>
        ensures value { result ≡ place_of self.now name.now }
        ensures names { New self.now }
    {
        match self.places.get(name) {
            Some(place) => Some(place.at),
            None => None,
        }
    }

    // The place of a class's parent, if it has one that is listed.
    fn place_over(&self, def: &ClassDef) -> Option<usize>
        ensures { result ≡ parent_place self.now def.now.parent }
    {
        match &def.parent {
            Some(parent) => self.place(parent.as_str()),
            None => None,
        }
    }

    // The place of the parent of the class at a place.
    pub(crate) fn parent(&self, at: usize) -> Option<usize>
        ensures { result ≡ parent_at self.now at }
    {
        match self.entry(at) {
            Some(entry) => entry.parent,
            None => None,
        }
    }

    // The jump of the class at a place.
    fn jump(&self, at: usize) -> Option<Jump>
        ensures { IsJump self.now (parent_at self.now at) result }
    {
        match self.entry(at) {
            Some(entry) => entry.jump,
            None => None,
        }
    }

    // The class at a place beside its parent's place and its jump.
    fn entry(&self, at: usize) -> Option<&Entry>
        ensures { EntryAt self.now at (option_copied result) }
    {
        self.entries.get(at)
    }

    // The jump of a class that is listed next, by its parent's place: as far as the parent's jump and the jump after it
    // where both go over as many classes, and else to the parent. So jumps go over 0, 2, 6, 14 .. classes, and the way
    // to any ancestor has at most a few times as many steps as the number of classes between has bits.
    fn jump_over(&self, parent: Option<usize>) -> Option<Jump>
        ensures { IsJump self.now parent result }
    {
        let to = parent?;
        self.two_jumps(to).or(Some(Jump { over: 0, to }))
    }

    // The jump of the class at a place and the jump after it as one jump of a child, if both go over as many classes.
    fn two_jumps(&self, at: usize) -> Option<Jump>
        ensures { IsJump self.now (Some at) result }
    {
        let first = self.jump(at)?;
        let second = self.jump(first.to)?;
        if first.over != second.over {
            return None;
        }
        Some(Jump {
            over: first.over + second.over + 2,
            to: second.to,
        })
    }

    // Both are listed, and `a` is `b` or `b` is an ancestor of `a`.
    pub(crate) fn is_below(&self, a: &Name, b: &Name) -> bool
        ensures { result ≡ below self.now a.now b.now }
    {
        let Some(above) = self.place(b.as_str()) else {
            return false;
        };
        match self.place(a.as_str()) {
            Some(place) => self.is_on_path(place, above),
            None => false,
        }
    }

    // Whether the class at `above` is the one at the place or an ancestor of it.
    fn is_on_path(&self, place: usize, above: usize) -> bool
        requires place { place < length self.now }
        requires names { New self.now }
        ensures { result ≡ on_path self.now above (Some place) }
    {
        let mut at = place;
        while at > above {
            match self.climb_toward(at, above) {
                Some(next) => at = next,
                None => return false,
            }
        }
        at == above
    }

    // A place upward from one after `above`, with no class between that stands at `above`: its jump's if that is not
    // before `above`, since places fall on the way up, and else its parent's.
    fn climb_toward(&self, at: usize, above: usize) -> Option<usize>
        requires at { at < length self.now }
        requires above { above < at }
        requires names { New self.now }
        ensures before { Within at result }
        ensures path { on_path self.now above (Some at) ≡ on_path self.now above result }
    {
        match self.jump(at) {
            Some(jump) if jump.to >= above => Some(jump.to),
            _ => self.parent(at),
        }
    }

    // The class where both are one, and else the first from `a` upward that `b` is below.
    pub(crate) fn common<'a>(&'a self, a: &'a Name, b: &Name) -> Option<&'a Name>
        ensures { option_copied result ≡ common self.now a.now b.now }
    {
        if a.as_str() == b.as_str() {
            return Some(a);
        }
        let first = self.place(a.as_str())?;
        let second = self.place(b.as_str())?;
        self.name(self.meet(first, second))
    }

    // The place of the first class from the one at `a` upward that is that at `b` or above it.
    fn meet(&self, a: usize, b: usize) -> Option<usize>
        requires a { a < length self.now }
        requires b { b < length self.now }
        requires names { New self.now }
        ensures { name_at self.now result ≡ first_in (path self.now (Some b)) (path self.now (Some a)) }
    {
        let mut at = a;
        while !self.is_on_path(b, at) {
            at = self.climb_apart(at, b)?;
        }
        Some(at)
    }

    // A place upward from one that is not on the path from `b`, with no class between that is on it: its jump's if that
    // is not on it either, since all above a class of the path are on it, and else its parent's.
    fn climb_apart(&self, at: usize, b: usize) -> Option<usize>
        requires at { at < length self.now }
        requires b { b < length self.now }
        requires names { New self.now }
        requires apart { on_path self.now at (Some b) ≡ false }
        ensures before { Within at result }
        ensures path { first_in (path self.now (Some b)) (path self.now (Some at))
            ≡ first_in (path self.now (Some b)) (path self.now result) }
    {
        match self.jump(at) {
            Some(jump) if !self.is_on_path(b, jump.to) => Some(jump.to),
            _ => self.parent(at),
        }
    }

    // The name of the class at a place.
    fn name(&self, at: Option<usize>) -> Option<&Name>
        ensures { option_copied result ≡ name_at self.now at }
    {
        match self.at(at?) {
            Some(def) => Some(&def.name),
            None => None,
        }
    }
}

impl Share for ClassIndex {
    fn share(&self, alloc: Global) -> Result<ClassIndex, Memory> {
        let entries = self.entries.share(alloc)?;
        let places = self.places.share(alloc)?;
        Ok(ClassIndex { entries, places })
    }
}

impl Share for Entry {
    fn share(&self, alloc: Global) -> Result<Entry, Memory> {
        let def = self.def.share(alloc)?;
        Ok(Entry {
            def,
            parent: self.parent,
            jump: self.jump,
        })
    }
}

impl Share for Place {
    fn share(&self, _alloc: Global) -> Result<Place, Memory> {
        Ok(*self)
    }
}

// The list in the other order.
fn last_first(alloc: Global, mut defs: Vec<ClassDef>) -> Result<Vec<ClassDef>, Memory>
    ensures { IfOk result (λ made. made.items ≡ reverse defs.items) }
{
    let mut made = Vec::new(alloc);
    while let Some(def) = defs.pop() {
        made.push(def)?;
    }
    Ok(made)
}
