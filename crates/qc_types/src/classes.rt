// Classes.
ghost use Rattle.std.specs.Prelude.{◌≡◌, [], false, length, reverse, slice_get, IfOk, IsTrue};
ghost use Rattle.std.specs.Option.{option_copied};
ghost use Rattle.qc_types.specs.Classes.{below, class_of};
ghost use Rattle.qc_types.specs.Schemas.{good_classes};

use crate::faults::ClassFault;
use crate::goodness::is_good;
use crate::index::ClassIndex;
use crate::ty::ClassDef;
use qc_containers::{Memory, Name, Share};
use std::alloc::Global;
use std::marker::Model;

/// A good list of classes. Clauses see the classes, the last listed first.
#[derive(Drop)]
pub struct Classes {
    index: ClassIndex,
}

impl Model for Classes {
    ghost use Rattle.std.specs.Prelude.{List, IsTrue};
    ghost use Rattle.qc_types.specs.declared.ty.ClassDef.{ClassDef};

    ghost Value = { List ClassDef };

    ghost use Rattle.qc_types.specs.inner.Coding.{classes_code};

    ghost coded = { classes_code };

    ghost use Rattle.qc_types.specs.Schemas.{good_classes};

    ghost view = { λ classes. classes.index };

    ghost invariant = { λ classes. IsTrue (good_classes classes.index) };
}

impl Classes {
    /// No classes. It takes no memory.
    pub fn empty(alloc: Global) -> Classes
        ensures { result ≡ [] }
    {
        Classes {
            index: ClassIndex::empty(alloc),
        }
    }

    /// The classes of a list in which each parent stands before its children. `BadClasses` exactly where the list is
    /// not good, unless memory is wanting before: a name is no user name or repeats, a parent is not listed before, a
    /// shape names a class that is not listed, or is not below the parent's.
    pub fn build(alloc: Global, defs: Vec<ClassDef>) -> Result<Classes, ClassFault>
        ensures ok { IfOk result (λ classes. classes ≡ reverse defs.items) }
        ensures good { IfOk result (λ classes. IsTrue (good_classes classes)) }
        ensures bad { result ≡ Err ClassFault.BadClasses → good_classes (reverse defs.items) ≡ false }
    {
        let index = ClassIndex::of(alloc, defs)?;
        if !is_good(&index) {
            return Err(ClassFault::BadClasses);
        }
        Ok(Classes { index })
    }

    /// How many classes there are.
    pub fn len(&self) -> usize
        ensures value { result ≡ length self.now }
        ensures good { IsTrue (good_classes self.now) }
    {
        self.index.len()
    }

    /// Hands a proof that the classes are good.
    pub fn hand_good(&self)
        ensures { IsTrue (good_classes self.now) }
    {
        let _len = self.index.len();
    }

    /// The class at a place in the order listed, counted from 0: `None` exactly past the end.
    pub fn at(&self, at: usize) -> Option<&ClassDef>
        ensures value { option_copied result ≡ slice_get (reverse self.now) at }
        ensures good { IsTrue (good_classes self.now) }
    {
        self.index.at(at)
    }

    /// The class of a name: `None` exactly where no class has it.
    pub fn find(&self, name: &str) -> Option<&ClassDef>
        ensures value { option_copied result ≡ class_of self.now name.now }
        ensures good { IsTrue (good_classes self.now) }
    {
        self.index.find(name)
    }

    /// Whether both are listed, and `a` is `b` or `b` is an ancestor of `a`.
    pub fn below(&self, a: &Name, b: &Name) -> bool
        ensures value { result ≡ below self.now a.now b.now }
        ensures good { IsTrue (good_classes self.now) }
    {
        self.index.is_below(a, b)
    }

    // The classes by name and by place.
    pub(crate) fn index(&self) -> &ClassIndex
        ensures value { result.now ≡ self.now }
        ensures good { IsTrue (good_classes self.now) }
    {
        &self.index
    }
}

impl Share for Classes {
    fn share(&self, alloc: Global) -> Result<Classes, Memory> {
        let index = self.index.share(alloc)?;
        Ok(Classes { index })
    }
}
