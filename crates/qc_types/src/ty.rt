// Types, and the classes that they name.
ghost use Rattle.std.specs.Prelude.{◌≡◌, IfOk};

use qc_containers::{Boxed, Memory, Name, NameMap, Share};
use std::alloc::Global;

/// Whether a record has further fields than those that its type names.
#[derive(Clone, Copy, Debug, PartialEq, Eq)]
pub enum Width {
    /// It has none.
    Exact,
    /// It may have any.
    Wide,
}

/// The fields of a record's type, whose names rise.
pub type Row = NameMap<Ty>;

/// A type of data.
#[derive(Drop)]
pub enum Ty {
    /// The type of no datum.
    Bottom,
    /// The type of the value that says nothing.
    Unit,
    /// Truth values.
    Bool,
    /// Integers.
    Int,
    /// Texts.
    Text,
    /// Collections of members of a type.
    Coll(Boxed<Ty>),
    /// Records with the fields of the row, each of its type, and of no others where the width is `Exact`.
    Rec(Width, Row),
    /// Left values of the first type and right values of the second.
    Either(Boxed<Ty>, Boxed<Ty>),
    /// The values of a class and of the classes below it.
    Brand(Name),
}

/// A class: its name, its parent if it has one, and the type of its values' content.
#[derive(Drop)]
pub struct ClassDef {
    /// The name, which only this class of a list has.
    pub name: Name,
    /// The parent, which is listed before.
    pub parent: Option<Name>,
    /// What the content of the class's own values fits.
    pub shape: Ty,
}

/// A copy: the same type, whose parts the two share.
pub fn copy_ty(alloc: Global, t: &Ty) -> Result<Ty, Memory>
    ensures { IfOk result (λ made. made ≡ t.now) }
{
    match t {
        Ty::Bottom => Ok(Ty::Bottom),
        Ty::Unit => Ok(Ty::Unit),
        Ty::Bool => Ok(Ty::Bool),
        Ty::Int => Ok(Ty::Int),
        Ty::Text => Ok(Ty::Text),
        Ty::Coll(item) => Ok(Ty::Coll(item.share(alloc)?)),
        Ty::Rec(width, row) => Ok(Ty::Rec(*width, row.share(alloc)?)),
        Ty::Either(left, right) => {
            let left = left.share(alloc)?;
            Ok(Ty::Either(left, right.share(alloc)?))
        }
        Ty::Brand(name) => Ok(Ty::Brand(name.share(alloc)?)),
    }
}

impl Share for Ty {
    fn share(&self, alloc: Global) -> Result<Ty, Memory> {
        copy_ty(alloc, self)
    }
}

impl Share for ClassDef {
    fn share(&self, alloc: Global) -> Result<ClassDef, Memory> {
        let name = self.name.share(alloc)?;
        let parent = match &self.parent {
            Some(parent) => Some(parent.share(alloc)?),
            None => None,
        };
        let shape = self.shape.share(alloc)?;
        Ok(ClassDef {
            name,
            parent,
            shape,
        })
    }
}

/// A copy: the same fields, whose types the two share.
pub fn copy_row(alloc: Global, row: &Row) -> Result<Row, Memory>
    ensures { IfOk result (λ made. made ≡ row.now) }
{
    row.share(alloc)
}
