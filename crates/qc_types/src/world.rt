// Worlds.
ghost use Rattle.std.specs.Prelude.{◌≡◌, false, IfOk, IsTrue};
ghost use Rattle.std.specs.Option.{option_copied};
ghost use Rattle.qc_types.specs.Schemas.{global, good_classes, good_globals, is_world};

use crate::classes::Classes;
use crate::conforming::is_record_of;
use crate::faults::WorldFault;
use crate::index::ClassIndex;
use crate::naming::is_user_named;
use crate::schema::Schema;
use crate::ty::{Row, copy_row};
use qc_containers::Share;
use qc_data::{Datum, held};
use std::alloc::Global;
use std::marker::Model;

/// The values of a schema's globals. Clauses see the schema's classes, the globals' types, and the record of the
/// values.
#[derive(Drop)]
pub struct World {
    classes: Classes,
    globals: Row,
    datum: Datum,
}

impl Model for World {
    ghost use Rattle.std.specs.Prelude.{IsTrue};
    ghost use Rattle.qc_types.specs.Schemas.{WorldOf, good_globals, is_world};
    ghost use Rattle.qc_types.specs.inner.Coding.{world_code};

    ghost Value = { WorldOf };

    ghost coded = { world_code };

    ghost view = { λ world. record { classes = world.classes; globals = world.globals; datum = world.datum } };

    ghost invariant = { λ world. IsTrue (good_globals world.classes world.globals)
        × IsTrue (is_world world.classes world.globals world.datum) };
}

impl World {
    /// The world of the datum, which is kept beside copies of the classes and of the globals' types. `NotWorld` exactly
    /// where the datum does not fit the record of exactly the globals, or holds anywhere the name of a field or of a
    /// class that is no user name.
    pub fn of(alloc: Global, schema: &Schema, d: Datum) -> Result<World, WorldFault>
        ensures ok { IfOk result
            (λ world. world ≡ record { classes = schema.now.classes; globals = schema.now.globals; datum = d }) }
        ensures world { IfOk result (λ _. IsTrue (is_world schema.now.classes schema.now.globals d)) }
        ensures bad { result ≡ Err WorldFault.NotWorld → is_world schema.now.classes schema.now.globals d ≡ false }
        ensures exact { is_world schema.now.classes schema.now.globals d ≡ false → result ≡ Err WorldFault.NotWorld }
    {
        if !is_world(schema.classes().index(), schema.globals(), &d) {
            return Err(WorldFault::NotWorld);
        }
        let classes = schema.classes().share(alloc)?;
        let globals = copy_row(alloc, schema.globals())?;
        Ok(World {
            classes,
            globals,
            datum: d,
        })
    }

    /// The value of a global: `None` exactly where there is no global of the name.
    pub fn get(&self, name: &str) -> Option<&Datum>
        ensures value { option_copied result ≡ global name.now self.now.datum }
        ensures world { IsTrue (is_world self.now.classes self.now.globals self.now.datum) }
    {
        match &self.datum {
            Datum::Rec(fields) => fields.get(name),
            _ => None,
        }
    }

    /// The record of the globals' values.
    pub fn whole(&self) -> &Datum
        ensures value { result.now ≡ self.now.datum }
        ensures world { IsTrue (is_world self.now.classes self.now.globals self.now.datum) }
    {
        &self.datum
    }

    /// The schema's classes.
    pub fn classes(&self) -> &Classes
        ensures value { result.now ≡ self.now.classes }
        ensures good { IsTrue (good_classes self.now.classes) }
    {
        self.classes.hand_good();
        &self.classes
    }

    /// The globals' types.
    pub fn globals(&self) -> &Row
        ensures value { result.now ≡ self.now.globals }
        ensures good { IsTrue (good_globals self.now.classes self.now.globals) }
    {
        &self.globals
    }
}

// Whether the datum is a world of classes and globals. That its integers have 64 bits is known of every datum.
fn is_world(index: &ClassIndex, globals: &Row, d: &Datum) -> bool
    ensures { result ≡ is_world index.now globals.now d.now }
{
    held(d);
    is_record_of(index, d, globals) && is_user_named(d)
}
