// Schemas.
ghost use Rattle.std.specs.Prelude.{◌≡◌, [], false, IfOk, IfErr, IsErr, IsTrue};
ghost use Rattle.qc_types.specs.Schemas.{good_classes, good_globals};

use crate::classes::Classes;
use crate::goodness::is_good_globals;
use crate::ty::Row;
use std::alloc::Global;
use std::marker::Model;

/// Classes, and the types of the globals that queries may name. Clauses see both.
#[derive(Drop)]
pub struct Schema {
    classes: Classes,
    globals: Row,
}

impl Model for Schema {
    ghost use Rattle.std.specs.Prelude.{IsTrue};
    ghost use Rattle.qc_types.specs.Schemas.{SchemaOf, good_classes, good_globals};
    ghost use Rattle.qc_types.specs.inner.Coding.{schema_code};

    ghost Value = { SchemaOf };

    ghost coded = { schema_code };

    ghost view = { λ schema. record { classes = schema.classes; globals = schema.globals } };

    ghost invariant = { λ schema. IsTrue (good_globals schema.classes schema.globals) };
}

impl Schema {
    /// The schema without classes and globals. It takes no memory.
    pub fn empty(alloc: Global) -> Schema
        ensures { result ≡ record { classes = []; globals = [] } }
    {
        Schema {
            classes: Classes::empty(alloc),
            globals: Row::new(alloc),
        }
    }

    /// The schema of both. `Err` exactly where a global's name is no user name or its type names a class that is not
    /// listed; it hands both back unchanged.
    pub fn of(classes: Classes, globals: Row) -> Result<Schema, (Classes, Row)>
        ensures ok { IfOk result (λ schema. schema ≡ record { classes = classes; globals = globals }) }
        ensures good { IfOk result (λ _. IsTrue (good_globals classes globals)) }
        ensures err { IfErr result (λ _. good_globals classes globals ≡ false) }
        ensures back { IfErr result (λ pair. pair ≡ (classes, globals)) }
    {
        if !is_good_globals(classes.index(), &globals) {
            return Err((classes, globals));
        }
        Ok(Schema { classes, globals })
    }

    /// The classes.
    pub fn classes(&self) -> &Classes
        ensures value { result.now ≡ self.now.classes }
        ensures good { IsTrue (good_classes self.now.classes) }
    {
        self.classes.hand_good();
        &self.classes
    }

    /// The globals' types.
    pub fn globals(&self) -> &Row
        ensures value { result.now ≡ self.now.globals }
        ensures good { IsTrue (good_globals self.now.classes self.now.globals) }
    {
        &self.globals
    }
}
