//! Drawings in the making.

ghost use Rattle.std.specs.Prelude.{◌≡◌, [], ◌∷◌, ◌++◌, map, OnOk};
ghost use Rattle.dwg_object.specs.Objects.{value_of};

use dwg_base::{Items, NoMemory};
use dwg_object::Object;
use std::alloc::Global;
use std::marker::Model;

/// The objects that are made so far. Contracts see them as plain values.
#[derive(Drop)]
pub(crate) struct Making {
    objects: Items<Object<'static>>,
}

impl Model for Making {
    ghost use Rattle.std.specs.Prelude.{List, map};
    ghost use Rattle.dwg_object.specs.Objects.{ObjectValue, value_of};

    ghost Value = { List ObjectValue };

    ghost view = { λ making. map value_of making.objects };
}

impl Making {
    /// No objects yet.
    pub(crate) fn new(alloc: Global) -> Making
        ensures { result ≡ [] }
    {
        Making {
            objects: Items::new(alloc),
        }
    }

    /// Puts an object at the end. Err: out of memory.
    pub(crate) fn push(&mut self, object: Object<'static>) -> Result<(), NoMemory>
        ensures { OnOk result (self.new ≡ self.old ++ value_of object.entry ∷ []) }
    {
        self.objects.try_push(object)
    }

    /// All that were made.
    pub(crate) fn finish(self) -> Items<Object<'static>>
        ensures { map value_of result ≡ self }
    {
        self.objects
    }
}
