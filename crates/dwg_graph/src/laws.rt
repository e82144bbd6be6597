//! Laws of slots, of paths and chains, and of the tables of kinds and fields, as the contracts of functions without code.

ghost use Rattle.std.specs.Prelude.{◌≡◌};
ghost use Rattle.dwg_kinds.specs.declared.field.Field.{Field};
ghost use Rattle.dwg_kinds.specs.declared.kind.Kind.{Kind};
ghost use Rattle.dwg_kinds.specs.Kinds.{row_of};
ghost use Rattle.dwg_kinds.specs.Needs.{row_of_field};
ghost use Rattle.dwg_graph.specs.ObjectPaths.{PathsAreOfObjects, ChainsAreOfObjects, AscendingAreDistinct};
ghost use Rattle.dwg_graph.specs.SlotLaws.{SlotsAreHeld, OwnersAreHeld, NoneIsLeftOut, SlotsAreFew, SlotsAscend};

/// What holds of slots: each slot of a whole object is of a field that the object's kind has, and the kind of a Typed object has
/// an owner; the frame of an object that a drawing can have has in its version more bytes than the object has slots; and the slots of a whole object
/// stand in the order of their fields, and in a field in the order of their positions, no two of them at one; and there are as many as
/// the object has references in AC1015, applications included, but for the one to its owner.
pub fn slot_laws()
    ensures held { SlotsAreHeld }
    ensures owner { OwnersAreHeld }
    ensures bound { SlotsAreFew }
    ensures ordered { SlotsAscend }
    ensures whole { NoneIsLeftOut }
{}

/// What holds of paths and chains, which are lists of handles: among objects with distinct handles, an object has an owner path exactly
/// where there is a list of distinct objects that begins with it, each followed by its owner, and ends with a root; and the members of
/// a block stand in a chain exactly where there is a list of distinct objects that are exactly the members, from the block's first to
/// its last, each followed by what follows it. Handles that ascend, as those of a drawing do, are distinct.
pub fn graph_laws()
    ensures paths { PathsAreOfObjects }
    ensures chains { ChainsAreOfObjects }
    ensures distinct { AscendingAreDistinct }
{}

/// What holds of the tables of kinds and of fields: the row that a kind has is its own, and so is that of a field.
pub fn row_laws()
    ensures kinds { (kind : Kind) → (row_of kind).kind ≡ kind }
    ensures fields { (field : Field) → (row_of_field field).field ≡ field }
{}
