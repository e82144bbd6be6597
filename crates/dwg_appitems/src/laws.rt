//! The laws of items.

ghost use Rattle.std.specs.Prelude.{◌≡◌, ◌↔◌, ℕ, List, Some};
ghost use Rattle.dwg_base.specs.Bytes.{AreBytes};
ghost use Rattle.dwg_grammar.specs.Grammar.{IsLawful};
ghost use Rattle.dwg_grammar.specs.ToEnd.{AreValues};
ghost use Rattle.dwg_appitems.specs.declared.item.AppItem.{AppItem};
ghost use Rattle.dwg_appitems.specs.AppFindingLaws.{AppFindingsAreDetermined, AppFindingsAreOrdered, AppFindingsStand, NothingIsFoundIfNothingFails};
ghost use Rattle.dwg_appitems.specs.AppFindings.{items_in};
ghost use Rattle.dwg_appitems.specs.ItemLists.{AreItems, items_bytes};
ghost use Rattle.dwg_appitems.specs.ItemTable.{AreItemBytes};
ghost use Rattle.dwg_appitems.specs.Items.{item};

/// What holds of items: bits spell at most one item, and no spelling of an item is a proper prefix of another; bytes are at most
/// one list of items; what is written of items are these items, so that they are read back; the table of what follows each code byte
/// says which items bytes are; and the items that are computed of bytes are those that the bytes are.
pub fn item_laws()
    ensures item { IsLawful item }
    ensures unique { (all others : List AppItem) (bytes : List ℕ) → AreItems all bytes → AreItems others bytes → all ≡ others }
    ensures whole { (all : List AppItem) → AreValues item all → AreItems all (items_bytes all) }
    ensures table { (all : List AppItem) (bytes : List ℕ) → AreBytes bytes → AreItems all bytes ↔ AreItemBytes all bytes }
    ensures computed { (bytes : List ℕ) (all : List AppItem) → (items_in bytes ≡ Some all) ↔ AreItems all bytes }
{}

/// What holds of the findings of items: they are exactly the items whose reference leads nowhere; there are none exactly where no
/// reference does; and those of objects whose handles ascend stand in strictly ascending order of handle, application data and item. So
/// there is one list of them: each that has just these items of such objects, in that order, is what is found.
pub fn app_finding_laws()
    ensures stands { AppFindingsStand }
    ensures none { NothingIsFoundIfNothingFails }
    ensures ordered { AppFindingsAreOrdered }
    ensures one { AppFindingsAreDetermined }
{}
