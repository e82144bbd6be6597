//! Laws of these bodies, as the contract of a function without code.

ghost use Rattle.std.specs.Prelude.{◌^◌, ◌<◌, ℕ};
ghost use Rattle.dwg_base.specs.declared.version.Version.{Version};
ghost use Rattle.dwg_grammar.specs.Bodies.{IsFreeBody};
ghost use Rattle.dwg_entities.specs.AttdefBody.{attdef_body};
ghost use Rattle.dwg_entities.specs.AttribBody.{attrib_body};
ghost use Rattle.dwg_entities.specs.BlockBody.{block_body};
ghost use Rattle.dwg_entities.specs.Closing.{endblk_body, seqend_body};
ghost use Rattle.dwg_entities.specs.InsertBody.{insert_body};
ghost use Rattle.dwg_entities.specs.MInsertBody.{minsert_body};
ghost use Rattle.dwg_entities.specs.TextBody.{text_body};

/// What holds of these bodies, in the object of any handle: main bits and reference bits spell at most one by their prefixes;
/// just those that fit are spelled, each by what is written of it, and none by fewer main bits or fewer reference bits; and
/// other bits that spell the same references spell the same, and any bits may follow these.
pub fn entity_laws()
    ensures text { (version : Version) (base : ℕ) → base < 2 ^ 63 → IsFreeBody base (text_body version base) }
    ensures attrib { (version : Version) (base : ℕ) → base < 2 ^ 63 → IsFreeBody base (attrib_body version base) }
    ensures attdef { (version : Version) (base : ℕ) → base < 2 ^ 63 → IsFreeBody base (attdef_body version base) }
    ensures insert { (version : Version) (base : ℕ) → base < 2 ^ 63 → IsFreeBody base (insert_body version base) }
    ensures minsert { (base : ℕ) → base < 2 ^ 63 → IsFreeBody base (minsert_body base) }
    ensures block { (base : ℕ) → base < 2 ^ 63 → IsFreeBody base (block_body base) }
    ensures endblk { (base : ℕ) → base < 2 ^ 63 → IsFreeBody base (endblk_body base) }
    ensures seqend { (base : ℕ) → base < 2 ^ 63 → IsFreeBody base (seqend_body base) }
{}
