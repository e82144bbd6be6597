//! The bodies of texts, attributes, inserts, and of what begins and ends blocks and sequences.

ghost use Rattle.std.specs.Prelude.{ℕ};
ghost use Rattle.dwg_common.specs.declared.bit_layout.Layout.{Layout};
ghost use Rattle.dwg_part_laws.specs.AsDefined.{IsDefinedBy};
ghost use Rattle.dwg_entities.specs.AttdefBody.{attdef_body};
ghost use Rattle.dwg_entities.specs.AttribBody.{attrib_body};
ghost use Rattle.dwg_entities.specs.BlockBody.{block_body};
ghost use Rattle.dwg_entities.specs.Closing.{endblk_body, seqend_body};
ghost use Rattle.dwg_entities.specs.InsertBody.{insert_body};
ghost use Rattle.dwg_entities.specs.MInsertBody.{minsert_body};
ghost use Rattle.dwg_entities.specs.TextBody.{text_body};
ghost use Rattle.dwg_entities.specs.contracts.attdef.AttdefBodyCode.TheImpl as attdef;
ghost use Rattle.dwg_entities.specs.contracts.attrib.AttribBodyCode.TheImpl as attrib;
ghost use Rattle.dwg_entities.specs.contracts.block.BlockBodyCode.TheImpl as block;
ghost use Rattle.dwg_entities.specs.contracts.block_ends.EndBlkBodyCode.TheImpl as endblk;
ghost use Rattle.dwg_entities.specs.contracts.block_ends.SeqEndBodyCode.TheImpl as seqend;
ghost use Rattle.dwg_entities.specs.contracts.insert.InsertBodyCode.TheImpl as insert;
ghost use Rattle.dwg_entities.specs.contracts.minsert.MInsertBodyCode.TheImpl as minsert;
ghost use Rattle.dwg_entities.specs.contracts.text.TextBodyCode.TheImpl as text;

/// These bodies are read, given to fit, measured and written by the definition of the version of their layout, or by the one of both
/// versions.
#[tactic(auto, using(crate::proofs::AsDefined::by_itself))]
pub fn entities_as_defined()
    ensures attdef { (layout : Layout) (base : ℕ) → IsDefinedBy (attdef.ghosts.grammar layout base) (attdef_body layout.version base) }
    ensures attrib { (layout : Layout) (base : ℕ) → IsDefinedBy (attrib.ghosts.grammar layout base) (attrib_body layout.version base) }
    ensures block { (layout : Layout) (base : ℕ) → IsDefinedBy (block.ghosts.grammar layout base) (block_body base) }
    ensures endblk { (layout : Layout) (base : ℕ) → IsDefinedBy (endblk.ghosts.grammar layout base) (endblk_body base) }
    ensures seqend { (layout : Layout) (base : ℕ) → IsDefinedBy (seqend.ghosts.grammar layout base) (seqend_body base) }
    ensures insert { (layout : Layout) (base : ℕ) → IsDefinedBy (insert.ghosts.grammar layout base) (insert_body layout.version base) }
    ensures minsert { (layout : Layout) (base : ℕ) → IsDefinedBy (minsert.ghosts.grammar layout base) (minsert_body base) }
    ensures text { (layout : Layout) (base : ℕ) → IsDefinedBy (text.ghosts.grammar layout base) (text_body layout.version base) }
{}
