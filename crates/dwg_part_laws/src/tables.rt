//! The bodies of entries of tables.

ghost use Rattle.std.specs.Prelude.{ℕ};
ghost use Rattle.dwg_common.specs.declared.bit_layout.Layout.{Layout};
ghost use Rattle.dwg_part_laws.specs.AsDefined.{IsDefinedBy};
ghost use Rattle.dwg_tables.specs.AppIdBody.{app_id_body};
ghost use Rattle.dwg_tables.specs.BlockHeaderBody.{block_header_body};
ghost use Rattle.dwg_tables.specs.LayerBody.{layer_body};
ghost use Rattle.dwg_tables.specs.LtypeBody.{ltype_body};
ghost use Rattle.dwg_tables.specs.StyleBody.{style_body};
ghost use Rattle.dwg_tables.specs.contracts.app_id.AppIdBodyCode.TheImpl as app_id;
ghost use Rattle.dwg_tables.specs.contracts.block_header.BlockHeaderBodyCode.TheImpl as block_header;
ghost use Rattle.dwg_tables.specs.contracts.layer.LayerBodyCode.TheImpl as layer;
ghost use Rattle.dwg_tables.specs.contracts.ltype.LtypeBodyCode.TheImpl as ltype;
ghost use Rattle.dwg_tables.specs.contracts.style.StyleBodyCode.TheImpl as style;

/// These bodies are read, given to fit, measured and written by the definition of the version of their layout, or by the one of both
/// versions.
#[tactic(auto, using(crate::proofs::AsDefined::by_itself))]
pub fn tables_as_defined()
    ensures app_id { (layout : Layout) (base : ℕ) → IsDefinedBy (app_id.ghosts.grammar layout base) (app_id_body base) }
    ensures block_header { (layout : Layout) (base : ℕ) → IsDefinedBy (block_header.ghosts.grammar layout base) (block_header_body layout.version base) }
    ensures layer { (layout : Layout) (base : ℕ) → IsDefinedBy (layer.ghosts.grammar layout base) (layer_body layout.version base) }
    ensures ltype { (layout : Layout) (base : ℕ) → IsDefinedBy (ltype.ghosts.grammar layout base) (ltype_body base) }
    ensures style { (layout : Layout) (base : ℕ) → IsDefinedBy (style.ghosts.grammar layout base) (style_body base) }
{}
