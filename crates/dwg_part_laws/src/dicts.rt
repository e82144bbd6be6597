//! The bodies of controls, dictionaries and records.

ghost use Rattle.std.specs.Prelude.{ℕ};
ghost use Rattle.dwg_common.specs.declared.bit_layout.Layout.{Layout};
ghost use Rattle.dwg_part_laws.specs.AsDefined.{IsDefinedBy};
ghost use Rattle.dwg_dicts.specs.Dictionaries.{dictionary_body};
ghost use Rattle.dwg_dicts.specs.Entries.{appid_control_body, layer_control_body, style_control_body};
ghost use Rattle.dwg_dicts.specs.EntriesAndTwo.{block_control_body, ltype_control_body};
ghost use Rattle.dwg_dicts.specs.XRecords.{xrecord_body};
ghost use Rattle.dwg_dicts.specs.contracts.appid_control.AppIdControlBodyCode.TheImpl as appid_control;
ghost use Rattle.dwg_dicts.specs.contracts.block_control.BlockControlBodyCode.TheImpl as block_control;
ghost use Rattle.dwg_dicts.specs.contracts.dictionary.DictionaryBodyCode.TheImpl as dictionary;
ghost use Rattle.dwg_dicts.specs.contracts.layer_control.LayerControlBodyCode.TheImpl as layer_control;
ghost use Rattle.dwg_dicts.specs.contracts.ltype_control.LtypeControlBodyCode.TheImpl as ltype_control;
ghost use Rattle.dwg_dicts.specs.contracts.style_control.StyleControlBodyCode.TheImpl as style_control;
ghost use Rattle.dwg_dicts.specs.contracts.xrecord.XRecordBodyCode.TheImpl as xrecord;

/// These bodies are read, given to fit, measured and written by the definition of the version of their layout, or by the one of both
/// versions.
#[tactic(auto, using(crate::proofs::AsDefined::by_itself))]
pub fn dicts_as_defined()
    ensures appid_control { (layout : Layout) (base : ℕ) → IsDefinedBy (appid_control.ghosts.grammar layout base) (appid_control_body base) }
    ensures block_control { (layout : Layout) (base : ℕ) → IsDefinedBy (block_control.ghosts.grammar layout base) (block_control_body base) }
    ensures dictionary { (layout : Layout) (base : ℕ) → IsDefinedBy (dictionary.ghosts.grammar layout base) (dictionary_body layout.version base) }
    ensures layer_control { (layout : Layout) (base : ℕ) → IsDefinedBy (layer_control.ghosts.grammar layout base) (layer_control_body base) }
    ensures ltype_control { (layout : Layout) (base : ℕ) → IsDefinedBy (ltype_control.ghosts.grammar layout base) (ltype_control_body base) }
    ensures style_control { (layout : Layout) (base : ℕ) → IsDefinedBy (style_control.ghosts.grammar layout base) (style_control_body base) }
    ensures xrecord { (layout : Layout) (base : ℕ) → IsDefinedBy (xrecord.ghosts.grammar layout base) (xrecord_body layout.version base) }
{}
