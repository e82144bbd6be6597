//! Laws of these bodies, as the contract of a function without code.

ghost use Rattle.std.specs.Prelude.{◌^◌, ◌<◌, ℕ};
ghost use Rattle.dwg_base.specs.declared.version.Version.{Version};
ghost use Rattle.dwg_grammar.specs.Bodies.{IsFreeBody};
ghost use Rattle.dwg_tables.specs.AppIdBody.{app_id_body};
ghost use Rattle.dwg_tables.specs.BlockHeaderBody.{block_header_body};
ghost use Rattle.dwg_tables.specs.LayerBody.{layer_body};
ghost use Rattle.dwg_tables.specs.LtypeBody.{ltype_body};
ghost use Rattle.dwg_tables.specs.StyleBody.{style_body};

/// What holds of these bodies, in the object of any handle: main bits and reference bits spell at most one by their prefixes;
/// just those that fit are spelled, each by what is written of it, and none by fewer main bits or fewer reference bits; and
/// other bits that spell the same references spell the same, and any bits may follow these.
pub fn table_laws()
    ensures layer { (version : Version) (base : ℕ) → base < 2 ^ 63 → IsFreeBody base (layer_body version base) }
    ensures style { (base : ℕ) → base < 2 ^ 63 → IsFreeBody base (style_body base) }
    ensures ltype { (base : ℕ) → base < 2 ^ 63 → IsFreeBody base (ltype_body base) }
    ensures app_id { (base : ℕ) → base < 2 ^ 63 → IsFreeBody base (app_id_body base) }
    ensures block_header { (version : Version) (base : ℕ) → base < 2 ^ 63 → IsFreeBody base (block_header_body version base) }
{}
