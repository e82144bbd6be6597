//! Laws of these bodies, as the contract of a function without code.

ghost use Rattle.std.specs.Prelude.{◌^◌, ◌<◌, ◌↔◌, ℕ};
ghost use Rattle.dwg_base.specs.declared.version.Version.{Version};
ghost use Rattle.dwg_grammar.specs.Bodies.{IsFreeBody, IsLawfulBody};
ghost use Rattle.dwg_dicts.specs.Dictionaries.{dictionary_body};
ghost use Rattle.dwg_dicts.specs.Entries.{appid_control_body, layer_control_body, style_control_body};
ghost use Rattle.dwg_dicts.specs.EntriesAndTwo.{block_control_body, ltype_control_body};
ghost use Rattle.dwg_dicts.specs.XRecords.{xrecord_body};

/// What holds of these bodies in each version, in the object of any handle: main bits and reference bits spell at most one by
/// their prefixes; just those that fit are spelled, each by what is written of it, and none by fewer main bits or fewer reference
/// bits; and other bits that spell the same references spell the same, and any bits may follow these; after those of a record
/// only fewer than eight.
pub fn dict_laws()
    ensures block_control { (base : ℕ) → base < 2 ^ 63 → IsFreeBody base (block_control_body base) }
    ensures layer_control { (base : ℕ) → base < 2 ^ 63 → IsFreeBody base (layer_control_body base) }
    ensures style_control { (base : ℕ) → base < 2 ^ 63 → IsFreeBody base (style_control_body base) }
    ensures ltype_control { (base : ℕ) → base < 2 ^ 63 → IsFreeBody base (ltype_control_body base) }
    ensures appid_control { (base : ℕ) → base < 2 ^ 63 → IsFreeBody base (appid_control_body base) }
    ensures dictionary { (version : Version) (base : ℕ) → base < 2 ^ 63 → IsFreeBody base (dictionary_body version base) }
    ensures xrecord { (version : Version) (base : ℕ) → base < 2 ^ 63 → IsLawfulBody base (xrecord_body version base) }
    ensures followed { (version : Version) (base over : ℕ) → (xrecord_body version base).MayFollow over ↔ (over < 8) }
{}
