//! Laws of the codes over bytes, of numbers of whole bytes and of texts, as the contracts of functions without code.

ghost use Rattle.std.specs.Prelude.{◌^◌, ◌<◌, ◌≤◌, ◌↔◌, ℕ, ℤ, List, length};
ghost use Rattle.dwg_base.specs.Bytes.{AreBytes};
ghost use Rattle.dwg_grammar.specs.Codes.{tv};
ghost use Rattle.dwg_grammar.specs.Grammar.{IsLawful};
ghost use Rattle.dwg_grammar.specs.ModularCodes.{mc, ms, signed_mc, sign_and_magnitude};
ghost use Rattle.dwg_grammar.specs.PlainSpellings.{McSpells, SignedMcSpells, MsSpells, RsSpells, RlSpells, RdSpells, TvSpells};

/// What holds of MC, signed MC, MS and TV: letters spell at most one value, and no spelling is a proper prefix of another; the
/// spelling that is written of a value spells it, and no other is shorter; and which values have spellings.
pub fn byte_code_laws()
    ensures mc { IsLawful mc }
    ensures mc_values { (value : ℕ) → mc.IsValue value ↔ (value < 2 ^ 63) }
    ensures signed_mc { IsLawful signed_mc }
    ensures signed_mc_values { (value : ℤ) → signed_mc.IsValue value ↔ ((sign_and_magnitude value).1 < 2 ^ 63) }
    ensures ms { IsLawful ms }
    ensures ms_values { (value : ℕ) → ms.IsValue value ↔ (value < 2 ^ 60) }
    ensures tv { IsLawful tv }
    ensures tv_values { (text : List ℕ) → tv.IsValue text ↔ ((length text ≤ 65535) × AreBytes text) }
{}

/// What the codes of groups and of whole bytes spell: MC, signed MC and MS said of all groups of value bits at once, and
/// RS, RL, RD and TV said of all bytes at once (Open Design Specification, "Bit codes").
pub fn plain_spellings()
    ensures mc { McSpells }
    ensures signed_mc { SignedMcSpells }
    ensures ms { MsSpells }
    ensures rs { RsSpells }
    ensures rl { RlSpells }
    ensures rd { RdSpells }
    ensures tv { TvSpells }
{}
