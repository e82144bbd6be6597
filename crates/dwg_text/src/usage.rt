//! The usage note: which words the program takes.

ghost use Rattle.std.specs.Prelude.{◌≡◌};
ghost use Rattle.dwg_text.specs.Notes as texts;

/// Which words the program takes.
#[tactic(auto, unfolding(crate::specs::Notes::usage_note))]
pub fn usage_note() -> &'static [u8]
    ensures { result.now ≡ texts.usage_note }
{
    b"dwg: usage: sections | classes | show | rewrite | audit | recover | make N SEED | drill N | appdata | certify | accept | carry\n"
}
