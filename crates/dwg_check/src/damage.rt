//! Laws of short damage, each the contract of a function without code.

ghost use Rattle.dwg_check.specs.ShortDamage.{ShortDamageShows, SealedIsZero, DamageUnderSealShows};

/// What a change of one byte, or of two neighbouring ones, does to check words: those of the two runs differ; bytes
/// followed by their check word come to the word 0, and by no other two bytes; so where bytes carry their check word,
/// and one or two neighbouring ones of them or of the word are changed, they don't carry it any more.
#[tactic(auto, using(crate::proofs::ShortDamage::short_damage_shows, crate::proofs::ShortDamage::sealed_is_zero, crate::proofs::ShortDamage::damage_under_seal_shows))]
pub fn short_damage_laws()
    ensures shows { ShortDamageShows }
    ensures sealed { SealedIsZero }
    ensures sealed_shows { DamageUnderSealShows }
{}
