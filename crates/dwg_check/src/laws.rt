//! Laws of check words, each the contract of a function without code.

ghost use Rattle.dwg_check.specs.CheckWordLaws.{CheckWordGoesOn, CheckWordOfByte, CheckWordIsLinear, CheckWordIsPeriodic, CheckWordFits};

/// What the check word of every run of bytes is: that of none, of one byte and of two runs joined; that it is linear in
/// its start; that 32,767 zero bytes leave it; and that it has 16 bits.
#[tactic(auto, using(crate::proofs::CheckWordLaws::check_word_none, crate::proofs::CheckWordLaws::check_word_append, crate::proofs::CheckWordLaws::check_word_of_byte, crate::proofs::CheckWordLaws::check_word_xor, crate::proofs::CheckWordLaws::check_word_fits, crate::proofs::Periods::check_word_periodic))]
pub fn check_word_laws()
    ensures goes_on { CheckWordGoesOn }
    ensures of_byte { CheckWordOfByte }
    ensures linear { CheckWordIsLinear }
    ensures periodic { CheckWordIsPeriodic }
    ensures fits { CheckWordFits }
{}
