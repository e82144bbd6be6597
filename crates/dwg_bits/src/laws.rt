//! Laws of bits, each the contract of a function without code.

ghost use Rattle.dwg_bits.specs.BitLaws.{LowBitsSpell, NumberIsSpelled, NumberFits, LowBitsAreCounted, BytesHaveEightBits, BitsAreJoined, BitsGiveBytes, LowBitsSplit, NumbersAreJoined, BetweenIsCounted, BetweenIsJoined};
ghost use Rattle.dwg_bits.specs.PaddingLaw.{PaddingFills};

/// What holds of the bits of numbers and of bytes: numbers and lists of bits give each other, and so do bytes and their
/// bits; joined lists spell joined numbers; and the bits between two places are those up to a third and those from there.
pub fn bit_laws()
    ensures spelled { LowBitsSpell }
    ensures reported { NumberIsSpelled }
    ensures fits { NumberFits }
    ensures counted { LowBitsAreCounted }
    ensures eight { BytesHaveEightBits }
    ensures joined { BitsAreJoined }
    ensures bytes_reported { BitsGiveBytes }
    ensures split { LowBitsSplit }
    ensures numbers_joined { NumbersAreJoined }
    ensures between_counted { BetweenIsCounted }
    ensures between_joined { BetweenIsJoined }
    ensures padded { PaddingFills }
{}
