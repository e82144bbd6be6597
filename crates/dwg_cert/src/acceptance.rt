//! Laws of certificates and sound drawings, as the contract of a function without code.

ghost use Rattle.dwg_cert.specs.AcceptTests.{AcceptanceIsDecided};
ghost use Rattle.dwg_cert.specs.Certified.{AcceptedIsSound, AcceptedPlacesAgree, AcceptedRanksAgree, PlacesAreInChains, RanksAreSteps, SoundIsAccepted};

/// What holds of certificates of objects whose handles ascend, as those of a drawing do. Where a certificate is accepted, the objects'
/// references hold together, whoever made it. Where they hold together, their own certificate is accepted; in that, a rank is the count of
/// the steps from owner to owner up to a root, none where no such steps lead to one, and a place is the one in the chain of a block's
/// members, none of what stands in no chain. Two accepted certificates of the same whole objects don't differ in a rank that both give,
/// nor in the place of a block's member. And the tests that the checker makes say whether a certificate is accepted.
pub fn acceptance_laws()
    ensures sound { AcceptedIsSound }
    ensures accepted { SoundIsAccepted }
    ensures ranks { RanksAreSteps }
    ensures places { PlacesAreInChains }
    ensures ranks_agree { AcceptedRanksAgree }
    ensures places_agree { AcceptedPlacesAgree }
    ensures reported { AcceptanceIsDecided }
{}
