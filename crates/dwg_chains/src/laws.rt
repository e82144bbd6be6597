//! Laws of paths and chains among things of any type, as the contracts of functions without code.

ghost use Rattle.std.specs.Prelude.{◌≡◌, ◌<◌, ◌↔◌, ℕ, Bool, List, length, Option, Some, slice_get, IsTrue, Contains};
ghost use Rattle.dwg_chains.specs.Paths.{AreDistinct, HasPath, HasRank, HasChain, IsChain};
ghost use Rattle.dwg_chains.specs.Ways.{has_path, has_chain};
ghost use Rattle.dwg_chains.specs.Ways.{IsClosed};
ghost use Rattle.dwg_chains.specs.ChainTests.{AreChainTests};
ghost use Rattle.dwg_chains.specs.Numbered.{FallToGoals, RiseAlong, IsSame, PassesThese, AreNumberedByPlace};
ghost use Rattle.dwg_chains.specs.ThingsAtPlaces.{IsSeen, TestsAgree, AreChainsSeen};

/// What holds of ranks and paths: a thing has one rank; a path leads from what has a rank, and what a path leads from has one. Of
/// things that lead only to each other: a rank is less than their count; and as many steps as there are things find a path exactly
/// where there is one.
pub fn path_laws<A>()
    ensures one_rank { (step : A → Option A) (goal : A → Bool) (x : A) (rank other : ℕ) → HasRank step goal x rank → HasRank step goal x other → rank ≡ other }
    ensures path_of_rank { (step : A → Option A) (goal : A → Bool) (x : A) (rank : ℕ) → HasRank step goal x rank → HasPath step goal x }
    ensures rank_of_path { (step : A → Option A) (goal : A → Bool) (x : A) → HasPath step goal x → (rank : ℕ) × HasRank step goal x rank }
    ensures rank_is_small { (all : List A) (step : A → Option A) (goal : A → Bool) → IsClosed all step → (x : A) (rank : ℕ) → Contains all x → HasRank step goal x rank → rank < length all }
    ensures path_decided { (all : List A) (step : A → Option A) (goal : A → Bool) (x : A) → IsClosed all step → Contains all x → IsTrue (has_path all step goal x) ↔ HasPath step goal x }
{}

/// What holds of chains: the way that is sought from the first to the last is a chain of the members exactly where there is one.
pub fn chain_laws<A>()
    ensures chain_decided { (same : A → A → Bool) (all : List A) (step : A → Option A) (member first last : A → Bool) → AreChainTests same all member first last → IsTrue (has_chain same all step member first last) ↔ HasChain step member first last }
{}

/// What holds of the places of a list and the things there: where steps and tests over both say the same, so do ranks and paths; and
/// so do chains, where the things are distinct.
pub fn place_laws<B>()
    ensures rank_seen { (all : List B) (step_place : ℕ → Option ℕ) (step_thing : B → Option B) (goal_place : ℕ → Bool) (goal_thing : B → Bool) → IsSeen all step_place step_thing → TestsAgree all goal_place goal_thing → (place : ℕ) (x : B) (rank : ℕ) → slice_get all place ≡ Some x → HasRank step_place goal_place place rank ↔ HasRank step_thing goal_thing x rank }
    ensures path_seen { (all : List B) (step_place : ℕ → Option ℕ) (step_thing : B → Option B) (goal_place : ℕ → Bool) (goal_thing : B → Bool) → IsSeen all step_place step_thing → TestsAgree all goal_place goal_thing → (place : ℕ) (x : B) → slice_get all place ≡ Some x → HasPath step_place goal_place place ↔ HasPath step_thing goal_thing x }
    ensures chain_seen { (all : List B) (step_place : ℕ → Option ℕ) (step_thing : B → Option B) (member_place first_place last_place : ℕ → Bool) (member_thing first_thing last_thing : B → Bool) → AreChainsSeen all step_place step_thing member_place first_place last_place member_thing first_thing last_thing → HasChain step_place member_place first_place last_place ↔ HasChain step_thing member_thing first_thing last_thing }
{}

/// What numbers given to things report of paths and chains. Where a thing of number 0 is a goal and any other leads to a thing of the number
/// before, a path leads from each thing with a number, and the rank of a thing is such a number. Where the numbers of the members rise by
/// one along the steps, from 0 at a first to their count less one at a last, the members stand in a chain; and the places in a chain are
/// such numbers.
pub fn number_laws<A>()
    ensures path { (step : A → Option A) (goal : A → Bool) (number : A → Option ℕ) → FallToGoals step goal number → (x : A) (n : ℕ) → number x ≡ Some n → HasPath step goal x }
    ensures ranks_fall { (step : A → Option A) (goal : A → Bool) (number : A → Option ℕ) → ((x : A) (n : ℕ) → (number x ≡ Some n) ↔ HasRank step goal x n) → FallToGoals step goal number }
    ensures chain { (same : A → A → Bool) (members : List A) (step : A → Option A) (member first last : A → Bool) (number : A → Option ℕ) → IsSame same → PassesThese member members → RiseAlong members step first last number → HasChain step member first last }
    ensures places_rise { (members : List A) (step : A → Option A) (member first last : A → Bool) (number : A → Option ℕ) (chain : List A) → AreDistinct members → PassesThese member members → IsChain step member first last chain → AreNumberedByPlace chain number → RiseAlong members step first last number }
{}
