//! Laws of the map, each the contract of a function without code.

ghost use Rattle.std.specs.Prelude.{◌≡◌, ◌↔◌, ◌++◌, ◌∷◌, ℕ, List, [], Ok, Err};
ghost use Rattle.dwg_base.specs.Bytes.{AreBytes, StandsAt};
ghost use Rattle.dwg_base.specs.Refusal.{Refusal};
ghost use Rattle.dwg_objmap.specs.declared.pair.Pair.{Pair};
ghost use Rattle.dwg_objmap.specs.Pages.{PageAt, AreHandles, handles_of, MapOf};
ghost use Rattle.dwg_objmap.specs.MapLines.{page_end, tried_page, tried_map, RefusesPage, RefusesMap};
ghost use Rattle.dwg_objmap.specs.Pairs.{IsPair, pair_after};
ghost use Rattle.dwg_grammar.specs.Grammar.{IsLawful};
ghost use Rattle.dwg_objmap.specs.Walking.{LongestIsComputed, LongestIsUnique, WholeIsLeading, PageGivesItsPairs, SizeIsThere};
ghost use Rattle.dwg_objmap.specs.Writing.{OpenPage, FRESH, given, filled, closing, map_after, map_bytes, Ascend, IsFilling};

/// What holds of every map and of every page: a map has the pairs that trying it gives, and is refused by the one refusal
/// that trying it gives; so does a page; and a map at a place has one list of pairs. Bytes spell at most one pair after
/// another, what is written of a pair spells it, and no spelling is shorter.
pub fn map_laws()
    ensures pair { (before : Pair) → IsPair before → IsLawful (pair_after before) }
    ensures read { (place : ℕ) (bytes : List ℕ) (pairs : List Pair) → AreBytes bytes → (tried_map place bytes ≡ Ok pairs) ↔ MapOf bytes place pairs }
    ensures refused { (place : ℕ) (bytes : List ℕ) (refusal : Refusal) → AreBytes bytes → (tried_map place bytes ≡ Err refusal) ↔ RefusesMap place bytes refusal }
    ensures page_read { (place index : ℕ) (bytes : List ℕ) (pairs : List Pair) → AreBytes bytes → (tried_page place index bytes ≡ Ok pairs) ↔ (PageAt bytes place pairs (page_end bytes place) × AreHandles (handles_of pairs)) }
    ensures page_refused { (place index : ℕ) (bytes : List ℕ) (refusal : Refusal) → AreBytes bytes → (tried_page place index bytes ≡ Err refusal) ↔ RefusesPage [] place index bytes refusal }
    ensures page_next { (place next : ℕ) (bytes : List ℕ) (pairs : List Pair) → PageAt bytes place pairs next → next ≡ page_end bytes place }
    ensures unique { (place : ℕ) (bytes : List ℕ) (pairs others : List Pair) → MapOf bytes place pairs → MapOf bytes place others → pairs ≡ others }
{}

/// What is written of pairs: wherever it stands, it is the map of these pairs; its pages hold as many pairs as have room, none
/// is larger than 2032 bytes, and the last one alone has no pairs; no other bytes are filled so. It is what a `PageWriter`
/// sends that is given one pair after the other and then ended.
pub fn map_writing_laws()
    ensures written { (place : ℕ) (bytes : List ℕ) (pairs : List Pair) → Ascend 0 pairs → StandsAt bytes place (map_bytes pairs) → MapOf bytes place pairs }
    ensures filled { (pairs : List Pair) → Ascend 0 pairs → IsFilling pairs (map_bytes pairs) }
    ensures only { (pairs : List Pair) (bytes : List ℕ) → Ascend 0 pairs → IsFilling pairs bytes → bytes ≡ map_bytes pairs }
    ensures begins { (pairs : List Pair) → map_bytes pairs ≡ map_after FRESH pairs }
    ensures goes_on { (page : OpenPage) (pair : Pair) (pairs : List Pair) → map_after page (pair ∷ pairs) ≡ given page pair ++ map_after (filled page pair) pairs }
    ensures ends { (page : OpenPage) → map_after page [] ≡ closing page }
{}

/// What holds of pages as recovery reads them: bytes have one longest list of leading pairs, and it is the one that is
/// computed; where the bytes are whole pairs, it is these. A page that stands at a place has its size and its check word, and
/// gives its own pairs; and a page has a size exactly where it lies in the input.
pub fn page_laws()
    ensures longest { LongestIsComputed }
    ensures unique { LongestIsUnique }
    ensures whole { WholeIsLeading }
    ensures page { PageGivesItsPairs }
    ensures size { SizeIsThere }
{}
