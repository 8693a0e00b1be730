//! What holds of a traveller over all sections.
ghost use Rattle.std.specs.Prelude.{◌≡◌, ◌∷◌, [], ℕ, List, map, AllPairs, IsPermutation};
ghost use Rattle.session_rules.specs.State.{SessionValue};
ghost use Rattle.bridge_results.specs.Traveller.{traveller, StandsOver};
ghost use Rattle.event_results.specs.EventTraveller.{event_rows, event_traveller, in_section, line_of};

/// The traveller of a board over one section is the session's, with section 1 beside each line.
pub fn one_section_has_its_own_traveller()
    ensures { (s : SessionValue) (board : ℕ) → event_traveller (s ∷ []) board ≡ map (in_section 1) (traveller s board) }
{}

/// The traveller of a board has the line of each play of it in all sections, and none that stands above an earlier one.
pub fn a_traveller_has_all_plays_in_order()
    ensures same { (sections : List SessionValue) (board : ℕ) → IsPermutation (event_rows sections board) (event_traveller sections board) }
    ensures order { (sections : List SessionValue) (board : ℕ) → AllPairs StandsOver (map line_of (event_traveller sections board)) }
{}
