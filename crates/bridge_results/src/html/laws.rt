//! What is shown of a table's play, as a law over the definitions that the page is given by.
ghost use Rattle.std.specs.Prelude.{ℕ, All};
ghost use Rattle.session_rules.specs.State.{SessionValue};
ghost use Rattle.session_rules.specs.StateRange.{IsSession};
ghost use Rattle.bridge_results.specs.declared.traveller.BoardLine.{BoardLine as BoardLineType};
ghost use Rattle.bridge_results.specs.Traveller.{traveller};
ghost use Rattle.bridge_results.specs.HtmlRecord.{IsShownAsRecorded};

/// Of each line of a traveller the auction and the play that are shown are those of the session's record of that round, table and
/// board, of which came what the line says.
pub fn plays_are_shown_as_recorded()
    ensures { (s : SessionValue) (board : ℕ) → IsSession s → All (λ (line : BoardLineType). IsShownAsRecorded s line.play) (traveller s board) }
{}
