//! What a player's boards depend on, and which they are.
ghost use Rattle.std.specs.Prelude.{◌≡◌, ◌≢◌, ℕ, Bool, List, All, Some};
ghost use Rattle.session_rules.specs.State.{SessionValue};
ghost use Rattle.board_replies.specs.OwnPlays.{own_plays};
ghost use Rattle.session_rules.specs.declared.ruling.Ruling.{Ruling};
ghost use Rattle.session_rules.specs.Outcome.{outcome_of};
ghost use Rattle.session_rules.specs.Record.{PlainRecord, play_of};
ghost use Rattle.board_replies.specs.declared.asked.Asked.{Asked as AskedType};
ghost use Rattle.board_replies.specs.Asked.{key_in};
ghost use Rattle.board_replies.specs.Rulings.{ruling_shown};
ghost use Rattle.board_replies.specs.Told.{boards_to};
ghost use Rattle.board_replies.specs.Finished.{AnsweredAlike, FinishedAlike, IsOver};

/// What a player is told of boards is a function of the configuration, of his pair's plays that are over, and, where he is
/// told of other tables, of the travellers of their boards: where two sessions agree there, he is told the same.
pub fn boards_are_told_of_finished_plays()
    ensures { (is_open : Bool) (key : ℕ) (s t : SessionValue) → FinishedAlike is_open key s t → boards_to s is_open key ≡ boards_to t is_open key }
{}

/// Each play that a player is told of is one of his own pair, and is finished, or was ruled out in a round that has ended.
pub fn only_finished_plays_are_told()
    ensures { (s : SessionValue) (pair : ℕ) → All (IsOver s pair) (own_plays s pair) }
{}

/// Whatever is asked by a key that is not the director's, the answer is a function of the configuration and of the plays of the
/// key's pair that are over, and of their boards' travellers where players are told of other tables.
pub fn players_are_told_of_finished_plays_alone()
    ensures { (is_open : Bool) (asked : AskedType) (s t : SessionValue) → key_in asked ≢ s.configuration.director → FinishedAlike is_open (key_in asked) s t → AnsweredAlike is_open asked s t }
{}

/// Each ruling that the director is told stands on the record of its play.
pub fn rulings_told_stand()
    ensures { (hands : List ℕ) (plain : PlainRecord) (made : Ruling) → ruling_shown (outcome_of plain) (play_of hands plain) ≡ Some made → plain.ruling ≡ Some made }
{}
