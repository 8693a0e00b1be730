//! What is told of the desk depends on what stands at a player's own table, and on no hidden card.
ghost use Rattle.std.specs.Prelude.{◌≡◌, ◌≢◌, ℕ};
ghost use Rattle.session_rules.specs.Sight.{LookAlikeTo};
ghost use Rattle.session_rules.specs.State.{SessionValue};
ghost use Rattle.desk_replies.specs.declared.desk.Desk.{Desk as DeskType};
ghost use Rattle.desk_replies.specs.Laws.{StandAlikeTo};
ghost use Rattle.desk_replies.specs.Told.{standing_lines};

/// The standing lines of a player are a function of the notice, the clock, the call of his own table and the last statement
/// there: where two desks agree in these, he is told the same, at whatever second.
pub fn players_are_told_of_their_own_table()
    ensures { (key : ℕ) (s : SessionValue) (d e : DeskType) → key ≢ s.configuration.director → StandAlikeTo s key d e → standing_lines s d key ≡ standing_lines s e key }
{}

/// What is told of the desk depends on no card that is hidden from the holder of the key.
pub fn desks_show_no_hidden_card()
    ensures { (key : ℕ) (s t : SessionValue) (d : DeskType) → LookAlikeTo key s t → standing_lines s d key ≡ standing_lines t d key }
{}
