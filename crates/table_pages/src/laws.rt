//! What a request waits for depends on what stands at a player's own table, and on no hidden card.
ghost use Rattle.std.specs.Prelude.{List, ℕ};
ghost use Rattle.bridge_config.specs.declared.fields.Key.{Key as KeyType};
ghost use Rattle.session_rules.specs.State.{SessionValue};
ghost use Rattle.desk_replies.specs.declared.desk.Desk.{Desk as DeskType};
ghost use Rattle.table_pages.specs.Waits.{SeesSame, TellsNow};

/// What a player is told, by which his page waits, is the same over two sessions that look alike to him, beside two desks that are
/// alike at his table: so his page learns of no other table and of no hidden card by when it is answered.
pub fn waits_tell_of_their_own_table()
    ensures { (key : KeyType) (s t : SessionValue) (d e : DeskType) (text : List ℕ) → SeesSame key s t d e → TellsNow s d key text → TellsNow t e key text }
{}
