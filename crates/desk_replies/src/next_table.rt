//! Whom a player meets in the next round.
ghost use Rattle.std.specs.Prelude.{◌≡◌, ◌+◌, ◌≤◌, ◌++◌, Some};
ghost use Rattle.arrayvec.specs.ArrayString.{array_string_len};
ghost use Rattle.bridge_config.specs.ConfigValue.{configuration_of};
ghost use Rattle.line_replies.specs.ReplyTexts.{each_spaced};
ghost use Rattle.line_replies.specs.TableWords.{names_at};
ghost use Rattle.line_text.specs.Lines.{lines_text};
ghost use Rattle.desk_replies.specs.Told.{row_lines, meeting_lines, next_lines};

use crate::standing::{
    MEETS_BYTES, NAMES_BYTES, STANDING_BYTES, StandingText, push_number, push_word,
};
use bridge_config::{ConfigFields, Key, player_name};
use bridge_movement::Row;
use bridge_session::Session;
use bridge_table::seat_by;
use session_rules::{Refused, Seating};

/// Adds the names of the players in North, East, South and West at the table of a row.
fn push_names(text: &mut StandingText, fields: &ConfigFields, row: Row)
    requires { array_string_len text.old + NAMES_BYTES ≤ STANDING_BYTES }
    ensures text { text.new.bytes ≡ text.old.bytes ++ each_spaced (names_at (configuration_of fields.now).pairs row) }
    ensures room { array_string_len text.new ≤ array_string_len text.old + NAMES_BYTES }
{
    push_word(text, player_name(&fields.pairs, row.ns, true));
    push_word(text, player_name(&fields.pairs, row.ew, true));
    push_word(text, player_name(&fields.pairs, row.ns, false));
    push_word(text, player_name(&fields.pairs, row.ew, false));
}

/// Adds the pairs and the names at the table of a row.
fn push_row(text: &mut StandingText, fields: &ConfigFields, row: Row)
    requires { array_string_len text.old + MEETS_BYTES ≤ STANDING_BYTES }
    ensures line { text.new.bytes ≡ text.old.bytes ++ lines_text (row_lines (configuration_of fields.now).pairs (Some row)) }
    ensures room { array_string_len text.new ≤ array_string_len text.old + MEETS_BYTES }
{
    text.push_str("MEETS");
    push_number(text, u32::from(row.ns));
    push_number(text, u32::from(row.ew));
    push_names(text, fields, row);
    text.push_str("\n");
}

/// Adds those where a player sits, if he sits somewhere.
fn push_meeting(text: &mut StandingText, fields: &ConfigFields, seating: Result<Seating, Refused>)
    requires { array_string_len text.old + MEETS_BYTES ≤ STANDING_BYTES }
    ensures line { text.new.bytes ≡ text.old.bytes ++ lines_text (meeting_lines (configuration_of fields.now) seating) }
    ensures room { array_string_len text.new ≤ array_string_len text.old + MEETS_BYTES }
{
    let Ok(seating) = seating else {
        return;
    };
    if let Some(row) = fields.movement.rows().get(seating.row) {
        push_row(text, fields, *row);
    }
}

/// Adds those where the player of the key sits in the next round, where there is one.
pub(crate) fn push_next(text: &mut StandingText, session: &Session, key: Key)
    requires { array_string_len text.old + MEETS_BYTES ≤ STANDING_BYTES }
    ensures line { text.new.bytes ≡ text.old.bytes ++ lines_text (next_lines session.now.configuration session.now.round key.0) }
    ensures room { array_string_len text.new ≤ array_string_len text.old + MEETS_BYTES }
{
    let config = session.config();
    let fields = config.fields();
    let round = session.round();
    if round >= fields.movement.shape().rounds {
        return;
    }
    push_meeting(text, fields, seat_by(config, round + 1, key));
}
