//! The names around a table.
ghost use Rattle.std.specs.Prelude.{◌≡◌, ◌+◌, ◌≤◌, ◌++◌};
ghost use Rattle.arrayvec.specs.ArrayString.{array_string_len};
ghost use Rattle.bridge_config.specs.ConfigValue.{configuration_of};
ghost use Rattle.line_replies.specs.ReplyTexts.{each_spaced};
ghost use Rattle.line_replies.specs.TableWords.{names_at};

use bridge_config::{ConfigFields, NAME_BYTES, player_name};
use bridge_movement::Row;
use line_replies::ReplyText;
use line_replies::reply_text::{REPLY_BYTES, push_word};

/// The room in bytes for the names at a table: four, each behind a space.
pub const TABLE_NAMES_BYTES: usize = 4 * (1 + NAME_BYTES);

/// Adds the names of the players in North, East, South and West at the table of a row.
pub fn push_names(text: &mut ReplyText, fields: &ConfigFields, row: Row)
    requires { array_string_len text.old + TABLE_NAMES_BYTES ≤ REPLY_BYTES }
    ensures text { text.new.bytes ≡ text.old.bytes ++ each_spaced (names_at (configuration_of fields.now).pairs row) }
    ensures room { array_string_len text.new ≤ array_string_len text.old + TABLE_NAMES_BYTES }
{
    push_word(text, player_name(&fields.pairs, row.ns, true));
    push_word(text, player_name(&fields.pairs, row.ew, true));
    push_word(text, player_name(&fields.pairs, row.ns, false));
    push_word(text, player_name(&fields.pairs, row.ew, false));
}
