//! All tables of the present round, told to the director.
ghost use Rattle.std.specs.Prelude.{◌≡◌, ◌+◌, ◌*◌, ◌≤◌, slice_get, ◌∷◌, ◌++◌, [], map};
ghost use Rattle.std.specs.List.{range_with_len};
ghost use Rattle.arrayvec.specs.ArrayString.{array_string_len};
ghost use Rattle.bridge_config.specs.ConfigValue.{configuration_of};
ghost use Rattle.line_text.specs.Lines.{lines_text};
ghost use Rattle.bridge_movement.specs.Shape.{index_of_row};
ghost use Rattle.line_replies.specs.ReplyTexts.{listed_text};
ghost use Rattle.page_replies.specs.Tables.{table_line, tables_now, boards_line, table_lines, tables_by, tables_text};
ghost use Rattle.session_rules.specs.State.{director_answer};

use crate::lines::push_round_line;
use crate::progress::{ROW_BYTES, push_row};
use bridge_config::{ConfigFields, Key};
use bridge_movement::Row;
use bridge_session::Session;
use bridge_table::{check_director, is_closed};
use line_replies::reply_text::{REPLY_BYTES, push_number};
use line_replies::{ReplyText, ShortReply, read_key};

/// The room for the line of a table.
const TABLE_BYTES: usize = 17 + ROW_BYTES;

/// The room for the line of the boards.
const BOARDS_BYTES: usize = 29;

/// The row of a table in the present round, if there is one.
fn row_now(session: &Session, table: u8) -> Option<Row>
    ensures { result ≡ slice_get session.now.configuration.movement.rows (index_of_row session.now.configuration.movement.shape session.now.round table) }
{
    let movement = &session.config().fields().movement;
    let index = movement.shape().index_of_row(session.round(), table);
    Some(*movement.rows().get(index)?)
}

/// Adds the line of a table.
fn push_table(text: &mut ReplyText, session: &Session, table: u8)
    requires { array_string_len text.old + TABLE_BYTES ≤ REPLY_BYTES }
    ensures line { text.new.bytes ≡ text.old.bytes ++ (table_line session.now table ++ 10 ∷ []) }
    ensures room { array_string_len text.new ≤ array_string_len text.old + TABLE_BYTES }
{
    text.push_str("TABLE");
    push_number(text, u32::from(table));
    if let Some(row) = row_now(session, table) {
        push_row(text, session, row);
    }
    text.push_str("\n");
}

/// Adds a line for each of the first tables.
fn push_first_tables(text: &mut ReplyText, session: &Session, tables: u8)
    requires few { tables ≤ 12 }
    requires room { array_string_len text.old + 12 * TABLE_BYTES ≤ REPLY_BYTES }
    ensures lines { text.new.bytes ≡ text.old.bytes ++ lines_text (map (table_line session.now) (range_with_len 1 tables)) }
    ensures room { array_string_len text.new ≤ array_string_len text.old + 12 * TABLE_BYTES }
{
    for index in 0..tables {
        push_table(text, session, index + 1);
    }
}

/// Adds a line for each table of the present round.
fn push_tables_now(text: &mut ReplyText, session: &Session)
    requires { array_string_len text.old + 12 * TABLE_BYTES ≤ REPLY_BYTES }
    ensures lines { text.new.bytes ≡ text.old.bytes ++ lines_text (map (table_line session.now) (tables_now session.now)) }
    ensures room { array_string_len text.new ≤ array_string_len text.old + 12 * TABLE_BYTES }
{
    let config = session.config();
    if !is_closed(config, session.round()) {
        let shape = config.fields().movement.shape();
        push_first_tables(text, session, shape.tables);
    }
}

/// Adds how many boards a set has, and how many there are in all.
fn push_boards_line(text: &mut ReplyText, fields: &ConfigFields)
    requires { array_string_len text.old + BOARDS_BYTES ≤ REPLY_BYTES }
    ensures line { text.new.bytes ≡ text.old.bytes ++ (boards_line (configuration_of fields.now) ++ 10 ∷ []) }
    ensures room { array_string_len text.new ≤ array_string_len text.old + BOARDS_BYTES }
{
    let boards = u32::from(fields.boards);
    text.push_str("BOARDS");
    push_number(text, boards);
    push_number(text, u32::from(fields.movement.shape().sets) * boards);
    text.push_str("\n");
}

/// Adds the round, the boards, and a line for each table.
fn push_all(text: &mut ReplyText, session: &Session)
    requires { text.old.bytes ≡ [] }
    ensures { text.new.bytes ≡ listed_text (table_lines session.now) }
{
    text.push_str("OK\n");
    let fields = session.config().fields();
    push_round_line(text, fields, session.round());
    push_boards_line(text, fields);
    push_tables_now(text, session);
    text.push_str(".\n");
}

/// Adds the reply to the director, or the refusal of anybody else.
fn push_tables_to(text: &mut ReplyText, session: &Session, key: Key)
    requires { text.old.bytes ≡ [] }
    ensures { text.new.bytes ≡ tables_by session.now (director_answer session.now.configuration key.0) }
{
    match check_director(session.config(), key) {
        Ok(()) => push_all(text, session),
        Err(refused) => ShortReply::Refused(refused).push_to(text),
    }
}

/// Adds what is answered to these bytes, which are to be the director's key: `OK`, the round and how many there are, how many
/// boards a set has and how many there are in all, a line for each table of the round, and a full stop. A table's line has
/// its number, the pair of North and South, that of East and West, the board, `AUCTION` or `PLAY`, whose turn it is, and how
/// many calls and cards were made; or after the pairs `-`, and why nothing is played: `NotDealt` where the next board is not
/// dealt, `NotCurrent` where the boards of the round are done, and `SitsOut` where a pair sits out. No card is in it.
///
/// Refused are `BadLine` where the bytes are no key, `NoKey` where it is nobody's, and `NotAllowed` where it is a player's.
pub fn push_tables(text: &mut ReplyText, session: &Session, bytes: &[u8])
    requires { text.old.bytes ≡ [] }
    ensures { text.new.bytes ≡ tables_text session.now bytes.now }
{
    match read_key(bytes) {
        Some(key) => push_tables_to(text, session, key),
        None => ShortReply::BadLine.push_to(text),
    }
}
