//! How far a table is.
ghost use Rattle.std.specs.Prelude.{◌≡◌, ◌+◌, ◌≤◌, ◌++◌, option_map, slice_index_or, Err};
ghost use Rattle.arrayvec.specs.ArrayString.{array_string_len};
ghost use Rattle.bridge_config.specs.ConfigValue.{configuration_of, pair_of};
ghost use Rattle.line_replies.specs.ReplyTexts.{each_spaced};
ghost use Rattle.page_replies.specs.Tables.{first_key, shown_at, progress_words, view_words, row_words};

use bridge_cards::seat_text;
use bridge_config::{ConfigFields, Key, PairFields};
use bridge_movement::Row;
use bridge_session::{Session, View};
use line_replies::ReplyText;
use line_replies::reply_text::{REPLY_BYTES, push_number, push_word};
use line_replies::view_reply::phase_text;
use session_rules::Refused;

/// The room for how far a table is: two words and three numbers.
pub const PROGRESS_BYTES: usize = 43;

/// The room for the pairs at a table, and how far it is.
pub const ROW_BYTES: usize = 22 + PROGRESS_BYTES;

/// The key of the first player of a pair.
fn key_of(pair: &PairFields) -> Key
    ensures { result.0 ≡ slice_index_or (pair_of pair.now).keys 0 0 }
{
    pair.keys[0]
}

/// The key of a pair's first player; pair 0 is nobody.
fn first_key(fields: &ConfigFields, pair: u8) -> Option<Key>
    ensures { option_map (λ key. key.0) result ≡ first_key (configuration_of fields.now).pairs pair }
{
    if pair == 0 {
        return None;
    }
    fields.pairs.get(usize::from(pair - 1)).map(key_of)
}

/// Adds the board of a view, whether the cards are played, whose turn it is, and how many calls and cards were made.
fn push_view_words(text: &mut ReplyText, view: &View<'_>)
    requires { array_string_len text.old + PROGRESS_BYTES ≤ REPLY_BYTES }
    ensures text { text.new.bytes ≡ text.old.bytes ++ each_spaced (view_words view.now) }
    ensures room { array_string_len text.new ≤ array_string_len text.old + PROGRESS_BYTES }
{
    push_number(text, u32::from(view.board.number()));
    push_word(text, phase_text(view.in_play));
    push_word(text, seat_text(view.turn));
    push_number(text, u32::from(view.calls_made));
    push_number(text, u32::from(view.cards_made));
}

/// Adds why nothing is played at a table.
fn push_idle(text: &mut ReplyText, refused: Refused)
    requires { array_string_len text.old + PROGRESS_BYTES ≤ REPLY_BYTES }
    ensures text { text.new.bytes ≡ text.old.bytes ++ each_spaced (progress_words (Err refused)) }
    ensures room { array_string_len text.new ≤ array_string_len text.old + PROGRESS_BYTES }
{
    push_word(text, "-");
    push_word(text, refused.name());
}

/// Adds how far the table of a row is.
fn push_progress(text: &mut ReplyText, session: &Session, row: Row)
    requires { array_string_len text.old + PROGRESS_BYTES ≤ REPLY_BYTES }
    ensures text { text.new.bytes ≡ text.old.bytes ++ each_spaced (progress_words (shown_at session.now row)) }
    ensures room { array_string_len text.new ≤ array_string_len text.old + PROGRESS_BYTES }
{
    match first_key(session.config().fields(), row.ns) {
        Some(key) => match session.see(key) {
            Ok(view) => push_view_words(text, &view),
            Err(refused) => push_idle(text, refused),
        },
        None => push_idle(text, Refused::SitsOut),
    }
}

/// Adds the pairs at the table of a row, and how far it is.
pub fn push_row(text: &mut ReplyText, session: &Session, row: Row)
    requires { array_string_len text.old + ROW_BYTES ≤ REPLY_BYTES }
    ensures text { text.new.bytes ≡ text.old.bytes ++ each_spaced (row_words session.now row) }
    ensures room { array_string_len text.new ≤ array_string_len text.old + ROW_BYTES }
{
    push_number(text, u32::from(row.ns));
    push_number(text, u32::from(row.ew));
    push_progress(text, session, row);
}
