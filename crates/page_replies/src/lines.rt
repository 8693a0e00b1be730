//! The lines of a player's place.
ghost use Rattle.std.specs.Prelude.{◌≡◌, ◌+◌, ◌≤◌, ◌∷◌, ◌++◌, [], Some, codes, length};
ghost use Rattle.arrayvec.specs.ArrayString.{array_string_len};
ghost use Rattle.bridge_config.specs.ConfigValue.{configuration_of};
ghost use Rattle.line_replies.specs.ReplyTexts.{spaced_line, each_spaced};
ghost use Rattle.page_replies.specs.Place.{round_line, player_line, table_words, names_words, contract_seen, answer_words, answer_seen};
ghost use Rattle.line_replies.specs.TableWords.{contract_words};

use crate::names::{TABLE_NAMES_BYTES, push_names};
use bridge_auction::{Contract, doubling_text, print_bid};
use bridge_cards::seat_text;
use bridge_config::{ConfigFields, player_name};
use bridge_movement::{boards_before, last_board};
use line_replies::ReplyText;
use line_replies::reply_text::{REPLY_BYTES, push_number, push_word};
use session_rules::{Player, Refused, Seating, Stage};

/// The room in bytes for the line of the round: `ROUND`, two numbers of at most 10 digits, each behind a space, and the
/// line's end.
pub const ROUND_BYTES: usize = 28;

/// The room in bytes for the line of the player: `PLAYER`, a number of at most 10 digits and a name of at most 24 bytes, each
/// behind a space, and the line's end.
pub const PLAYER_BYTES: usize = 43;

/// The room in bytes for a seating: three numbers of at most 10 digits and a seat's letter, each behind a space.
const SEATING_BYTES: usize = 35;

/// The room in bytes for the line of a seat: a first word of at most 5 bytes, the seating, and the line's end.
pub const SEAT_LINE_BYTES: usize = 5 + SEATING_BYTES + 1;

/// The room in bytes for the line of the names: `NAMES`, the names, and the line's end.
pub const NAMES_LINE_BYTES: usize = 5 + TABLE_NAMES_BYTES + 1;

/// The room in bytes for a contract: a bid of at most 3 bytes with a doubling of at most 2, and declarer's letter, each of
/// the two behind a space.
const CONTRACT_BYTES: usize = 8;

/// The room in bytes for the line of the contract: `CONTRACT`, the contract, and the line's end.
pub const CONTRACT_LINE_BYTES: usize = 8 + CONTRACT_BYTES + 1;

/// The room in bytes for the line of an answer: `ANSWER`, a word of at most 3 bytes behind a space, and the line's end.
pub const ANSWER_BYTES: usize = 11;

/// Adds the round and how many there are.
pub fn push_round_line(text: &mut ReplyText, fields: &ConfigFields, round: u8)
    requires { array_string_len text.old + ROUND_BYTES ≤ REPLY_BYTES }
    ensures line { text.new.bytes ≡ text.old.bytes ++ (round_line (configuration_of fields.now) round ++ 10 ∷ []) }
    ensures room { array_string_len text.new ≤ array_string_len text.old + ROUND_BYTES }
{
    text.push_str("ROUND");
    push_number(text, u32::from(round));
    push_number(text, u32::from(fields.movement.shape().rounds));
    text.push_str("\n");
}

/// Adds the pair's number and the player's name.
pub fn push_player_line(text: &mut ReplyText, fields: &ConfigFields, player: Player)
    requires { array_string_len text.old + PLAYER_BYTES ≤ REPLY_BYTES }
    ensures line { text.new.bytes ≡ text.old.bytes ++ (player_line (configuration_of fields.now) player ++ 10 ∷ []) }
    ensures room { array_string_len text.new ≤ array_string_len text.old + PLAYER_BYTES }
{
    text.push_str("PLAYER");
    push_number(text, u32::from(player.pair));
    push_word(text, player_name(&fields.pairs, player.pair, player.first));
    text.push_str("\n");
}

/// Adds the table, the seat, and the first and last board of the table's set, or `-`.
fn push_seating(text: &mut ReplyText, boards: u8, seating: Result<Seating, Refused>)
    requires { array_string_len text.old + SEATING_BYTES ≤ REPLY_BYTES }
    ensures text { text.new.bytes ≡ text.old.bytes ++ each_spaced (table_words boards seating) }
    ensures room { array_string_len text.new ≤ array_string_len text.old + SEATING_BYTES }
{
    match seating {
        Ok(seating) => {
            push_number(text, u32::from(seating.table));
            push_word(text, seat_text(seating.seat));
            push_number(text, u32::from(boards_before(boards, seating.set)) + 1);
            push_number(text, u32::from(last_board(boards, seating.set)));
        }
        Err(_) => push_word(text, "-"),
    }
}

/// Adds the line of a seat: a first word, the table, the seat, and the boards, or `-`.
pub fn push_seat_line(
    text: &mut ReplyText,
    first: &str,
    boards: u8,
    seating: Result<Seating, Refused>,
)
    requires first { length first.now ≤ 5 }
    requires room { array_string_len text.old + SEAT_LINE_BYTES ≤ REPLY_BYTES }
    ensures line { text.new.bytes ≡ text.old.bytes ++ (spaced_line first.now (table_words boards seating) ++ 10 ∷ []) }
    ensures room { array_string_len text.new ≤ array_string_len text.old + SEAT_LINE_BYTES }
{
    text.push_str(first);
    push_seating(text, boards, seating);
    text.push_str("\n");
}

/// Adds the names at the table where the player sits, or `-`.
fn push_table_names(text: &mut ReplyText, fields: &ConfigFields, seating: Result<Seating, Refused>)
    requires { array_string_len text.old + TABLE_NAMES_BYTES ≤ REPLY_BYTES }
    ensures text { text.new.bytes ≡ text.old.bytes ++ each_spaced (names_words (configuration_of fields.now) seating) }
    ensures room { array_string_len text.new ≤ array_string_len text.old + TABLE_NAMES_BYTES }
{
    match seating {
        Ok(seating) => match fields.movement.rows().get(seating.row) {
            Some(row) => push_names(text, fields, *row),
            None => push_word(text, "-"),
        },
        Err(_) => push_word(text, "-"),
    }
}

/// Adds the line of the names at the table where the player sits.
pub fn push_names_line(
    text: &mut ReplyText,
    fields: &ConfigFields,
    seating: Result<Seating, Refused>,
)
    requires { array_string_len text.old + NAMES_LINE_BYTES ≤ REPLY_BYTES }
    ensures line { text.new.bytes ≡ text.old.bytes ++ (spaced_line (codes "NAMES") (names_words (configuration_of fields.now) seating) ++ 10 ∷ []) }
    ensures room { array_string_len text.new ≤ array_string_len text.old + NAMES_LINE_BYTES }
{
    text.push_str("NAMES");
    push_table_names(text, fields, seating);
    text.push_str("\n");
}

/// Adds the bid with its doubling, and declarer.
fn push_contract(text: &mut ReplyText, contract: Contract)
    requires { array_string_len text.old + CONTRACT_BYTES ≤ REPLY_BYTES }
    ensures text { text.new.bytes ≡ text.old.bytes ++ each_spaced (contract_words (Some contract)) }
    ensures room { array_string_len text.new ≤ array_string_len text.old + CONTRACT_BYTES }
{
    text.push_str(" ");
    print_bid(contract.bid, text);
    text.push_str(doubling_text(contract.doubling));
    push_word(text, seat_text(contract.declarer));
}

/// Adds the contract, or `-`.
fn push_contract_if(text: &mut ReplyText, contract: Option<Contract>)
    requires { array_string_len text.old + CONTRACT_BYTES ≤ REPLY_BYTES }
    ensures text { text.new.bytes ≡ text.old.bytes ++ each_spaced (contract_words contract) }
    ensures room { array_string_len text.new ≤ array_string_len text.old + CONTRACT_BYTES }
{
    match contract {
        Some(contract) => push_contract(text, contract),
        None => push_word(text, "-"),
    }
}

/// Adds the line of the contract.
pub fn push_contract_line(text: &mut ReplyText, stage: Result<Stage, Refused>)
    requires { array_string_len text.old + CONTRACT_LINE_BYTES ≤ REPLY_BYTES }
    ensures line { text.new.bytes ≡ text.old.bytes ++ (spaced_line (codes "CONTRACT") (contract_words (contract_seen stage)) ++ 10 ∷ []) }
    ensures room { array_string_len text.new ≤ array_string_len text.old + CONTRACT_LINE_BYTES }
{
    text.push_str("CONTRACT");
    match stage {
        Ok(stage) => push_contract_if(text, stage.contract),
        Err(_) => push_contract_if(text, None),
    }
    text.push_str("\n");
}

fn answer_text(stage: Result<Stage, Refused>) -> &'static str
    ensures text { result.now ∷ [] ≡ answer_words (answer_seen stage) }
    ensures short { length result.now ≤ 3 }
{
    match stage {
        Ok(stage) if stage.answer_due => "DUE",
        _ => "-",
    }
}

/// Adds the line that says whether an answer to a claim is due.
pub fn push_answer_line(text: &mut ReplyText, stage: Result<Stage, Refused>)
    requires { array_string_len text.old + ANSWER_BYTES ≤ REPLY_BYTES }
    ensures line { text.new.bytes ≡ text.old.bytes ++ (spaced_line (codes "ANSWER") (answer_words (answer_seen stage)) ++ 10 ∷ []) }
    ensures room { array_string_len text.new ≤ array_string_len text.old + ANSWER_BYTES }
{
    text.push_str("ANSWER");
    push_word(text, answer_text(stage));
    text.push_str("\n");
}
