//! The tag pairs of a game.
ghost use Rattle.std.specs.Prelude.{◌≡◌, ◌+◌, ◌*◌, ◌≤◌, ◌∷◌, ◌++◌, [], codes, length, map};
ghost use Rattle.arrayvec.specs.ArrayString.{array_string_len};
ghost use Rattle.std.specs.Fmt.{decimal};
ghost use Rattle.bridge_auction.specs.Spelling.{bid_text, doubling_text};
ghost use Rattle.session_rules.specs.declared.outcome.Outcome.TheVariants.{Played};
ghost use Rattle.bridge_config.specs.ConfigValue.{pair_of};
ghost use Rattle.line_text.specs.Lines.{lines_text};
ghost use Rattle.bridge_pbn.specs.Tags.{tag, event_tags, player_tags, board_tags, outcome_tags, table_tags};

use crate::names::scoring_text;
use crate::text::{GAME_BYTES, GameText, TAG_BYTES, push_tag};
use arrayvec::ArrayString;
use bridge_auction::{Contract, doubling_text, print_bid};
use bridge_cards::{
    BoardNumber, DEAL_BYTES, Deal, Scoring, dealer, print_deal, seat_text, vulnerability_of,
    vulnerability_text,
};
use bridge_config::{Config, PairFields, player_name};
use bridge_movement::Row;
use bridge_session::Outcome;
use itoa::Buffer;

/// Adds a tag pair whose value is a number.
fn push_number(text: &mut GameText, name: &str, number: u8)
    requires name { length name.now ≤ 10 }
    requires room { array_string_len text.old + TAG_BYTES ≤ GAME_BYTES }
    ensures line { text.new.bytes ≡ text.old.bytes ++ (tag name.now (decimal number) ++ 10 ∷ []) }
    ensures room { array_string_len text.new ≤ array_string_len text.old + TAG_BYTES }
{
    push_tag(text, name, Buffer::new().format(number));
}

/// Adds where and when the session was held, and the board.
pub fn push_event_tags(text: &mut GameText, config: &Config, board: BoardNumber)
    requires { array_string_len text.old + 4 * TAG_BYTES ≤ GAME_BYTES }
    ensures lines { text.new.bytes ≡ text.old.bytes ++ lines_text (event_tags config.now board) }
    ensures room { array_string_len text.new ≤ array_string_len text.old + 4 * TAG_BYTES }
{
    let fields = config.fields();
    push_tag(text, "Event", fields.event.as_str());
    push_tag(text, "Site", fields.site.as_str());
    push_tag(text, "Date", fields.date.as_str());
    push_number(text, "Board", board.number());
}

/// Adds who sat where: of a pair, the first player North or East, the second South or West.
pub fn push_player_tags(text: &mut GameText, pairs: &[PairFields], row: Row)
    requires { array_string_len text.old + 4 * TAG_BYTES ≤ GAME_BYTES }
    ensures lines { text.new.bytes ≡ text.old.bytes ++ lines_text (player_tags (map pair_of pairs.now) row) }
    ensures room { array_string_len text.new ≤ array_string_len text.old + 4 * TAG_BYTES }
{
    push_tag(text, "West", player_name(pairs, row.ew, false));
    push_tag(text, "North", player_name(pairs, row.ns, true));
    push_tag(text, "East", player_name(pairs, row.ew, true));
    push_tag(text, "South", player_name(pairs, row.ns, false));
}

/// Adds the dealer, the vulnerability and the hands of the board, and how scores are compared.
pub fn push_board_tags(text: &mut GameText, board: BoardNumber, deal: &Deal, scoring: Scoring)
    requires { array_string_len text.old + 4 * TAG_BYTES ≤ GAME_BYTES }
    ensures lines { text.new.bytes ≡ text.old.bytes ++ lines_text (board_tags board deal.now scoring) }
    ensures room { array_string_len text.new ≤ array_string_len text.old + 4 * TAG_BYTES }
{
    let first = dealer(board);
    let mut hands = ArrayString::<DEAL_BYTES>::new();
    print_deal(deal, first, &mut hands);
    push_tag(text, "Dealer", seat_text(first));
    push_tag(
        text,
        "Vulnerable",
        vulnerability_text(vulnerability_of(board)),
    );
    push_tag(text, "Deal", hands.as_str());
    push_tag(text, "Scoring", scoring_text(scoring));
}

/// The contract's bid, and its doubling.
fn contract_text(contract: &Contract) -> ArrayString<8>
    ensures { result.bytes ≡ bid_text contract.now.bid ++ doubling_text contract.now.doubling }
{
    let mut text = ArrayString::new();
    print_bid(contract.bid, &mut text);
    text.push_str(doubling_text(contract.doubling));
    text
}

/// Adds a contract with the tricks that declarer has.
fn push_played(text: &mut GameText, contract: &Contract, tricks: u8)
    requires { array_string_len text.old + 3 * TAG_BYTES ≤ GAME_BYTES }
    ensures lines { text.new.bytes ≡ text.old.bytes ++ lines_text (outcome_tags (Played contract.now tricks)) }
    ensures room { array_string_len text.new ≤ array_string_len text.old + 3 * TAG_BYTES }
{
    let made = contract_text(contract);
    push_tag(text, "Declarer", seat_text(contract.declarer));
    push_tag(text, "Contract", made.as_str());
    push_number(text, "Result", tricks);
}

/// Adds tag pairs of no declarer and no result.
fn push_unplayed(text: &mut GameText, contract: &str)
    requires short { length contract.now ≤ 4 }
    requires room { array_string_len text.old + 3 * TAG_BYTES ≤ GAME_BYTES }
    ensures lines { text.new.bytes ≡ text.old.bytes ++ lines_text (tag (codes "Declarer") [] ∷ tag (codes "Contract") contract.now ∷ tag (codes "Result") [] ∷ []) }
    ensures room { array_string_len text.new ≤ array_string_len text.old + 3 * TAG_BYTES }
{
    push_tag(text, "Declarer", "");
    push_tag(text, "Contract", contract);
    push_tag(text, "Result", "");
}

/// Adds what came of the play: declarer, the contract, and declarer's tricks.
pub fn push_outcome_tags(text: &mut GameText, outcome: Outcome)
    requires { array_string_len text.old + 3 * TAG_BYTES ≤ GAME_BYTES }
    ensures lines { text.new.bytes ≡ text.old.bytes ++ lines_text (outcome_tags outcome) }
    ensures room { array_string_len text.new ≤ array_string_len text.old + 3 * TAG_BYTES }
{
    match outcome {
        Outcome::Played { contract, tricks } => push_played(text, &contract, tricks),
        Outcome::PassedOut => push_unplayed(text, "Pass"),
        Outcome::Unfinished => push_unplayed(text, ""),
        Outcome::Voided => push_unplayed(text, ""),
        Outcome::Adjusted { .. } => push_unplayed(text, ""),
        Outcome::Assigned { .. } => push_unplayed(text, ""),
    }
}

/// Adds where in the movement the board was played.
pub fn push_table_tags(text: &mut GameText, row: Row)
    requires { array_string_len text.old + 2 * TAG_BYTES ≤ GAME_BYTES }
    ensures lines { text.new.bytes ≡ text.old.bytes ++ lines_text (table_tags row) }
    ensures room { array_string_len text.new ≤ array_string_len text.old + 2 * TAG_BYTES }
{
    push_number(text, "Round", row.round);
    push_number(text, "Table", row.table);
}
