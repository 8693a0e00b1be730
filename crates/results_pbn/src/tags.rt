//! The 15 tags of a game.
ghost use Rattle.std.specs.Prelude.{◌≡◌, ◌+◌, ◌≤◌, ◌∷◌, ◌++◌, [], length, Some};
ghost use Rattle.std.specs.Option.{option_copied};
ghost use Rattle.arrayvec.specs.ArrayVec.{array_vec_len};
ghost use Rattle.line_text.specs.Lines.{lines_text};
ghost use Rattle.line_text.specs.Streams.{stream, Written};
ghost use Rattle.bridge_pbn.specs.Tags.{tag, event_tags};
ghost use Rattle.results_pbn.specs.Games.{no_players, no_outcome, hands_text, board_tags, head_text};

use arrayvec::ArrayString;
use bridge_cards::{
    BoardNumber, DEAL_BYTES, Deal, Scoring, dealer, print_deal, seat_text, vulnerability_of,
    vulnerability_text,
};
use bridge_config::Config;
use bridge_pbn::names::scoring_text;
use line_text::{number_text, write_text};
use page_layout::{PageText, push_bytes};
use std::io::{Error, Write};

/// The text of the hands of a board.
type HandsText = ArrayString<DEAL_BYTES>;

/// Adds a line with a tag pair.
fn push_tag(text: &mut PageText, name: &str, value: &str)
    requires name { length name.now ≤ 10 }
    requires value { length value.now ≤ 69 }
    requires room { array_vec_len text.old ≤ 2000 }
    ensures line { text.new.items ≡ text.old.items ++ (tag name.now value.now ++ 10 ∷ []) }
    ensures room { array_vec_len text.new ≤ array_vec_len text.old + 90 }
{
    push_bytes(text, b"[");
    push_bytes(text, name.as_bytes());
    push_bytes(text, b" \"");
    push_bytes(text, value.as_bytes());
    push_bytes(text, b"\"]\n");
}

/// Where and when the session was held, and the board.
fn event_tags(config: &Config, board: BoardNumber) -> PageText
    ensures lines { result.items ≡ lines_text (event_tags config.now board) }
    ensures short { array_vec_len result ≤ 400 }
{
    let fields = config.fields();
    let number = number_text(u32::from(board.number()));
    let mut text = PageText::new();
    push_tag(&mut text, "Event", fields.event.as_str());
    push_tag(&mut text, "Site", fields.site.as_str());
    push_tag(&mut text, "Date", fields.date.as_str());
    push_tag(&mut text, "Board", number.as_str());
    text
}

/// The hands of a deal, the dealer's first.
fn dealt_text(board: BoardNumber, deal: &Deal) -> HandsText
    ensures { result.bytes ≡ hands_text board (Some deal.now) }
{
    let mut text = HandsText::new();
    print_deal(deal, dealer(board), &mut text);
    text
}

/// The hands, once the board is dealt.
fn hands_text(board: BoardNumber, deal: Option<&Deal>) -> HandsText
    ensures { result.bytes ≡ hands_text board (option_copied deal.entry) }
{
    match deal {
        Some(deal) => dealt_text(board, deal),
        None => HandsText::new(),
    }
}

/// The dealer, the vulnerability and the hands of the board, and how scores are compared.
fn board_tags(board: BoardNumber, deal: Option<&Deal>, scoring: Scoring) -> PageText
    ensures lines { result.items ≡ lines_text (board_tags board (option_copied deal.entry) scoring) }
    ensures short { array_vec_len result ≤ 400 }
{
    let hands = hands_text(board, deal);
    let vulnerable = vulnerability_text(vulnerability_of(board));
    let mut text = PageText::new();
    push_tag(&mut text, "Dealer", seat_text(dealer(board)));
    push_tag(&mut text, "Vulnerable", vulnerable);
    push_tag(&mut text, "Deal", hands.as_str());
    push_tag(&mut text, "Scoring", scoring_text(scoring));
    text
}

/// How the scores of a configuration are compared.
fn scoring_of(config: &Config) -> Scoring
    ensures { result ≡ config.now.scoring }
{
    config.fields().scoring
}

/// All 15 tags.
#[tactic(auto, unfolding(crate::specs::Games::head_text, crate::specs::Games::no_players, crate::specs::Games::no_outcome))]
fn head_text(config: &Config, board: BoardNumber, deal: Option<&Deal>) -> PageText
    ensures { result.items ≡ head_text config.now board (option_copied deal.entry) }
{
    let mut text = event_tags(config, board);
    push_bytes(
        &mut text,
        b"[West \"\"]\n[North \"\"]\n[East \"\"]\n[South \"\"]\n",
    );
    push_bytes(
        &mut text,
        board_tags(board, deal, scoring_of(config)).as_slice(),
    );
    push_bytes(
        &mut text,
        b"[Declarer \"\"]\n[Contract \"\"]\n[Result \"\"]\n",
    );
    text
}

/// Writes all 15 tags.
pub fn write_head<W: Write>(
    config: &Config,
    board: BoardNumber,
    deal: Option<&Deal>,
    writer: &mut W,
) -> Result<(), Error>
    ensures { Written (stream W.contents writer.old writer.new) (head_text config.now board (option_copied deal.entry)) result }
{
    write_text(writer, head_text(config, board, deal).as_slice())
}
