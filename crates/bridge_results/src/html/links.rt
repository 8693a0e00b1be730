//! Where the links of an HTML page lead, and rows with links.
ghost use Rattle.std.specs.Prelude.{◌≡◌, ◌+◌, ◌≤◌, length, map};
ghost use Rattle.page_layout.specs.Linked.{linked_row, linked_row_room};
ghost use Rattle.bridge_results.specs.HtmlLinks.{board_target, pair_target, play_target};

use crate::play::TablePlay;
use arrayvec::ArrayString;
use bridge_cards::BoardNumber;
use line_text::number_text;
use page_layout::{Column, PAGE_BYTES, PageText, push_linked_row};

/// The id of a part of the page.
pub type Target = ArrayString<40>;

/// The part of a board.
pub fn board_target(board: BoardNumber) -> Target
    ensures text { result.bytes ≡ board_target board }
    ensures short { length result.bytes ≤ 40 }
{
    let mut text = Target::new();
    text.push_str("board-");
    text.push_str(number_text(u32::from(board.number())).as_str());
    text
}

/// The score card of a pair.
pub fn pair_target(pair: u8) -> Target
    ensures text { result.bytes ≡ pair_target pair }
    ensures short { length result.bytes ≤ 40 }
{
    let mut text = Target::new();
    text.push_str("pair-");
    text.push_str(number_text(u32::from(pair)).as_str());
    text
}

/// How a board was played, by the board, the round and the table.
pub fn play_target(play: &TablePlay) -> Target
    ensures text { result.bytes ≡ play_target play.now }
    ensures short { length result.bytes ≤ 40 }
{
    let mut text = Target::new();
    text.push_str("play-");
    text.push_str(number_text(u32::from(play.board.number())).as_str());
    text.push_str("-");
    text.push_str(number_text(u32::from(play.row.round)).as_str());
    text.push_str("-");
    text.push_str(number_text(u32::from(play.row.table)).as_str());
    text
}

/// A row of a table, with the part of the page that each of its cells leads to, or nothing.
pub fn linked_row(columns: &[Column], targets: &[&[u8]], cells: &[&[u8]]) -> PageText
    requires targets { length columns.now ≡ length targets.now }
    requires cells { length columns.now ≡ length cells.now }
    requires room { 10 + linked_row_room columns.now (map (λ target. target.now) targets.now) (map (λ cell. cell.now) cells.now) ≤ PAGE_BYTES }
    ensures { result.items ≡ linked_row columns.now (map (λ target. target.now) targets.now) (map (λ cell. cell.now) cells.now) }
{
    let mut text = PageText::new();
    push_linked_row(&mut text, columns, targets, cells);
    text
}
