//! The Play section of a game.
ghost use Rattle.std.specs.Prelude.{◌≡◌, ◌+◌, ◌*◌, ◌<◌, ◌≤◌, ◌++◌, ◌∷◌, [], map};
ghost use Rattle.std.specs.List.{range_with_len};
ghost use Rattle.arrayvec.specs.ArrayString.{array_string_len};
ghost use Rattle.bridge_cards.specs.Card.{card_text};
ghost use Rattle.bridge_play.specs.Trick.{whole_tricks};
ghost use Rattle.line_text.specs.Lines.{lines_text};
ghost use Rattle.bridge_pbn.specs.Sections.{places_from, card_by, column_text, trick_line, star_lines, trick_lines};

use crate::text::{GAME_BYTES, GameText, TAG_BYTES, push_tag};
use bridge_cards::{Card, Seat, seat_text};
use bridge_play::{Play, TRICKS};

/// The most bytes of a trick's line.
pub const TRICK_BYTES: usize = 12;

/// The room for a Play section: that of its tag pair, of 13 tricks and of a star.
pub const PLAY_BYTES: usize = TAG_BYTES + TRICKS * TRICK_BYTES + 2;

/// How many places a seat is clockwise from another, 0 to 3.
fn places_from(first: Seat, seat: Seat) -> usize
    ensures places { result ≡ places_from first seat }
    ensures few { result < 4 }
{
    usize::from((4 + seat.number() - first.number()) % 4)
}

/// The card that a seat played to a trick.
fn card_by(play: &Play, trick: usize, seat: Seat) -> Card
    requires { trick < whole_tricks play.now.cards }
    ensures { result ≡ card_by play.now.contract play.now.cards trick seat }
{
    play.cards()[4 * trick + places_from(play.leader(trick), seat)]
}

/// Adds a card.
fn push_card(text: &mut GameText, card: Card)
    requires { array_string_len text.old + 2 ≤ GAME_BYTES }
    ensures text { text.new.bytes ≡ text.old.bytes ++ card_text card }
    ensures room { array_string_len text.new ≤ array_string_len text.old + 2 }
{
    text.push(char::from(card.suit().letter()));
    text.push(char::from(card.rank().letter()));
}

/// Adds the card in a column of a trick's line.
fn push_column(text: &mut GameText, play: &Play, trick: usize, column: usize)
    requires trick { trick < whole_tricks play.now.cards }
    requires room { array_string_len text.old + 2 ≤ GAME_BYTES }
    ensures text { text.new.bytes ≡ text.old.bytes ++ column_text play.now.contract play.now.cards trick column }
    ensures room { array_string_len text.new ≤ array_string_len text.old + 2 }
{
    let seat = play.leader(0).clockwise(column);
    push_card(text, card_by(play, trick, seat));
}

/// Adds the line of a trick.
fn push_trick(text: &mut GameText, play: &Play, trick: usize)
    requires trick { trick < whole_tricks play.now.cards }
    requires room { array_string_len text.old + TRICK_BYTES ≤ GAME_BYTES }
    ensures line { text.new.bytes ≡ text.old.bytes ++ (trick_line play.now.contract play.now.cards trick ++ 10 ∷ []) }
    ensures room { array_string_len text.new ≤ array_string_len text.old + TRICK_BYTES }
{
    push_column(text, play, trick, 0);
    text.push_str(" ");
    push_column(text, play, trick, 1);
    text.push_str(" ");
    push_column(text, play, trick, 2);
    text.push_str(" ");
    push_column(text, play, trick, 3);
    text.push_str("\n");
}

/// Adds a star where fewer than the 13 tricks were played.
fn push_star(text: &mut GameText, tricks: usize)
    requires { array_string_len text.old + 2 ≤ GAME_BYTES }
    ensures lines { text.new.bytes ≡ text.old.bytes ++ lines_text (star_lines tricks) }
    ensures room { array_string_len text.new ≤ array_string_len text.old + 2 }
{
    if tricks < TRICKS {
        text.push_str("*\n");
    }
}

/// Adds the lines of the first tricks.
fn push_tricks(text: &mut GameText, play: &Play, tricks: usize)
    requires few { tricks ≤ 13 }
    requires played { tricks ≤ whole_tricks play.now.cards }
    requires room { array_string_len text.old + 13 * TRICK_BYTES ≤ GAME_BYTES }
    ensures lines { text.new.bytes ≡ text.old.bytes ++ lines_text (map (trick_line play.now.contract play.now.cards) (range_with_len 0 tricks)) }
    ensures room { array_string_len text.new ≤ array_string_len text.old + 13 * TRICK_BYTES }
{
    for trick in 0..tricks {
        push_trick(text, play, trick);
    }
}

/// Adds the Play section: the opening leader, and the tricks that were played, one a line.
pub fn push_play(text: &mut GameText, play: &Play)
    requires { array_string_len text.old + PLAY_BYTES ≤ GAME_BYTES }
    ensures lines { text.new.bytes ≡ text.old.bytes ++ lines_text (trick_lines play.now.contract play.now.cards) }
    ensures room { array_string_len text.new ≤ array_string_len text.old + PLAY_BYTES }
{
    let tricks = play.cards().len() / 4;
    push_tag(text, "Play", seat_text(play.leader(0)));
    push_tricks(text, play, tricks);
    push_star(text, tricks);
}
