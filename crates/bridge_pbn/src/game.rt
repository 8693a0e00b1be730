//! The games of a session: the plays that are finished, not void and not adjusted, and to which no score is assigned.
ghost use Rattle.std.specs.Prelude.{◌≡◌, ◌+◌, ◌≤◌, ◌∷◌, ◌++◌, [], Some, None, if◌then◌else◌};
ghost use Rattle.session_rules.specs.Numbers.{IsRoundNumber, IsTableNumber};
ghost use Rattle.line_text.specs.Lines.{lines_text};
ghost use Rattle.bridge_pbn.specs.Sections.{play_lines};
ghost use Rattle.bridge_pbn.specs.Games.{is_listed, play_at, game_at, game_lines_by};
ghost use Rattle.bridge_pbn.specs.Written.{games_after};
ghost use Rattle.std.specs.Option.{option_copied, option_map};
ghost use Rattle.arrayvec.specs.ArrayString.{array_string_len};

use crate::auction_section::push_auction;
use crate::play_section::{PLAY_BYTES, push_play};
use crate::tags::{
    push_board_tags, push_event_tags, push_outcome_tags, push_player_tags, push_table_tags,
};
use crate::text::{GAME_BYTES, GameText};
use bridge_cards::{BoardNumber, Deal, dealer};
use bridge_config::Config;
use bridge_movement::{Row, boards_before, last_board};
use bridge_play::Play;
use bridge_session::{BoardIndex, Entry, Outcome, PlayId, RoundNumber, Session, TableNumber};

/// The room for the 17 tag pairs of a game and its two sections.
const ALL_BYTES: usize = 3472;

/// Whether a play is listed.
fn is_listed(outcome: Outcome) -> bool
    ensures { result ≡ is_listed outcome }
{
    match outcome {
        Outcome::Unfinished | Outcome::Voided => false,
        Outcome::Adjusted { .. } | Outcome::Assigned { .. } => false,
        Outcome::PassedOut | Outcome::Played { .. } => true,
    }
}

/// The play of a board by the pairs of a row, if the board is of the row's set.
fn play_at(config: &Config, board: BoardNumber, row: Row) -> Option<PlayId>
    requires round { IsRoundNumber row.round }
    requires table { IsTableNumber row.table }
    ensures { result ≡ play_at config.now board row }
{
    let boards = config.fields().boards;
    let before = boards_before(boards, row.set);
    let number = u16::from(board.number());
    if number <= before || number > last_board(boards, row.set) {
        return None;
    }
    let index = (number - before) as u8;
    Some(PlayId {
        round: RoundNumber::new(row.round).unwrap(),
        table: TableNumber::new(row.table).unwrap(),
        index: BoardIndex::new(index).unwrap(),
    })
}

/// Adds the Play section, where cards may be played.
fn push_play_of(text: &mut GameText, play: Option<&Play>)
    requires { array_string_len text.old + PLAY_BYTES ≤ GAME_BYTES }
    ensures { text.new.bytes ≡ text.old.bytes ++ lines_text (play_lines (option_copied play.entry)) }
{
    if let Some(play) = play {
        push_play(text, play);
    }
}

/// Adds the game of a board by the pairs of a row: what came of it, its calls and its cards.
fn push_game(
    text: &mut GameText,
    config: &Config,
    row: Row,
    board: BoardNumber,
    deal: &Deal,
    found: &Entry<'_>,
)
    requires { array_string_len text.old + ALL_BYTES ≤ GAME_BYTES }
    ensures { text.new.bytes ≡ text.old.bytes ++ lines_text (game_lines_by config.now row board deal.now found.now.outcome found.now.auction.now.calls (option_copied found.now.play)) }
{
    let fields = config.fields();
    push_event_tags(text, config, board);
    push_player_tags(text, fields.pairs.as_slice(), row);
    push_board_tags(text, board, deal, fields.scoring);
    push_outcome_tags(text, found.outcome);
    push_table_tags(text, row);
    push_auction(text, dealer(board), found.auction.calls());
    push_play_of(text, found.play);
}

/// Adds an empty line where a game stands before.
fn push_gap(text: &mut GameText, begun: bool)
    requires { array_string_len text.old + 1 ≤ GAME_BYTES }
    ensures lines { text.new.bytes ≡ text.old.bytes ++ lines_text (if begun then [] ∷ [] else []) }
    ensures room { array_string_len text.new ≤ array_string_len text.old + 1 }
{
    if begun {
        text.push_str("\n");
    }
}

/// The text of a game, after an empty line where a game stands before it.
fn new_game(
    config: &Config,
    row: Row,
    board: BoardNumber,
    deal: &Deal,
    found: &Entry<'_>,
    begun: bool,
) -> GameText
    ensures { result.bytes ≡ lines_text (games_after begun (game_lines_by config.now row board deal.now found.now.outcome found.now.auction.now.calls (option_copied found.now.play) ∷ [])) }
{
    let mut text = GameText::new();
    push_gap(&mut text, begun);
    push_game(&mut text, config, row, board, deal, found);
    text
}

/// The text of the game of a board by the pairs of a row, if there is one, after an empty line where a game stands before it.
pub fn game_text(session: &Session, board: BoardNumber, row: Row, begun: bool) -> Option<GameText>
    requires round { IsRoundNumber row.round }
    requires table { IsTableNumber row.table }
    ensures { option_map (λ text. text.bytes) result ≡ option_map (λ game. lines_text (games_after begun (game ∷ []))) (game_at session.now board row) }
{
    let deal = session.deal(board)?;
    let play = play_at(session.config(), board, row)?;
    match session.entry(play) {
        Some(found) if is_listed(found.outcome) => {
            Some(new_game(session.config(), row, board, deal, &found, begun))
        }
        _ => None,
    }
}
