//! What is told of boards: to a player those that his pair has finished, to the director one play, or the rulings.
ghost use Rattle.std.specs.Prelude.{◌≡◌, ◌∷◌, ◌++◌, [], OnOk, IfSome, codes};
ghost use Rattle.session_rules.specs.State.{director_answer};
ghost use Rattle.line_text.specs.Lines.{lines_text};
ghost use Rattle.line_replies.specs.ReplyTexts.{listed_text};
ghost use Rattle.board_replies.specs.OwnPlays.{own_plays};
ghost use Rattle.board_replies.specs.Told.{others_line, told_lines, boards_to, rulings_text, whole_to, switched_by, boards_text, opened_by};

use crate::asked::{Asked, read_asked};
use crate::director::push_one_to;
use crate::own_plays::{Telling, push_own_plays};
use crate::rulings::push_rulings;
use crate::text::{push_short, push_str};
use bridge_config::Key;
use bridge_results::Results;
use bridge_session::Session;
use bridge_table::{acting_player, check_director};
use line_replies::ShortReply;
use std::alloc::{AllocError, Global};

/// Adds `OK`, and whether players are told of other tables.
fn push_head(text: &mut Vec<u8>, is_open: bool) -> Result<(), AllocError>
    ensures { OnOk result (text.new.items ≡ text.old.items ++ lines_text (codes "OK" ∷ others_line is_open ∷ [])) }
{
    if is_open {
        push_str(text, "OK\nOTHERS OPEN\n")
    } else {
        push_str(text, "OK\nOTHERS SHUT\n")
    }
}

/// Adds what is told of the plays that a pair has finished.
fn push_told(
    text: &mut Vec<u8>,
    session: &Session,
    is_open: bool,
    pair: u8,
) -> Result<(), AllocError>
    ensures { OnOk result (text.new.items ≡ text.old.items ++ listed_text (told_lines session.now is_open (own_plays session.now pair))) }
{
    let results = Results::new(session);
    let told = Telling {
        session,
        results: &results,
        is_open,
    };
    push_head(text, is_open)?;
    push_own_plays(text, &told, pair)?;
    push_str(text, ".\n")
}

/// Adds what is told to the player of the key.
fn push_boards_to(
    text: &mut Vec<u8>,
    session: &Session,
    is_open: bool,
    key: Key,
) -> Result<(), AllocError>
    ensures { OnOk result (text.new.items ≡ text.old.items ++ boards_to session.now is_open key.0) }
{
    match acting_player(session.config(), key) {
        Ok(player) => push_told(text, session, is_open, player.pair),
        Err(refused) => push_short(text, ShortReply::Refused(refused)),
    }
}

/// Adds what the director is told where he names no play: the rulings.
fn push_rulings_text(text: &mut Vec<u8>, session: &Session, is_open: bool) -> Result<(), AllocError>
    ensures { OnOk result (text.new.items ≡ text.old.items ++ rulings_text session.now is_open) }
{
    push_head(text, is_open)?;
    push_rulings(text, session)?;
    push_str(text, ".\n")
}

/// Adds what is told to the holder of the key, who names no play.
fn push_whole_to(
    text: &mut Vec<u8>,
    session: &Session,
    is_open: bool,
    key: Key,
) -> Result<(), AllocError>
    ensures { OnOk result (text.new.items ≡ text.old.items ++ whole_to session.now is_open key.0) }
{
    if key == session.config().fields().director {
        push_rulings_text(text, session, is_open)
    } else {
        push_boards_to(text, session, is_open, key)
    }
}

/// Adds whether players are told of other tables, as the director says it.
fn push_switched(text: &mut Vec<u8>, to_open: bool) -> Result<(), AllocError>
    ensures { OnOk result (text.new.items ≡ text.old.items ++ listed_text (others_line to_open ∷ [])) }
{
    push_head(text, to_open)?;
    push_str(text, ".\n")
}

/// Adds the same to the director alone.
fn push_switched_by(
    text: &mut Vec<u8>,
    session: &Session,
    key: Key,
    to_open: bool,
) -> Result<(), AllocError>
    ensures { OnOk result (text.new.items ≡ text.old.items ++ switched_by to_open (director_answer session.now.configuration key.0)) }
{
    match check_director(session.config(), key) {
        Ok(()) => push_switched(text, to_open),
        Err(refused) => push_short(text, ShortReply::Refused(refused)),
    }
}

/// Adds what is answered to these bytes.
fn push_boards(
    text: &mut Vec<u8>,
    session: &Session,
    is_open: bool,
    bytes: &[u8],
) -> Result<(), AllocError>
    ensures { OnOk result (text.new.items ≡ text.old.items ++ boards_text session.now is_open bytes.now) }
{
    match read_asked(bytes) {
        Some(Asked::Whole(key)) => push_whole_to(text, session, is_open, key),
        Some(Asked::OnePlay(key, play)) => push_one_to(text, session, key, play),
        Some(Asked::Switch(key, to_open)) => push_switched_by(text, session, key, to_open),
        None => push_short(text, ShortReply::BadLine),
    }
}

/// What is answered to these bytes, where players are told of other tables or not.
///
/// To a player's key: `OK`, whether he is told of other tables, of each play of his pair that is over (finished, or void or
/// adjusted in a round that has ended),
/// the board, the names, the hands, the calls, the cards, the claim and what came of it, by round and by the index in the set,
/// each with the other tables that have finished the board and what it is worth, if he is told of them, and a full stop. To the
/// director's key: the rulings that change what came of a play. To his key and the round, the table and the index of a play:
/// the same of that play as players are told, whatever its state. To his key and `OPEN` or `SHUT`: that.
///
/// Refused are `BadLine` for bytes of no such form, `NoKey` for a key that is nobody's, `NotAllowed` where a player says more
/// than his key, and then `NoSuchPlay` and `NotDealt`. `None` where memory was refused for the text.
pub fn told_boards(session: &Session, alloc: Global, is_open: bool, bytes: &[u8]) -> Option<Vec<u8>>
    ensures { IfSome result (λ text. text.items ≡ boards_text session.now is_open bytes.now) }
{
    let mut text = Vec::new(alloc);
    match push_boards(&mut text, session, is_open, bytes) {
        Ok(()) => Some(text),
        Err(_) => None,
    }
}

/// Whether players are told of other tables once these bytes are answered: as the director says, and else as before.
pub fn opened_by(session: &Session, is_open: bool, bytes: &[u8]) -> bool
    ensures { result ≡ opened_by session.now is_open bytes.now }
{
    match read_asked(bytes) {
        Some(Asked::Switch(key, to_open)) => {
            if check_director(session.config(), key).is_ok() {
                to_open
            } else {
                is_open
            }
        }
        _ => is_open,
    }
}
