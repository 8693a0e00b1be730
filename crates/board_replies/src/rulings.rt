//! The rulings that the director has made, as far as they change what came of a play.
ghost use Rattle.std.specs.Prelude.{◌≡◌, ◌≤◌, ◌∷◌, ◌++◌, [], OnOk, Contains, codes, Some, option_and_then};
ghost use Rattle.std.specs.Fmt.{decimal};
ghost use Rattle.std.specs.Option.{option_copied, option_to_list};
ghost use Rattle.line_text.specs.Lines.{lines_text};
ghost use Rattle.line_replies.specs.ReplyTexts.{each_spaced};
ghost use Rattle.session_rules.specs.Numbers.{IsBoardIndex};
ghost use Rattle.session_rules.specs.declared.ruling.Ruling.TheVariants as ruling;
ghost use Rattle.session_rules.specs.Outcome.{HasFewTricks};
ghost use Rattle.session_rules.specs.StateRange.{IsSession};
ghost use Rattle.board_replies.specs.KnownPlay.{seen_play};
ghost use Rattle.board_replies.specs.Rulings.{tricks_ruled, ruling_shown, ruling_words, ruled_line, ruled_by, ruled_at, ruled_in, ruled_lines};

use crate::known_play::{KnownPlay, known_at};
use crate::result_line::{push_assigned, push_averages};
use crate::text::{push_end, push_number, push_str, push_word};
use bridge_auction::Contract;
use bridge_cards::BoardNumber;
use bridge_movement::Row;
use bridge_play::Play;
use bridge_session::Session;
use session_rules::{Outcome, Ruling, TrickCount};
use std::alloc::AllocError;

/// Declarer has that many tricks by a ruling, where they are not those that were made.
fn tricks_ruled(contract: &Contract, tricks: u8, play: &Play) -> Option<Ruling>
    requires { tricks ≤ 13 }
    ensures { result ≡ tricks_ruled contract.now tricks play.now }
{
    if tricks == play.tricks(contract.declarer.side()) {
        None
    } else {
        Some(Ruling::Tricks(TrickCount::new(tricks).unwrap()))
    }
}

/// The same, once there is a contract.
fn tricks_ruled_in(contract: &Contract, tricks: u8, play: Option<&Play>) -> Option<Ruling>
    requires { tricks ≤ 13 }
    ensures { result ≡ option_and_then (tricks_ruled contract.now tricks) (option_copied play.entry) }
{
    tricks_ruled(contract, tricks, play?)
}

/// A score is assigned.
fn assigned(contract: Contract, tricks: u8) -> Option<Ruling>
    requires { tricks ≤ 13 }
    ensures { result ≡ Some (ruling.Assigned contract tricks) }
{
    let tricks = TrickCount::new(tricks).unwrap();
    Some(Ruling::Assigned { contract, tricks })
}

/// The ruling that a play shows: it is void, adjusted, has an assigned score, or other tricks than were made.
fn ruling_shown(outcome: Outcome, play: Option<&Play>) -> Option<Ruling>
    requires { HasFewTricks outcome }
    ensures { result ≡ ruling_shown outcome (option_copied play.entry) }
{
    match outcome {
        Outcome::Voided => Some(Ruling::Void),
        Outcome::Adjusted { ns, ew } => Some(Ruling::Adjusted { ns, ew }),
        Outcome::Assigned { contract, tricks } => assigned(contract, tricks),
        Outcome::Played { contract, tricks } => tricks_ruled_in(&contract, tricks, play),
        _ => None,
    }
}

/// Adds a number of tricks.
fn push_tricks(text: &mut Vec<u8>, tricks: TrickCount) -> Result<(), AllocError>
    ensures { OnOk result (text.new.items ≡ text.old.items ++ each_spaced (codes "TRICKS" ∷ decimal tricks ∷ [])) }
{
    push_word(text, "TRICKS")?;
    push_number(text, tricks.number())
}

/// Adds a ruling.
fn push_ruling(text: &mut Vec<u8>, ruling: Ruling) -> Result<(), AllocError>
    ensures { OnOk result (text.new.items ≡ text.old.items ++ each_spaced (ruling_words ruling)) }
{
    match ruling {
        Ruling::Void => push_word(text, "VOID"),
        Ruling::Adjusted { ns, ew } => push_averages(text, ns, ew),
        Ruling::Assigned { contract, tricks } => {
            push_assigned(text, contract, tricks.number(), None)
        }
        Ruling::Tricks(tricks) => push_tricks(text, tricks),
    }
}

/// Adds the line of a ruling.
fn push_ruled_line(
    text: &mut Vec<u8>,
    row: Row,
    index: u8,
    board: BoardNumber,
    ruling: Ruling,
) -> Result<(), AllocError>
    ensures { OnOk result (text.new.items ≡ text.old.items ++ (ruled_line row index board ruling ++ 10 ∷ [])) }
{
    push_str(text, "RULED")?;
    push_number(text, row.round)?;
    push_number(text, row.table)?;
    push_number(text, index)?;
    push_number(text, board.number())?;
    push_ruling(text, ruling)?;
    push_end(text)
}

/// Adds the line of the ruling that a play shows, if it shows one.
fn push_ruled_by(
    text: &mut Vec<u8>,
    row: Row,
    index: u8,
    known: &KnownPlay<'_>,
) -> Result<(), AllocError>
    requires { HasFewTricks known.now.outcome }
    ensures { OnOk result (text.new.items ≡ text.old.items ++ lines_text (option_to_list (ruled_by row index (seen_play known.now)))) }
{
    match ruling_shown(known.outcome, known.play) {
        Some(ruling) => push_ruled_line(text, row, index, known.board, ruling),
        None => Ok(()),
    }
}

/// Adds the line of the ruling on the play of the board at an index of a row's set, if it shows one.
fn push_ruled_at(
    text: &mut Vec<u8>,
    session: &Session,
    row: Row,
    index: u8,
) -> Result<(), AllocError>
    requires session { IsSession session.now }
    requires row { Contains session.now.configuration.movement.rows row }
    requires index { IsBoardIndex index }
    ensures { OnOk result (text.new.items ≡ text.old.items ++ lines_text (option_to_list (ruled_at session.now row index))) }
{
    match known_at(session, row, index) {
        Some(known) => push_ruled_by(text, row, index, &known),
        None => Ok(()),
    }
}

/// Adds the lines of the rulings on the plays of a row's set.
fn push_ruled_in(text: &mut Vec<u8>, session: &Session, row: Row) -> Result<(), AllocError>
    requires session { IsSession session.now }
    requires row { Contains session.now.configuration.movement.rows row }
    ensures { OnOk result (text.new.items ≡ text.old.items ++ lines_text (ruled_in session.now row)) }
{
    push_ruled_at(text, session, row, 1)?;
    push_ruled_at(text, session, row, 2)?;
    push_ruled_at(text, session, row, 3)
}

/// Adds the lines of all rulings, by round, table and index in the set.
pub(crate) fn push_rulings(text: &mut Vec<u8>, session: &Session) -> Result<(), AllocError>
    ensures { OnOk result (text.new.items ≡ text.old.items ++ lines_text (ruled_lines session.now)) }
{
    // What each session is, which a clause of this call states.
    let _parts = session.parts();
    let rows = session.config().fields().movement.rows();
    for row in rows {
        push_ruled_in(text, session, *row)?;
    }
    Ok(())
}
