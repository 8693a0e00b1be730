//! What a player is told of the desk: what stands at his own table.
ghost use Rattle.std.specs.Prelude.{◌≡◌, ◌+◌, ◌*◌, ◌≤◌, ◌++◌, Some};
ghost use Rattle.std.specs.Option.{option_copied};
ghost use Rattle.arrayvec.specs.ArrayString.{array_string_len};
ghost use Rattle.line_text.specs.Lines.{lines_text};
ghost use Rattle.session_rules.specs.Numbers.{IsTableNumber};
ghost use Rattle.session_rules.specs.State.{seating_of};
ghost use Rattle.desk_replies.specs.Claims.{claim_to};
ghost use Rattle.desk_replies.specs.Desk.{refusal_at};
ghost use Rattle.desk_replies.specs.Told.{said_lines, agreed_by, agreed_lines, refused_lines, own_call_lines, own_said_lines, own_answer_lines, own_lines};

use crate::claims::{SeenClaim, claim_to};
use crate::desk::Desk;
use crate::next_table::push_next;
use crate::said::{ClaimRefusal, StandingClaim, Statement};
use crate::standing::{
    ANSWER_BYTES, CALL_BYTES, STANDING_BYTES, STATEMENT_BYTES, StandingText, push_line,
};
use crate::telling::push_call_if;
use bridge_cards::{Seat, seat_text};
use bridge_config::Key;
use bridge_play::Claim;
use bridge_session::Session;
use bridge_table::seat_by;

/// Adds what was said with a claim, if something was.
fn push_said(text: &mut StandingText, claim: Option<StandingClaim>, statement: Option<&Statement>)
    requires { array_string_len text.old + STATEMENT_BYTES ≤ STANDING_BYTES }
    ensures line { text.new.bytes ≡ text.old.bytes ++ lines_text (said_lines claim (option_copied statement.entry)) }
    ensures room { array_string_len text.new ≤ array_string_len text.old + STATEMENT_BYTES }
{
    match (claim, statement) {
        (Some(claim), Some(statement)) if statement.is_of(claim) => {
            push_line(text, "STATEMENT", statement.text.as_str());
        }
        _ => {}
    }
}

/// Adds the call of the table where the player of the key sits.
fn push_own_call(text: &mut StandingText, session: &Session, desk: &Desk, key: Key)
    requires { array_string_len text.old + CALL_BYTES ≤ STANDING_BYTES }
    ensures line { text.new.bytes ≡ text.old.bytes ++ lines_text (own_call_lines session.now.configuration.pairs desk.now (seating_of session.now.configuration session.now.round key.0)) }
    ensures room { array_string_len text.new ≤ array_string_len text.old + CALL_BYTES }
{
    let pairs = &session.config().fields().pairs;
    if let Ok(seating) = seat_by(session.config(), session.round(), key) {
        push_call_if(text, pairs, desk.call_at(seating.table));
    }
}

/// Adds what was said with the claim that the player of the key is shown.
fn push_own_said(text: &mut StandingText, session: &Session, desk: &Desk, key: Key)
    requires { array_string_len text.old + STATEMENT_BYTES ≤ STANDING_BYTES }
    ensures line { text.new.bytes ≡ text.old.bytes ++ lines_text (own_said_lines desk.now (claim_to session.now key.0)) }
    ensures room { array_string_len text.new ≤ array_string_len text.old + STATEMENT_BYTES }
{
    if let Ok(seen) = claim_to(session, key) {
        push_said(text, seen.standing(), desk.statement_at(seen.table));
    }
}

/// Adds that a seat has agreed to a claim, if it has.
fn push_agreed(text: &mut StandingText, claim: Claim, seat: Seat)
    requires { array_string_len text.old + ANSWER_BYTES ≤ STANDING_BYTES }
    ensures line { text.new.bytes ≡ text.old.bytes ++ lines_text (agreed_by claim seat) }
    ensures room { array_string_len text.new ≤ array_string_len text.old + ANSWER_BYTES }
{
    if claim.has_agreed(seat) {
        push_line(text, "AGREED", seat_text(seat));
    }
}

/// Adds who has agreed to a claim.
fn push_all_agreed(text: &mut StandingText, claim: Claim)
    requires { array_string_len text.old + 4 * ANSWER_BYTES ≤ STANDING_BYTES }
    ensures lines { text.new.bytes ≡ text.old.bytes ++ lines_text (agreed_lines (Some claim)) }
    ensures room { array_string_len text.new ≤ array_string_len text.old + 4 * ANSWER_BYTES }
{
    push_agreed(text, claim, Seat::North);
    push_agreed(text, claim, Seat::East);
    push_agreed(text, claim, Seat::South);
    push_agreed(text, claim, Seat::West);
}

/// Adds who has agreed to the claim that stands, if one does.
fn push_agreements(text: &mut StandingText, claim: Option<Claim>)
    requires { array_string_len text.old + 4 * ANSWER_BYTES ≤ STANDING_BYTES }
    ensures lines { text.new.bytes ≡ text.old.bytes ++ lines_text (agreed_lines claim) }
    ensures room { array_string_len text.new ≤ array_string_len text.old + 4 * ANSWER_BYTES }
{
    if let Some(claim) = claim {
        push_all_agreed(text, claim);
    }
}

/// Adds who refused the last claim in the play, if somebody said so.
fn push_refused(text: &mut StandingText, seen: &SeenClaim, refusal: Option<ClaimRefusal>)
    requires { array_string_len text.old + ANSWER_BYTES ≤ STANDING_BYTES }
    ensures line { text.new.bytes ≡ text.old.bytes ++ lines_text (refused_lines seen.now refusal) }
    ensures room { array_string_len text.new ≤ array_string_len text.old + ANSWER_BYTES }
{
    match refusal {
        Some(refusal) if seen.was_refused_by(refusal) => {
            push_line(text, "REFUSED", seat_text(refusal.seat));
        }
        _ => {}
    }
}

/// Adds what was answered to the claims that are seen.
fn push_answers(text: &mut StandingText, desk: &Desk, seen: &SeenClaim)
    requires table { IsTableNumber seen.now.table }
    requires room { array_string_len text.old + 5 * ANSWER_BYTES ≤ STANDING_BYTES }
    ensures lines { text.new.bytes ≡ text.old.bytes ++ lines_text (agreed_lines seen.now.claim ++ refused_lines seen.now (refusal_at desk.now seen.now.table)) }
    ensures room { array_string_len text.new ≤ array_string_len text.old + 5 * ANSWER_BYTES }
{
    push_agreements(text, seen.claim);
    push_refused(text, seen, desk.refusal_at(seen.table));
}

/// Adds what was answered to the claims that the player of the key is shown.
fn push_own_answers(text: &mut StandingText, session: &Session, desk: &Desk, key: Key)
    requires { array_string_len text.old + 5 * ANSWER_BYTES ≤ STANDING_BYTES }
    ensures lines { text.new.bytes ≡ text.old.bytes ++ lines_text (own_answer_lines desk.now (claim_to session.now key.0)) }
    ensures room { array_string_len text.new ≤ array_string_len text.old + 5 * ANSWER_BYTES }
{
    if let Ok(seen) = claim_to(session, key) {
        push_answers(text, desk, &seen);
    }
}

/// Adds what is told to the player of the key of his own table, and of his next one.
pub(crate) fn push_own(text: &mut StandingText, session: &Session, desk: &Desk, key: Key)
    requires { array_string_len text.old + 12 * CALL_BYTES ≤ STANDING_BYTES }
    ensures line { text.new.bytes ≡ text.old.bytes ++ lines_text (own_lines session.now desk.now key.0) }
    ensures room { array_string_len text.new ≤ array_string_len text.old + 12 * CALL_BYTES }
{
    push_own_call(text, session, desk, key);
    push_own_said(text, session, desk, key);
    push_own_answers(text, session, desk, key);
    push_next(text, session, key);
}
