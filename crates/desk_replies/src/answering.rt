//! What the desk answers.
ghost use Rattle.std.specs.Prelude.{◌≡◌, ◌++◌, OnOk, IfSome};
ghost use Rattle.desk_replies.specs.Taken.{taken, left_by};
ghost use Rattle.desk_replies.specs.Told.{taken_text, desk_text, desk_after};

use crate::asked::{Asked, read_asked};
use crate::desk::Desk;
use crate::event::push_keyless;
use crate::telling::push_standing;
use crate::text::push_refused;
use bridge_session::Session;
use std::alloc::{AllocError, Global};

/// Takes what is asked, and adds what is answered.
fn push_taken(
    text: &mut Vec<u8>,
    session: &Session,
    desk: &mut Desk,
    at: u32,
    asked: Asked,
) -> Result<(), AllocError>
    ensures text { OnOk result (text.new.items ≡ text.old.items ++ taken_text session.now at asked.key.0 (taken session.now desk.old at asked)) }
    ensures desk { desk.new ≡ left_by desk.old (taken session.now desk.old at asked) }
{
    let key = asked.key;
    match desk.take(session, at, asked) {
        Ok(()) => push_standing(text, session, desk, at, key),
        Err(refused) => push_refused(text, refused),
    }
}

/// Takes what these bytes ask for, and adds what is answered.
fn push_answer(
    text: &mut Vec<u8>,
    session: &Session,
    desk: &mut Desk,
    at: u32,
    bytes: &[u8],
) -> Result<(), AllocError>
    ensures text { OnOk result (text.new.items ≡ text.old.items ++ desk_text session.now desk.old at bytes.now) }
    ensures desk { desk.new ≡ desk_after session.now desk.old at bytes.now }
{
    match read_asked(bytes) {
        Some(asked) => push_taken(text, session, desk, at, asked),
        None => push_keyless(text, session.config().fields(), bytes),
    }
}

/// Takes what these bytes ask for at a second, counted since the server began, and gives what is answered.
///
/// A key alone is answered by what stands: `OK`, the second, the notice, the second at which the clock ends, the call of the
/// player's own table, what was said with the claim that he is shown, what was answered to it and whom he meets in the next round,
/// or all calls where the key is the director's, each as far as there is one, and a full stop. So is what is taken: of the director `NOTICE` and a text, or alone, which takes it down, `CLOCK` and minutes, or
/// alone, and `ANSWERED` and a table; of a player `CALL` and a text, or alone, for his own table, `STATEMENT` and a text, for
/// his own claim while it stands, and `REFUSAL`, of the claim that he is asked for. A second call of a table and a second statement with a claim leave the first.
///
/// No bytes ask of which event the session is. Refused are `BadLine` for others of no such form, and then what `Desk::take`
/// refuses. `None` where memory was refused for the text; what was asked for is taken all the same.
pub fn answer_desk(
    session: &Session,
    desk: &mut Desk,
    alloc: Global,
    at: u32,
    bytes: &[u8],
) -> Option<Vec<u8>>
    ensures text { IfSome result (λ text. text.items ≡ desk_text session.now desk.old at bytes.now) }
    ensures desk { desk.new ≡ desk_after session.now desk.old at bytes.now }
{
    let mut text = Vec::new(alloc);
    match push_answer(&mut text, session, desk, at, bytes) {
        Ok(()) => Some(text),
        Err(_) => None,
    }
}
