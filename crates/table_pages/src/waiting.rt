//! Requests that wait, over a session.
ghost use Rattle.std.specs.Prelude.{◌≡◌, ◌≢◌, ◌++◌, true, false, ℕ, List, Some, MatchOption};
ghost use Rattle.line_replies.specs.KeyWord.{key_of_word};
ghost use Rattle.table_pages.specs.FirstLine.{first_line, behind_line};
ghost use Rattle.table_pages.specs.Waits.{reply_to, wait_reply, TellsPlayer, director_text, TellsNow, IsToldStill};

use bridge_config::Key;
use bridge_session::{Refused, Session};
use bridge_table::is_nobodys;
use desk_replies::{Desk, standing_lines};
use line_replies::{ReplyText, ShortReply, read_key};
use line_text::split_once;
use page_replies::{push_place, push_tables};
use table_server::{a_question_has_one_answer, view_text};

/// What stands before the first line feed of a body and what stands behind it; all and nothing where there is none.
pub(crate) fn split_body(body: &[u8]) -> (&[u8], &[u8])
    ensures first { result.0.now ≡ first_line body.now }
    ensures behind { result.1.now ≡ behind_line body.now }
{
    match split_once(body, b'\n') {
        Some(parts) => parts,
        None => (body, b""),
    }
}

/// How the holder of a key is answered.
fn reply_to(session: &Session, key: Key) -> ShortReply
    ensures { result ≡ reply_to session.now.configuration key }
{
    if is_nobodys(session.config(), key) {
        ShortReply::Refused(Refused::NoKey)
    } else {
        ShortReply::Done
    }
}

/// How a request to wait is answered: `BadLine` where the first line of its body is no key, and `NoKey` where it is nobody's.
pub(crate) fn wait_reply(session: &Session, body: &[u8]) -> ShortReply
    ensures { result ≡ wait_reply session.now.configuration body.now }
{
    let (word, _) = split_body(body);
    match read_key(word) {
        Some(key) => reply_to(session, key),
        None => ShortReply::BadLine,
    }
}

/// What stands behind the beginning of a text, where it begins so.
fn behind<'a>(text: &'a [u8], beginning: &[u8]) -> Option<&'a [u8]>
    ensures { MatchOption result ((rest : List ℕ) → text.now ≢ beginning.now ++ rest) (λ rest. text.now ≡ beginning.now ++ rest.now) }
{
    text.strip_prefix(beginning)
}

/// Whether a text is two others, one behind the other.
fn is_both(text: &[u8], one: &[u8], other: &[u8]) -> bool
    ensures same { result ≡ true → text.now ≡ one.now ++ other.now }
    ensures other { result ≡ false → text.now ≢ one.now ++ other.now }
{
    match behind(text, one) {
        Some(rest) => rest == other,
        None => false,
    }
}

/// Whether a text is three others, one behind the other.
fn is_all(text: &[u8], one: &[u8], other: &[u8], third: &[u8]) -> bool
    ensures same { result ≡ true → text.now ≡ one.now ++ (other.now ++ third.now) }
    ensures other { result ≡ false → text.now ≢ one.now ++ (other.now ++ third.now) }
{
    match behind(text, one) {
        Some(rest) => is_both(rest, other, third),
        None => false,
    }
}

/// Whether a text is what the player of a key is told now.
fn is_told_to_player(session: &Session, desk: &Desk, key: Key, word: &[u8], text: &[u8]) -> bool
    requires { key_of_word word.now ≡ Some key }
    ensures still { result ≡ true → TellsPlayer session.now desk.now key text.now }
    ensures other { result ≡ false → ¬ (TellsPlayer session.now desk.now key text.now) }
{
    a_question_has_one_answer();
    let mut place = ReplyText::new();
    push_place(&mut place, session, word);
    let seen = view_text(session, key);
    let lines = standing_lines(session, desk, key);
    is_all(
        text,
        place.as_str().as_bytes(),
        seen.as_str().as_bytes(),
        lines.as_str().as_bytes(),
    )
}

/// Whether a text is what the director is told now, whose key this is.
fn is_told_to_director(session: &Session, desk: &Desk, key: Key, word: &[u8], text: &[u8]) -> bool
    requires { key_of_word word.now ≡ Some key }
    ensures still { result ≡ true → text.now ≡ director_text session.now desk.now key }
    ensures other { result ≡ false → text.now ≢ director_text session.now desk.now key }
{
    let mut tables = ReplyText::new();
    push_tables(&mut tables, session, word);
    let standing = standing_lines(session, desk, key);
    is_both(
        text,
        tables.as_str().as_bytes(),
        standing.as_str().as_bytes(),
    )
}

/// Whether a text is what the holder of a key is told now.
fn is_told_now(session: &Session, desk: &Desk, key: Key, word: &[u8], text: &[u8]) -> bool
    requires { key_of_word word.now ≡ Some key }
    ensures still { result ≡ true → TellsNow session.now desk.now key text.now }
    ensures other { result ≡ false → ¬ (TellsNow session.now desk.now key text.now) }
{
    if key == session.config().fields().director {
        is_told_to_director(session, desk, key, word, text)
    } else {
        is_told_to_player(session, desk, key, word, text)
    }
}

/// Whether what was told last, as the body of a request that waits says, is told still: a player his place, the reply to `SEE` and
/// the standing lines of the desk, the director all tables and those lines.
pub(crate) fn is_told_still(session: &Session, desk: &Desk, body: &[u8]) -> bool
    ensures still { result ≡ true → IsToldStill session.now desk.now body.now }
    ensures other { result ≡ false → ¬ (IsToldStill session.now desk.now body.now) }
{
    let (word, text) = split_body(body);
    match read_key(word) {
        Some(key) => is_told_now(session, desk, key, word, text),
        None => false,
    }
}
