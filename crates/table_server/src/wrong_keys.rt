//! Keys that nobody has, as lines have them.
ghost use Rattle.std.specs.Prelude.{◌≡◌, if◌then◌else◌};
ghost use Rattle.table_server.specs.WrongKeys.{has_wrong_key, key_asked, key_of_question};

use crate::asked::{Asked, Question};
use bridge_config::Key;
use bridge_session::Session;
use bridge_table::is_nobodys;

impl Question {
    /// The key of who asks, if the question has one.
    fn key(&self) -> Option<Key>
        ensures { result ≡ key_of_question self.now }
    {
        match *self {
            Question::Sync => None,
            Question::See { key }
            | Question::Rank { key, .. }
            | Question::Solve { key, .. }
            | Question::Pbn { key } => Some(key),
        }
    }
}

impl Asked {
    /// The key of the line, if it has one.
    fn key(&self) -> Option<Key>
        ensures { result ≡ key_asked self.now }
    {
        match self {
            Asked::Change(action) => Some(action.act().key()),
            Asked::Told(question) => question.key(),
            Asked::BadLine | Asked::LongLine => None,
        }
    }
}

/// Whether a line has a key that is nobody's in this session.
fn has_wrong_key(session: &Session, asked: &Asked) -> bool
    ensures { result ≡ has_wrong_key session.now.configuration asked.now }
{
    match asked.key() {
        Some(key) => is_nobodys(session.config(), key),
        None => false,
    }
}

/// How many wrong keys a line has: one, where its key is nobody's in this session.
pub(crate) fn wrong_keys_in(session: &Session, asked: &Asked) -> u64
    ensures { result ≡ (if has_wrong_key session.now.configuration asked.now then 1 else 0) }
{
    if has_wrong_key(session, asked) { 1 } else { 0 }
}
