//! Keys that nobody has.
ghost use Rattle.std.specs.Prelude.{◌≡◌, ℕ, List, true};
ghost use Rattle.line_replies.specs.ReplyTexts.{short_text};
ghost use Rattle.line_replies.specs.declared.short_reply.ShortReply.TheVariants.{Refused};
ghost use Rattle.session_rules.specs.declared.refused.Refused.TheVariants.{NoKey};
ghost use Rattle.session_rules.specs.State.{SessionValue};
ghost use Rattle.line_replies.specs.KeyWord.{key_of_word};
ghost use Rattle.page_replies.specs.Place.{place_text};
ghost use Rattle.page_replies.specs.Tables.{tables_text};
ghost use Rattle.page_replies.specs.ToldResults.{ResultsTo};
ghost use Rattle.page_replies.specs.WrongKey.{is_wrong_key};

use bridge_session::Session;
use bridge_table::is_nobodys;
use line_replies::read_key;

/// Whether these bytes are a key that is nobody's in this session.
pub fn is_wrong_key(session: &Session, bytes: &[u8]) -> bool
    ensures { result ≡ is_wrong_key session.now.configuration bytes.now }
{
    match read_key(bytes) {
        Some(key) => is_nobodys(session.config(), key),
        None => false,
    }
}

/// A key that is nobody's is answered by `NoKey`, whatever it asks for.
pub fn wrong_keys_are_told()
    ensures place { (s : SessionValue) (bytes : List ℕ) → is_wrong_key s.configuration bytes ≡ true → place_text s bytes ≡ short_text (Refused NoKey) }
    ensures tables { (s : SessionValue) (bytes : List ℕ) → is_wrong_key s.configuration bytes ≡ true → tables_text s bytes ≡ short_text (Refused NoKey) }
    ensures results { (s : SessionValue) (bytes text : List ℕ) → is_wrong_key s.configuration bytes ≡ true → ResultsTo s (key_of_word bytes) text → text ≡ short_text (Refused NoKey) }
{}
