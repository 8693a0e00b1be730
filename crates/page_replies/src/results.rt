//! The results of a session, told to who may see its rankings.
ghost use Rattle.std.specs.Prelude.{ℕ, List, Option, IfSome};
ghost use Rattle.line_text.specs.Streams.{stream, Written};
ghost use Rattle.session_rules.specs.State.{ranking_asker};
ghost use Rattle.line_replies.specs.ReplyTexts.{short_text};
ghost use Rattle.line_replies.specs.KeyWord.{key_of_word};
ghost use Rattle.page_layout.specs.declared.format.Format.TheVariants.{Plain};
ghost use Rattle.bridge_results.specs.ResultsText.{IsPageText};
ghost use Rattle.page_replies.specs.ToldResults.{ResultsBy, ResultsTo};

use bridge_config::Key;
use bridge_results::write_results;
use bridge_session::Session;
use bridge_table::check_asker;
use line_replies::{ReplyText, ShortReply, read_key};
use line_text::write_text;
use page_layout::Format;
use std::alloc::Global;
use std::io::{Error, Write};

/// Writes a reply of one line.
fn write_short<W: Write>(reply: ShortReply, writer: &mut W) -> Result<(), Error>
    ensures { Written (stream W.contents writer.old writer.new) (short_text reply) result }
{
    let mut text = ReplyText::new();
    reply.push_to(&mut text);
    write_text(writer, text.as_str().as_bytes())
}

/// Writes the results.
fn write_all<W: Write>(session: &Session, writer: &mut W) -> Result<(), Error>
    ensures { (text : List ℕ) × IsPageText Plain session.now text × Written (stream W.contents writer.old writer.new) text result }
{
    write_results(session, Format::Plain, writer)
}

/// Writes the results to the holder of a key who may see the rankings, or the refusal.
fn write_to<W: Write>(session: &Session, key: Key, writer: &mut W) -> Result<(), Error>
    ensures { (text : List ℕ) × ResultsBy session.now (ranking_asker session.now.configuration session.now.round key.0) text
        × Written (stream W.contents writer.old writer.new) text result }
{
    match check_asker(session.config(), session.round(), key) {
        Ok(()) => write_all(session, writer),
        Err(refused) => write_short(ShortReply::Refused(refused), writer),
    }
}

/// Writes what is answered to these bytes, which are to be a key.
fn write_reply<W: Write>(session: &Session, bytes: &[u8], writer: &mut W) -> Result<(), Error>
    ensures { (text : List ℕ) × ResultsTo session.now (key_of_word bytes.now) text
        × Written (stream W.contents writer.old writer.new) text result }
{
    match read_key(bytes) {
        Some(key) => write_to(session, key, writer),
        None => write_short(ShortReply::BadLine, writer),
    }
}

/// What is answered to these bytes, which are to be the key of one who may see the rankings: the director at any time, and
/// a player once the session is closed. It is the results in plain text, or the refusal: `BadLine` where the bytes are no
/// key, `NoKey` where it is nobody's, and `NotAllowed` where it is a player's and the session is not closed. `None` where
/// memory was refused for the text.
pub fn told_results(session: &Session, alloc: Global, bytes: &[u8]) -> Option<Vec<u8>>
    ensures { IfSome result (λ text. ResultsTo session.now (key_of_word bytes.now) text.items) }
{
    let mut text = Vec::new(alloc);
    match write_reply(session, bytes, &mut text) {
        Ok(()) => Some(text),
        Err(_) => None,
    }
}
