//! The replies to questions.
ghost use Rattle.std.specs.Prelude.{◌≡◌, [], List, ℕ, IfErr};
ghost use Rattle.line_text.specs.Streams.{stream, Written};
ghost use Rattle.bridge_endings.specs.Worth.{worth_of};
ghost use Rattle.line_replies.specs.declared.fault.ServeFault.TheVariants.{Write as WriteFault};
ghost use Rattle.table_server.specs.declared.asked.Question.TheVariants as question;
ghost use Rattle.line_replies.specs.declared.short_reply.ShortReply.TheVariants.{Refused as RefusedReply};
ghost use Rattle.line_replies.specs.ReplyTexts.{short_text};
ghost use Rattle.table_server.specs.Told.{Tells};

use crate::asked::Question;
use crate::pbn_reply::write_pbn_reply;
use bridge_config::Key;
use bridge_endings::{Cache, Ending, solve};
use bridge_session::{Field, PlayId, Refused, Session, check_director};
use line_replies::reply_text::{ReplyText, push_solved};
use line_replies::{ServeFault, ShortReply, push_ranking, push_view, write_whole};
use sector_disk::SectorDisk;
use session_store::Store;
use std::io::Write;

/// The text of a refusal.
fn refusal_text(refused: Refused) -> ReplyText
    ensures { result.bytes ≡ short_text (RefusedReply refused) }
{
    let mut text = ReplyText::new();
    ShortReply::Refused(refused).push_to(&mut text);
    text
}

/// The text of the reply to `SEE`: what a key sees, or the refusal of one that sees nothing.
pub fn view_text(session: &Session, key: Key) -> ReplyText
    ensures { Tells session.now (question.See key) result.bytes }
{
    match session.see(key) {
        Err(refused) => refusal_text(refused),
        Ok(view) => {
            let mut text = ReplyText::new();
            push_view(&mut text, &view);
            text
        }
    }
}

/// The text of the reply to `RANK`.
fn ranking_text(session: &Session, key: Key, field: Field) -> ReplyText
    ensures { Tells session.now (question.Rank key field) result.bytes }
{
    match session.ranking(key, field) {
        Err(refused) => refusal_text(refused),
        Ok(ranking) => {
            let mut text = ReplyText::new();
            let scoring = session.config().fields().scoring;
            push_ranking(&mut text, scoring, ranking.as_slice());
            text
        }
    }
}

/// The tricks of North and South in an ending.
fn worth(ending: &Ending, cache: &mut Option<&mut Cache>) -> u8
    ensures { result ≡ worth_of ending.now }
{
    match cache {
        Some(cache) => solve(ending, Some(cache)),
        None => solve(ending, None),
    }
}

/// The text of the reply to `SOLVE`.
fn worth_text(
    session: &Session,
    key: Key,
    play: PlayId,
    cards: u8,
    cache: &mut Option<&mut Cache>,
) -> ReplyText
    ensures { Tells session.now (question.Solve key play cards) result.bytes }
{
    match session.ending(key, play, cards) {
        Err(refused) => refusal_text(refused),
        Ok(ending) => {
            let mut text = ReplyText::new();
            let ns = worth(&ending, cache);
            let tricks = ending.hands()[0].len() as u8;
            push_solved(&mut text, ns, tricks.saturating_sub(ns));
            text
        }
    }
}

/// Writes the reply to `PBN`.
fn write_results<W: Write>(session: &Session, key: Key, writer: &mut W) -> Result<(), ServeFault>
    ensures told { (text : List ℕ) × Tells session.now (question.Pbn key) text
        × Written (stream W.contents writer.old writer.new) text result }
    ensures fault { IfErr result (λ fault. fault ≡ WriteFault) }
{
    match check_director(session.config(), key) {
        Err(refused) => write_whole(writer, refusal_text(refused).as_str()),
        Ok(()) => match write_pbn_reply(session, writer) {
            Ok(()) => Ok(()),
            Err(_) => Err(ServeFault::Write),
        },
    }
}

/// Writes the reply to a question over a store of which nothing is pending.
pub fn write_answer<D: SectorDisk + Drop, W: Write>(
    store: &Store<D, Session>,
    question: Question,
    cache: &mut Option<&mut Cache>,
    writer: &mut W,
) -> Result<(), ServeFault>
    requires confirmed { store.now.pending ≡ [] }
    ensures told { (text : List ℕ) × Tells store.now.state question text
        × Written (stream W.contents writer.old writer.new) text result }
    ensures fault { IfErr result (λ fault. fault ≡ WriteFault) }
{
    let session = store.state();
    match question {
        Question::Sync => write_whole(writer, "OK\n"),
        Question::See { key } => write_whole(writer, view_text(session, key).as_str()),
        Question::Rank { key, field } => {
            write_whole(writer, ranking_text(session, key, field).as_str())
        }
        Question::Solve { key, play, cards } => {
            let text = worth_text(session, key, play, cards, cache);
            write_whole(writer, text.as_str())
        }
        Question::Pbn { key } => write_results(session, key, writer),
    }
}
