//! The names of the players, as they are told to who has a key.
ghost use Rattle.std.specs.Prelude.{◌≡◌, ◌++◌, codes, IfOk};
ghost use Rattle.line_replies.specs.ReplyTexts.{short_text};
ghost use Rattle.table_pages.specs.People.{names_text};

use line_replies::{ReplyText, ShortReply};
use std::alloc::{AllocError, Global};

/// These lines between `OK` and a full stop on lines of their own.
fn listed(alloc: Global, people: &[u8]) -> Result<Vec<u8>, AllocError>
    ensures { IfOk result (λ text. text.items ≡ (codes "OK\n" ++ people.now) ++ codes ".\n") }
{
    let mut text = Vec::new(alloc);
    text.extend_from_slice(b"OK\n")?;
    text.extend_from_slice(people)?;
    text.extend_from_slice(b".\n")?;
    Ok(text)
}

/// A reply of one line.
fn refused(alloc: Global, reply: ShortReply) -> Result<Vec<u8>, AllocError>
    ensures { IfOk result (λ text. text.items ≡ short_text reply) }
{
    let mut line = ReplyText::new();
    reply.push_to(&mut line);
    let mut text = Vec::new(alloc);
    text.extend_from_slice(line.as_str().as_bytes())?;
    Ok(text)
}

/// What is told of the names by these lines to one who is answered so.
#[tactic(auto, using(crate::proofs::NamesTold::refusal_told))]
pub(crate) fn names_text(
    alloc: Global,
    people: &[u8],
    reply: ShortReply,
) -> Result<Vec<u8>, AllocError>
    ensures { IfOk result (λ text. text.items ≡ names_text people.now reply) }
{
    match reply {
        ShortReply::Done => listed(alloc, people),
        _ => refused(alloc, reply),
    }
}
