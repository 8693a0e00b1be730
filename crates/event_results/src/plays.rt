//! The plays of each section of which something came.
ghost use Rattle.std.specs.Prelude.{◌≡◌, All, map, IfOk};
ghost use Rattle.bridge_results.specs.Plays.{plays_of, HasTricksWithin};

use bridge_results::TablePlay;
use bridge_results::session_plays::plays_of as plays_in;
use bridge_session::Session;
use std::alloc::{AllocError, Global};

/// The plays of a section.
fn plays_of(alloc: Global, session: &Session) -> Result<Vec<TablePlay>, AllocError>
    ensures plays { IfOk result (λ plays. plays.items ≡ plays_of session.now) }
    ensures tricks { All HasTricksWithin (plays_of session.now) }
{
    // What each session is, which a clause of this call states.
    let _parts = session.parts();
    Vec::from_slice(alloc, plays_in(session).as_slice())
}

/// Those of each section.
pub fn plays_by_section(
    alloc: Global,
    sections: &[Session],
) -> Result<Vec<Vec<TablePlay>>, AllocError>
    ensures plays { IfOk result (λ lists. map (λ plays. plays.items) lists.items ≡ map plays_of sections.now) }
    ensures tricks { IfOk result (λ lists. All (All HasTricksWithin) (map (λ plays. plays.items) lists.items)) }
{
    let mut lists = Vec::with_capacity(alloc, sections.len())?;
    for session in sections {
        lists.push(plays_of(alloc, session)?)?;
    }
    Ok(lists)
}
