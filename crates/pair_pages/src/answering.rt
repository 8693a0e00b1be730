//! A body of lines, served over the two stores of a pair.
ghost use Rattle.std.specs.Prelude.{◌<◌, false, length, IfSome};
ghost use Rattle.session_pair.specs.Telling.{HasConfirmed};
ghost use Rattle.pair_pages.specs.Pair.{pair_of, told_text, IsServedTwice, CountsInPair};

use bridge_endings::Cache;
use bridge_session::Session;
use sector_disk::SectorDisk;
use session_pair::settle_served;
use session_store::Store;
use std::alloc::Global;
use table_pages::{Replies, answer_lines};
use table_server::LineSet;

/// What came of a body of lines.
#[derive(Drop)]
pub struct ServedTwice {
    /// The replies of a side that works; `None` where memory was refused for them, or nothing may be told.
    pub replies: Option<Replies>,
    /// Whether nothing more may be told.
    pub stopped: bool,
}

/// Serves a body of fewer than 65,536 bytes over the first store and then over the second, and settles the pair: only then is
/// there a text to be told, that of a side that works. Where the pair cannot be settled nothing may be told.
pub fn serve_twice<A: SectorDisk + Drop, B: SectorDisk + Drop>(
    first: &mut Store<A, Session>,
    second: &mut Store<B, Session>,
    set: LineSet,
    alloc: Global,
    cache: &mut Cache,
    body: &[u8],
) -> ServedTwice
    requires first { HasConfirmed first.old }
    requires second { HasConfirmed second.old }
    requires short { length body.now < 65536 }
    ensures served { IsServedTwice A.disk B.disk set (pair_of first.old second.old false) body.now (told_text result.replies)
        (pair_of first.new second.new result.stopped) }
    ensures counted { IfSome result.replies (λ replies. CountsInPair set (pair_of first.old second.old false) body.now replies.wrong_keys) }
    ensures confirmed { HasConfirmed first.new × HasConfirmed second.new }
{
    let ours = answer_lines(first, set, alloc, cache, body);
    let theirs = answer_lines(second, set, alloc, cache, body);
    if settle_served(first, second) {
        if first.has_failed() {
            return ServedTwice {
                replies: theirs,
                stopped: false,
            };
        }
        return ServedTwice {
            replies: ours,
            stopped: false,
        };
    }
    ServedTwice {
        replies: None,
        stopped: true,
    }
}
