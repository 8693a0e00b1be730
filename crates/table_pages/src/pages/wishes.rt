//! What requests wish for.
ghost use Rattle.std.specs.Prelude.{◌≡◌, None, IfOk};
ghost use Rattle.table_pages.specs.Keeping.{Keeps};
ghost use Rattle.table_pages.specs.Waits.{wish_by, wish_of};

use super::TablePages;
use crate::line_server::LineServer;
use crate::seconds::Seconds;
use bytes::Bytes;
use line_replies::ShortReply;
use std::alloc::AllocError;
use web_requests::Route;

/// The most bytes of a body that is kept.
const LONGEST_WISH: usize = 8192;

/// What the last request wishes for, and how many had a wish.
#[derive(Drop)]
pub struct Wishes {
    /// The body of the last request, where it waits.
    pub(crate) wish: Option<Bytes>,
    /// How many requests with a wish were answered.
    pub(crate) waits: u64,
}

impl Wishes {
    /// None yet.
    pub(super) fn new() -> Wishes
        ensures wish { result.wish ≡ None }
        ensures waits { result.waits ≡ 0 }
    {
        Wishes {
            wish: None,
            waits: 0,
        }
    }

    /// Keeps the wish of a request.
    pub(super) fn keep(&mut self, wish: Option<Bytes>)
        ensures { Keeps wish self.old self.new }
    {
        if wish.is_some() {
            self.waits = self.waits.saturating_add(1);
        }
        self.wish = wish;
    }
}

/// What a body that is answered so wishes for. The error is that memory was refused.
fn wish_by(reply: ShortReply, body: &Bytes) -> Result<Option<Bytes>, AllocError>
    ensures { IfOk result (λ wish. wish ≡ wish_by reply body.now) }
{
    match reply {
        ShortReply::Done if body.len() <= LONGEST_WISH => Ok(Some(body.clone()?)),
        _ => Ok(None),
    }
}

impl<T: LineServer, K: Seconds> TablePages<T, K> {
    /// What a request on this route with this body wishes for. The error is that memory was refused.
    pub(super) fn wish_of(&self, route: Route, body: &Bytes) -> Result<Option<Bytes>, AllocError>
        ensures { IfOk result (λ wish. wish ≡ wish_of T.waits route self.now.server body.now) }
    {
        match route {
            Route::Wait => wish_by(self.server.wait(body.as_slice()), body),
            _ => Ok(None),
        }
    }
}
