//! A service that answers all requests alike.
ghost use Rattle.std.specs.Prelude.{true, None, ⊤};

use bytes::Bytes;
use http::Request;
use http_server::{Response, Service};
use std::alloc::AllocError;
use web_loop::LastingService;

/// Counts what is posted as offences.
#[derive(Drop)]
pub struct GuestBook {
    /// How many there were.
    pub posts: u64,
}

impl Service for GuestBook {
    ghost answers = { λ old request response new. ⊤ };

    fn call(
        &mut self,
        request: &Request<Bytes>,
        _response: &mut Response,
    ) -> Result<(), AllocError> {
        if request.method().as_str() == "POST" {
            self.posts = self.posts.saturating_add(1);
        }
        Ok(())
    }
}

impl LastingService for GuestBook {
    ghost lasts = { λ book. true };

    ghost offences = { λ book. book.posts };

    ghost waits = { λ book. 0 };

    ghost wish = { λ book. None };

    ghost stays = { λ book wanted. ⊤ };

    ghost limits = { λ config. ⊤ };

    fn lasts(&self) -> bool {
        true
    }

    fn offences(&self) -> u64 {
        self.posts
    }

    fn waits(&self) -> u64 {
        0
    }

    fn wish(&self) -> Option<&Bytes> {
        None
    }

    fn has_come(&self, _wanted: &[u8]) -> bool {
        false
    }
}
