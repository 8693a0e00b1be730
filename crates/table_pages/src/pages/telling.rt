//! What the server of lines tells.
ghost use Rattle.std.specs.Prelude.{◌≡◌, IfSome};

use super::TablePages;
use crate::line_server::LineServer;
use crate::seconds::Seconds;

impl<T: LineServer, K: Seconds> TablePages<T, K> {
    /// What is told of boards where these bytes are posted. `None` where memory is refused.
    pub(super) fn boards(&self, key: &[u8]) -> Option<Vec<u8>>
        ensures { IfSome result (λ text. text.items ≡ T.boards self.now.server self.now.is_open key.now) }
    {
        self.server.boards(self.alloc, self.is_open, key)
    }

    /// Whether players are told of other tables once these bytes are answered.
    pub(super) fn opens(&self, key: &[u8]) -> bool
        ensures { result ≡ T.opens self.now.server self.now.is_open key.now }
    {
        self.server.opens(self.is_open, key)
    }

    /// What is told of the results to the holder of a key. `None` where memory is refused.
    pub(super) fn results(&self, key: &[u8]) -> Option<Vec<u8>>
        ensures { IfSome result (λ text. T.results self.now.server key.now text.items) }
    {
        self.server.results(self.alloc, key)
    }
}
