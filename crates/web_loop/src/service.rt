//! A service that may come to its end, counts the offences that it was asked with, and may be asked to wait.
ghost use Rattle.std.specs.Prelude.{◌≡◌, ℕ, Bool, true, false, List, Option};
ghost use Rattle.std.specs.Option.{option_copied};
ghost use Rattle.http_server.specs.declared.state.Config.{Config as ConfigType};

use bytes::Bytes;
use http_server::Service;

/// A service that says whether it still serves, and how many offences it has answered. An offence is what slows the address
/// that it came from, as a guess at a key; what counts as one, and how many a request has, the service says.
///
/// A request may ask to wait: then its answer, which the service gives at once as any other, is put off until what the request
/// wishes for has come, or 15 seconds have passed.
pub trait LastingService: Service {
    // whether it still serves
    ghost lasts: { Self → Bool };

    // how many offences it has answered
    ghost offences: { Self → ℕ };

    // how many requests that wait it has answered
    ghost waits: { Self → ℕ };

    // what the last request wishes for, if it waits
    ghost wish: { Self → Option (List ℕ) };

    // what was wished for has not come yet: what was told is told still
    ghost stays: { Self → List ℕ → Type 0 };

    // connections that have these limits may be answered by it
    ghost limits: { ConfigType → Type 0 };

    /// Whether it still serves. Once it does not, nobody is let in, and clients have turns until what is pending is sent, for about a second.
    fn lasts(&self) -> bool
        ensures { result ≡ lasts self.now };

    /// How many offences it has answered since it began, or so many as a `u64` can count.
    fn offences(&self) -> u64
        ensures { result ≡ offences self.now };

    /// How many requests that wait it has answered since it began, or so many as a `u64` can count.
    fn waits(&self) -> u64
        ensures { result ≡ waits self.now };

    /// What the last request wishes for; `None` where it does not wait.
    fn wish(&self) -> Option<&Bytes>
        ensures { option_copied result ≡ wish self.now };

    /// Whether what was wished for has come.
    fn has_come(&self, wanted: &[u8]) -> bool
        ensures come { result ≡ true → ¬ (stays self.now wanted.now) }
        ensures stays { result ≡ false → stays self.now wanted.now };
}
