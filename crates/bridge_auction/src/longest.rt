//! How long an auction can be.
ghost use Rattle.std.specs.Prelude.{◌≡◌, ◌≤◌, List, length};
ghost use Rattle.bridge_auction.specs.declared.call.Call.{Call};
ghost use Rattle.bridge_auction.specs.Legal.{IsLegal};

/// The most calls that an auction has: three passes, then each of the 35 bids with two passes, a double,
/// two passes, a redouble and two passes, then a last pass.
pub const MOST_CALLS: usize = 319;

/// No legal list of calls is longer than this (Laws 17 to 22).
pub fn longest_auction() -> usize
    ensures longest { (calls : List Call) → IsLegal calls → length calls ≤ result }
    ensures value { result ≡ 319 }
{
    MOST_CALLS
}
