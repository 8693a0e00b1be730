//! Shares as percentages.
ghost use Rattle.std.specs.Prelude.{◌≡◌, ◌≤◌, IfSome};
ghost use Rattle.bridge_score.specs.Percent.{percent_hundredths_of, IsNearest, share_percent};

use crate::ranking::Ranked;

/// The most that may be available to a pair.
const MOST_AVAILABLE: u32 = 10_000_000;

/// What was earned of what was available, in hundredths of a per cent, 0 to 10000, rounded to the nearest, and a half up.
/// `None` where nothing was available. No more was earned than was available, at most 10,000,000.
pub fn percent_hundredths(earned: u32, available: u32) -> Option<u32>
    requires earned { earned ≤ available }
    requires available { available ≤ 10000000 }
    ensures value { result ≡ percent_hundredths_of earned available }
    ensures nearest { IfSome result (IsNearest earned available) }
    ensures most { IfSome result (λ hundredths. hundredths ≤ 10000) }
{
    if available == 0 {
        return None;
    }
    let earned = u64::from(earned);
    let available = u64::from(available);
    Some(((20_000 * earned + available) / (2 * available)) as u32)
}

/// The share of a pair in hundredths of a per cent, 0 to 10000: what it gained of what was available to it. `None` where
/// nothing or more than 10,000,000 was available, or where what it gained lies below 0 or above what was available.
pub fn share_percent(ranked: &Ranked) -> Option<u32>
    ensures { result ≡ share_percent ranked.now }
{
    let earned = ranked.value.unsigned_abs();
    if ranked.value >= 0 && earned <= ranked.available && ranked.available <= MOST_AVAILABLE {
        percent_hundredths(earned, ranked.available)
    } else {
        None
    }
}
