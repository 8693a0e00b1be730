//! How far the current play of a table is, for a player there.
ghost use Rattle.std.specs.Prelude.{◌≡◌, map, All};
ghost use Rattle.session_rules.specs.Stage.{stage_among};
ghost use Rattle.bridge_table.specs.Kept.{plain_of, IsTiedIn};
ghost use Rattle.bridge_table.specs.Stage.{stage_kept};

use crate::record::Record;
use crate::table::{current, deal_on};
use bridge_cards::{Deal, Seat};
use session_rules::{Refused, Stage};

/// The contract of a play, and whether the seat's answer to a claim is due.
fn stage_of(kept: &Record, seat: Seat) -> Stage
    ensures { result ≡ stage_kept seat kept.now.play }
{
    match &kept.play {
        None => Stage {
            contract: None,
            answer_due: false,
        },
        Some(play) => Stage {
            contract: Some(*play.contract()),
            answer_due: play.awaits(seat),
        },
    }
}

/// How far the current play among the records of a table is, for the player in that seat: `NotCurrent` where there is no
/// such play, `NotDealt` where its board is not dealt.
pub fn stage_among(table: &[Record], deals: &[Option<Deal>], seat: Seat) -> Result<Stage, Refused>
    requires tied { All (IsTiedIn deals.now) table.now }
    ensures { result ≡ stage_among deals.now seat (map plain_of table.now) }
{
    let index = current(table).ok_or(Refused::NotCurrent)?;
    let kept = &table[index];
    let _deal = deal_on(deals, kept.board).ok_or(Refused::NotDealt)?;
    Ok(stage_of(kept, seat))
}
