//! Whether a session has all that was dealt, called and played in another.
ghost use Rattle.std.specs.Prelude.{◌≡◌, Ok, map};
ghost use Rattle.std.specs.Bool.{Decides};
ghost use Rattle.std.specs.List.{AllZip};
ghost use Rattle.session_rules.specs.declared.action.Action.{Action as ActionType};
ghost use Rattle.session_rules.specs.Act.{act_of};
ghost use Rattle.session_rules.specs.State.{SessionValue, row_at};
ghost use Rattle.session_rules.specs.Step.{step_answer, changed};
ghost use Rattle.bridge_table.specs.Kept.{plain_of};
ghost use Rattle.bridge_session.specs.HasAll.{HasAllOf, HasDeal, HasPlay, TakesNothingBack};

use bridge_cards::{Card, Deal};
use bridge_table::Record;

/// At each accepted action that takes nothing back a session keeps all that it has of another.
pub fn sessions_keep_what_they_have()
    ensures { (action : ActionType) (s t : SessionValue) → TakesNothingBack (act_of action) → HasAllOf s t
        → step_answer s action ≡ Ok tt → HasAllOf (changed s action) t }
{}

/// The cards of a play, which are none before there is a contract.
fn cards_of(kept: &Record) -> &[Card]
    ensures { result.now ≡ (plain_of kept.now).cards }
{
    match &kept.play {
        Some(play) => play.cards(),
        None => &[],
    }
}

/// Whether a play is of the same board, and its calls and cards begin with those of the other.
fn has_play(ours: &Record, theirs: &Record) -> bool
    ensures { Decides result (HasPlay (plain_of ours.now) (plain_of theirs.now)) }
{
    if ours.board != theirs.board {
        return false;
    }
    if !ours.auction.calls().starts_with(theirs.auction.calls()) {
        return false;
    }
    cards_of(ours).starts_with(cards_of(theirs))
}

/// Whether the plays of a table have each all that the other's have, place by place.
pub fn have_plays(ours: &[Record], theirs: &[Record]) -> bool
    ensures { Decides result (AllZip HasPlay (map plain_of ours.now) (map plain_of theirs.now)) }
{
    let mut rest = theirs;
    for our in ours {
        let Some((their, after)) = rest.split_first() else {
            return false;
        };
        if !has_play(our, their) {
            return false;
        }
        rest = after;
    }
    rest.is_empty()
}

/// The records of the row of that index; none where there is no such row.
pub fn records_at(tables: &[Vec<Record>], index: usize) -> &[Record]
    ensures { map plain_of result.now ≡ row_at (map (λ table. map plain_of table.items) tables.now) index }
{
    match tables.get(index) {
        Some(table) => table.as_slice(),
        None => &[],
    }
}

/// The same of all tables.
pub fn have_tables(ours: &[Vec<Record>], theirs: &[Vec<Record>]) -> bool
    ensures { Decides result (AllZip (AllZip HasPlay) (map (λ table. map plain_of table.items) ours.now)
        (map (λ table. map plain_of table.items) theirs.now)) }
{
    let mut rest = theirs;
    for our in ours {
        let Some((their, after)) = rest.split_first() else {
            return false;
        };
        if !have_plays(our.as_slice(), their.as_slice()) {
            return false;
        }
        rest = after;
    }
    rest.is_empty()
}

/// Whether a board has the other's deal, if it is dealt there.
fn has_deal(ours: &Option<Deal>, theirs: &Option<Deal>) -> bool
    ensures { Decides result (HasDeal ours.now theirs.now) }
{
    match (ours, theirs) {
        (_, None) => true,
        (Some(our), Some(their)) => our == their,
        (None, Some(_)) => false,
    }
}

/// Whether each board that is dealt there has the same deal here.
pub fn have_deals(ours: &[Option<Deal>], theirs: &[Option<Deal>]) -> bool
    ensures { Decides result (AllZip HasDeal ours.now theirs.now) }
{
    let mut rest = theirs;
    for our in ours {
        let Some((their, after)) = rest.split_first() else {
            return false;
        };
        if !has_deal(our, their) {
            return false;
        }
        rest = after;
    }
    rest.is_empty()
}
