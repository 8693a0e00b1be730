//! What the director takes back in a play.
ghost use Rattle.std.specs.Prelude.{◌≡◌, ◌||◌, nat_lt, is_some, length, slice_get, false, OnOk, OnErr, Some};
ghost use Rattle.std.specs.Option.{option_map, option_map_or};
ghost use Rattle.bridge_play.specs.Play.{without_latest};
ghost use Rattle.session_rules.specs.State.{changed_at};
ghost use Rattle.bridge_table.specs.Kept.{less_latest_kept, kept_back_answer};

use crate::record::Record;
use session_rules::Refused;

impl Record {
    /// Takes back the latest thing done in the play of the cards, if there is any.
    fn take_back_in_play(&mut self) -> bool
        ensures some { result ≡ option_map_or (λ play. is_some play.claim || nat_lt 0 (length play.cards)) self.old.play false }
        ensures rest { self.new ≡ record self.old { play = option_map without_latest self.old.play } }
    {
        match &mut self.play {
            Some(play) => play.take_back(),
            None => false,
        }
    }

    /// Takes back the latest thing done: the claim that stands or was agreed, or else the last card, or else the last call.
    pub fn take_back(&mut self)
        ensures { self.new ≡ less_latest_kept self.old }
    {
        if !self.take_back_in_play() {
            if let Some(play) = &self.play {
                self.claims = play.claim_count();
            }
            self.play = None;
            let _call = self.auction.take_back();
        }
    }
}

/// Whether the latest thing done in the play may be taken back in its round.
fn back_answer(kept: &Record, now: u8, round: u8) -> Result<(), Refused>
    ensures { result ≡ kept_back_answer now round (Some kept.now) }
{
    if now < round {
        return Err(Refused::NotYet);
    }
    if round < now {
        return Err(Refused::NotThisRound);
    }
    if kept.ruling.is_some() {
        return Err(Refused::RulingStands);
    }
    if kept.auction.calls().is_empty() {
        return Err(Refused::NothingToTakeBack);
    }
    Ok(())
}

/// Takes back the latest thing done in the play of that index, from 0, in a round.
pub fn back_among(table: &mut [Record], index: usize, now: u8, round: u8) -> Result<(), Refused>
    ensures answer { result ≡ kept_back_answer now round (slice_get table.old index) }
    ensures taken { OnOk result (table.new ≡ changed_at less_latest_kept table.old index) }
    ensures refused { OnErr result (table.new ≡ table.old) }
{
    if index >= table.len() {
        return Err(Refused::NoSuchPlay);
    }
    back_answer(&table[index], now, round)?;
    table[index].take_back();
    Ok(())
}
