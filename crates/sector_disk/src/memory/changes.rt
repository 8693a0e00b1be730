//! What a write, a sync and a power cut do to the sectors of a disk in memory.
ghost use Rattle.std.specs.Prelude.{◌≡◌, ◌<◌, ◌++◌, ◌∷◌, [], ℕ, length, slice_index, OnOk, OnErr};
ghost use Rattle.sector_disk.specs.Held.{sector_at, after, settled, picked, cut_to};
ghost use Rattle.sector_disk.specs.declared.memory.events.Event.TheVariants.{Write, Sync};

use super::events::Event;
use super::sectors::Sector;
use crate::SECTOR_BYTES;
use std::alloc::AllocError;

/// Writes a sector. Where memory is refused, nothing changes.
pub(super) fn keep_write(
    sectors: &mut Vec<Sector>,
    events: &mut Vec<Event>,
    i: u32,
    bytes: &[u8; SECTOR_BYTES],
) -> Result<(), AllocError>
    requires { i < length sectors.old.items }
    ensures event { OnOk result (events.new.items ≡ events.old.items ++ (Write i bytes.now) ∷ []) }
    ensures written { OnOk result ((k : ℕ)
        → sector_at sectors.new.items k ≡ after k (sector_at sectors.old.items k) (Write i bytes.now)) }
    ensures count { length sectors.new.items ≡ length sectors.old.items }
    ensures no_event { OnErr result (events.new.items ≡ events.old.items) }
    ensures not_written { OnErr result (sectors.new.items ≡ sectors.old.items) }
{
    let event = Event::Write {
        sector: i,
        bytes: *bytes,
    };
    events.push(event)?;
    if let Err(error) = sectors[i as usize].write(bytes) {
        let _ = events.pop();
        return Err(error);
    }
    Ok(())
}

/// Syncs all sectors. Where memory is refused, nothing changes.
pub(super) fn keep_sync(
    sectors: &mut Vec<Sector>,
    events: &mut Vec<Event>,
) -> Result<(), AllocError>
    ensures event { OnOk result (events.new.items ≡ events.old.items ++ Sync ∷ []) }
    ensures synced { OnOk result ((k : ℕ)
        → sector_at sectors.new.items k ≡ settled (sector_at sectors.old.items k)) }
    ensures count { length sectors.new.items ≡ length sectors.old.items }
    ensures no_event { OnErr result (events.new.items ≡ events.old.items) }
    ensures not_synced { OnErr result (sectors.new.items ≡ sectors.old.items) }
{
    events.push(Event::Sync)?;
    settle_all(sectors);
    Ok(())
}

fn settle_all(sectors: &mut [Sector])
    ensures { (k : ℕ) → sector_at sectors.new k ≡ settled (sector_at sectors.old k) }
{
    for sector in sectors.iter_mut() {
        sector.settle();
    }
}

/// Each sector takes the value that is picked for it.
pub(super) fn lose_power(sectors: &mut Vec<Sector>, picks: &[u32])
    ensures count { length sectors.new.items ≡ length sectors.old.items }
    ensures cut { (k : ℕ) → k < length sectors.old.items
        → sector_at sectors.new.items k ≡ cut_to (picked (sector_at sectors.old.items k) (slice_index picks.now k)) }
{
    cut_all(sectors, picks);
}

fn cut_all(sectors: &mut [Sector], picks: &[u32])
    ensures { (k : ℕ) → k < length sectors.old
        → sector_at sectors.new k ≡ cut_to (picked (sector_at sectors.old k) (slice_index picks.now k)) }
{
    for (i, sector) in sectors.iter_mut().enumerate() {
        let pick = picks.get(i).copied().unwrap_or(0);
        sector.lose_power(pick);
    }
}
