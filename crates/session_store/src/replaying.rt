//! Reading the journal.
ghost use Rattle.std.specs.Prelude.{◌≡◌, ◌<◌, ◌≤◌, ◌+◌, Err, IfErr, IfOk, MatchResult, Ok, OnOk};
ghost use Rattle.sector_disk.specs.Disk.{Rose};
ghost use Rattle.sector_disk.specs.Runs.{Quiet};
ghost use Rattle.session_store.specs.Form.{entry_in};
ghost use Rattle.session_store.specs.Layout.{journal_place, record_limit, sector_count};
ghost use Rattle.session_store.specs.Looking.{CountsRecords};
ghost use Rattle.session_store.specs.Opening.{Causes};
ghost use Rattle.session_store.specs.ReadFaults.{store_fault};
ghost use Rattle.session_store.specs.Stands.{replay};

use crate::entry::read_entry;
use crate::fault::ReadFault;
use crate::reading::Entry;
use crate::submitting::{JOURNAL, RECORDS};
use crate::{DiskFormat, Kept};
use sector_disk::{DiskFault, SECTOR_BYTES, SectorDisk};

/// Reads what its sector of the journal is to the record of this epoch and number, in a format.
fn read_record<D: SectorDisk, K: Kept>(
    disk: &mut D,
    format: DiskFormat,
    epoch: u64,
    number: u32,
) -> Result<Entry<K::Action>, DiskFault>
    requires sectors { sector_count ≤ D.disk.count disk.old }
    requires few { number < record_limit }
    ensures quiet { Quiet D.disk disk.old disk.new }
    ensures no_fault { OnOk result (D.disk.faults disk.new ≡ D.disk.faults disk.old) }
    ensures fault { IfErr result (λ _. Rose (D.disk.faults disk.old) (D.disk.faults disk.new)) }
    ensures entry { D.disk.honest disk.old → IfOk result (λ entry.
        entry ≡ entry_in K.kept format epoch number (D.disk.reads disk.old (journal_place + number))) }
{
    let mut bytes = [0; SECTOR_BYTES];
    disk.read(JOURNAL + number, &mut bytes)?;
    Ok(read_entry::<K>(format, epoch, number, &bytes))
}

/// Takes an action on two equal states.
fn step_both<K: Kept>(base: &mut K, state: &mut K, action: &K::Action) -> Result<(), K::Refusal>
    requires { base.old ≡ state.old }
    ensures step { MatchResult result (λ _. K.kept.step state.old action.now ≡ Ok state.new)
        (λ refusal. K.kept.step state.old action.now ≡ Err refusal) }
    ensures same { OnOk result (base.new ≡ state.new) }
{
    base.step(action)?;
    state.step(action)?;
    Ok(())
}

/// Takes the actions of this epoch's records, in a format, up to the first that is missing, on two equal states. How many
/// they are, up to 1,024.
pub(crate) fn replay_records<D: SectorDisk, K: Kept>(
    disk: &mut D,
    format: DiskFormat,
    epoch: u64,
    base: &mut K,
    state: &mut K,
) -> Result<u32, ReadFault>
    requires sectors { sector_count ≤ D.disk.count disk.old }
    requires same { base.old ≡ state.old }
    ensures quiet { Quiet D.disk disk.old disk.new }
    ensures no_fault { OnOk result (D.disk.faults disk.new ≡ D.disk.faults disk.old) }
    ensures replayed { D.disk.honest disk.old → OnOk result
        (replay K.kept format record_limit (D.disk.reads disk.old) epoch 0 state.old ≡ Ok state.new) }
    ensures same { OnOk result (base.new ≡ state.new) }
    ensures counted { D.disk.honest disk.old → IfOk result (λ count.
        CountsRecords K.kept format (D.disk.reads disk.old) epoch count) }
    ensures fault { IfErr result (λ fault. Causes D.disk disk.old disk.new
        (replay K.kept format record_limit (D.disk.reads disk.old) epoch 0 state.old) (store_fault fault)) }
{
    for number in 0..RECORDS {
        match read_record::<D, K>(disk, format, epoch, number)? {
            Entry::Missing => return Ok(number),
            Entry::Damaged => return Err(ReadFault::Damaged(JOURNAL + number)),
            Entry::Holds(action) => match step_both(base, state, &action) {
                Err(_) => return Err(ReadFault::Damaged(JOURNAL + number)),
                Ok(()) => {}
            },
        }
    }
    Ok(RECORDS)
}
