//! The count of faults that each disk keeps.
ghost use Rattle.std.specs.Prelude.{◌≡◌, OnOk, OnErr};
ghost use Rattle.sector_disk.specs.Disk.{one_more};

use crate::DiskFault;

/// Hands the outcome of a call on, and counts it if it is a fault.
pub(crate) fn counted(faults: &mut u64, outcome: Result<(), DiskFault>) -> Result<(), DiskFault>
    ensures same { result ≡ outcome }
    ensures ok { OnOk outcome (faults.new ≡ faults.old) }
    ensures err { OnErr outcome (faults.new ≡ one_more faults.old) }
{
    if let Err(_) = outcome {
        *faults = faults.saturating_add(1);
    }
    outcome
}
