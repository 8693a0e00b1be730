//! Finding the header that counts.
ghost use Rattle.std.specs.Prelude.{◌≡◌, ◌≤◌, IfOk, IfSome, OnErr, OnOk};
ghost use Rattle.sector_disk.specs.Disk.{Rose};
ghost use Rattle.sector_disk.specs.Runs.{Quiet};
ghost use Rattle.session_store.specs.Layout.{part_limit, second_place, sector_count};
ghost use Rattle.session_store.specs.Looking.{older, older_header_in};
ghost use Rattle.session_store.specs.Stands.{header_at, header_in, newer};

use crate::reading::{Header, read_header};
use crate::snapshot::{SNAPSHOT_A, SNAPSHOT_B, place_of};
use sector_disk::{DiskFault, SECTOR_BYTES, SectorDisk};

/// The header of these bytes at this sector, if it is one in form and its epoch's snapshot stands there.
#[tactic(auto, unfolding(crate::specs::Stands::placed))]
fn placed_header(at: u32, bytes: &[u8; SECTOR_BYTES]) -> Option<Header>
    ensures { result ≡ header_at at bytes.now }
{
    let header = read_header(bytes)?;
    if place_of(header.epoch) == at {
        Some(header)
    } else {
        None
    }
}

/// The header with the greater epoch.
#[tactic(auto, unfolding(crate::specs::Stands::newer))]
fn newer_header(a: Option<Header>, b: Option<Header>) -> Option<Header>
    ensures { result ≡ newer a b }
{
    match (a, b) {
        (None, b) => b,
        (a, None) => a,
        (Some(a), Some(b)) => { if a.epoch < b.epoch { Some(b) } else { Some(a) } }
    }
}

/// Of two headers the one with the lower epoch.
#[tactic(auto, unfolding(crate::specs::Looking::older))]
fn older_header(a: Option<Header>, b: Option<Header>) -> Option<Header>
    ensures { result ≡ older a b }
{
    match (a, b) {
        (Some(a), Some(b)) => { if a.epoch < b.epoch { Some(a) } else { Some(b) } }
        _ => None,
    }
}

/// The header at the place of each snapshot, if there is one.
fn read_headers<D: SectorDisk>(disk: &mut D) -> Result<(Option<Header>, Option<Header>), DiskFault>
    requires { sector_count ≤ D.disk.count disk.old }
    ensures quiet { Quiet D.disk disk.old disk.new }
    ensures fault { OnErr result (Rose (D.disk.faults disk.old) (D.disk.faults disk.new)) }
    ensures no_fault { OnOk result (D.disk.faults disk.new ≡ D.disk.faults disk.old) }
    ensures first_range { IfOk result (λ both. IfSome both.0 (λ h. (1 ≤ h.epoch) × (h.parts ≤ part_limit))) }
    ensures second_range { IfOk result (λ both. IfSome both.1 (λ h. (1 ≤ h.epoch) × (h.parts ≤ part_limit))) }
    ensures first { D.disk.honest disk.old → IfOk result (λ both. both.0 ≡ header_at 0 (D.disk.reads disk.old 0)) }
    ensures second { D.disk.honest disk.old → IfOk result (λ both.
        both.1 ≡ header_at second_place (D.disk.reads disk.old second_place)) }
{
    let mut first = [0; SECTOR_BYTES];
    disk.read(SNAPSHOT_A, &mut first)?;
    let mut second = [0; SECTOR_BYTES];
    disk.read(SNAPSHOT_B, &mut second)?;
    Ok((
        placed_header(SNAPSHOT_A, &first),
        placed_header(SNAPSHOT_B, &second),
    ))
}

/// The header that counts, if there is one.
#[tactic(auto, unfolding(crate::specs::Stands::header_in))]
pub(crate) fn find_header<D: SectorDisk>(disk: &mut D) -> Result<Option<Header>, DiskFault>
    requires { sector_count ≤ D.disk.count disk.old }
    ensures quiet { Quiet D.disk disk.old disk.new }
    ensures fault { OnErr result (Rose (D.disk.faults disk.old) (D.disk.faults disk.new)) }
    ensures no_fault { OnOk result (D.disk.faults disk.new ≡ D.disk.faults disk.old) }
    ensures range { IfOk result (λ header. IfSome header (λ h. (1 ≤ h.epoch) × (h.parts ≤ part_limit))) }
    ensures found { D.disk.honest disk.old → IfOk result (λ header. header ≡ header_in (D.disk.reads disk.old)) }
{
    let (first, second) = read_headers(disk)?;
    Ok(newer_header(first, second))
}

/// The header that does not count, if there are two.
#[tactic(auto, unfolding(crate::specs::Looking::older_header_in))]
pub(crate) fn find_older_header<D: SectorDisk>(disk: &mut D) -> Result<Option<Header>, DiskFault>
    requires { sector_count ≤ D.disk.count disk.old }
    ensures quiet { Quiet D.disk disk.old disk.new }
    ensures fault { OnErr result (Rose (D.disk.faults disk.old) (D.disk.faults disk.new)) }
    ensures no_fault { OnOk result (D.disk.faults disk.new ≡ D.disk.faults disk.old) }
    ensures range { IfOk result (λ header. IfSome header (λ h. (1 ≤ h.epoch) × (h.parts ≤ part_limit))) }
    ensures found { D.disk.honest disk.old → IfOk result (λ header. header ≡ older_header_in (D.disk.reads disk.old)) }
{
    let (first, second) = read_headers(disk)?;
    Ok(older_header(first, second))
}
