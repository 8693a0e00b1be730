//! The counter that the tests keep. Its bytes differ in the two formats.
ghost use Rattle.std.specs.Prelude.{◌≡◌, ◌≤◌, ◌<◌, length, map};
ghost use Rattle.std.specs.List.{list_all};
ghost use Rattle.std.specs.Str.{bytes_eq};
ghost use Rattle.store_tests.specs.Counter.{count_in, total_in};

use arrayvec::ArrayVec;
use session_store::{DiskFormat, Kept, PartsFault};
use std::alloc::Global;
use std::marker::Model;

/// A number of parts, from 1 to 494, and a total, from 0 to 65,535.
#[derive(Drop)]
pub struct Counter {
    parts: u32,
    total: u16,
}

impl Model for Counter {
    ghost use Rattle.store_tests.specs.Counter.{CounterValue, count_code, IsCount};

    ghost Value = { CounterValue };

    ghost coded = { count_code };

    ghost view = { λ c. record { parts = c.parts; total = c.total } };

    ghost invariant = { λ c. IsCount (record { parts = c.parts; total = c.total }) };
}

impl Counter {
    /// A counter at 0 of that many parts, or the nearest number from 1 to 494.
    pub fn new(parts: u32) -> Counter {
        Counter {
            parts: parts.clamp(1, 494),
            total: 0,
        }
    }

    /// The total.
    pub fn total(&self) -> u16 {
        self.total
    }
}

/// The total of a part of a format.
fn read_total(format: DiskFormat, part: &[u8]) -> Option<u16>
    ensures { result ≡ total_in format part.now }
{
    if part.len() != 2 {
        return None;
    }
    let first = u16::from(part[0]);
    let second = u16::from(part[1]);
    Some(match format {
        DiskFormat::One => 256 * second + first,
        DiskFormat::Two => 256 * first + second,
    })
}

/// Whether all these parts are as the first one.
fn all_are(parts: &[ArrayVec<u8, 480>], first: &[u8]) -> bool
    ensures { result ≡ list_all (λ part. bytes_eq first.now part.items) parts.now }
{
    parts.iter().all(|part| first == part.as_slice())
}

/// The counter of these parts of a format.
fn read_counter(format: DiskFormat, parts: &[ArrayVec<u8, 480>]) -> Option<Counter>
    ensures { result ≡ count_in format (map (λ part. part.items) parts.now) }
{
    match parts.split_first() {
        None => None,
        Some((first, rest)) => match read_total(format, first.as_slice()) {
            None => None,
            Some(total) => {
                if rest.len() >= 494 {
                    return None;
                }
                if !all_are(rest, first.as_slice()) {
                    return None;
                }
                Some(Counter {
                    parts: rest.len() as u32 + 1,
                    total,
                })
            }
        },
    }
}

impl Kept for Counter {
    ghost use Rattle.std.specs.Prelude.{ℕ};
    ghost use Rattle.session_store.specs.Keeping.{Keeping, IsLawful};
    ghost use Rattle.store_tests.specs.Counter.{counting};
    ghost use Rattle.store_tests.specs.CounterLaws.{count_lawful};

    type Action = u8;

    type Refusal = u16;

    ghost kept = { counting };

    fn parts(&self) -> u32 {
        self.parts
    }

    fn write_part(&self, _i: u32, part: &mut ArrayVec<u8, 480>) {
        part.clear();
        part.push((self.total / 256) as u8);
        part.push((self.total % 256) as u8);
    }

    fn from_parts(
        alloc: Global,
        format: DiskFormat,
        parts: &[ArrayVec<u8, 480>],
    ) -> Result<Counter, PartsFault> {
        let Some(counter) = read_counter(format, parts) else {
            return Err(PartsFault::Bad);
        };
        let memory: Result<Vec<u8>, _> = Vec::with_capacity(alloc, 1);
        match memory {
            Ok(_) => Ok(counter),
            Err(_) => Err(PartsFault::Memory),
        }
    }

    fn write_action(action: &u8, bytes: &mut ArrayVec<u8, 480>) {
        bytes.clear();
        bytes.push(1);
        bytes.push(*action);
    }

    fn read_action(format: DiskFormat, bytes: &[u8]) -> Option<u8> {
        if bytes.len() != 2 {
            return None;
        }
        let kind = match format {
            DiskFormat::One => 7,
            DiskFormat::Two => 1,
        };
        if bytes[0] != kind {
            return None;
        }
        Some(bytes[1])
    }

    fn step(&mut self, action: &u8) -> Result<(), u16> {
        match self.total.checked_add(u16::from(*action)) {
            None => Err(self.total),
            Some(total) => {
                self.total = total;
                Ok(())
            }
        }
    }

    ghost lawful = { count_lawful };
}
