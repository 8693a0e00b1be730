//! Where the lists of a table begin. These places stand side by side, apart from the entries, since each look-up reads some.
use std::alloc::{AllocError, Global};

/// How many lists the table of an ending has.
const FEW: usize = 512;

/// How many the table of a whole deal has.
const MANY: usize = 524_288;

/// Where the first entry of each list stands; 0 where there is none.
#[derive(Drop)]
pub enum Heads {
    /// Those of the table of an ending; they lie on the stack.
    Few([u32; FEW]),
    /// Those of the table of a whole deal.
    Many(Vec<u32>),
}

impl Heads {
    /// Lists of an ending without an entry.
    pub fn few() -> Heads {
        Heads::Few([0; FEW])
    }

    /// Lists of a whole deal without an entry.
    pub fn many(alloc: Global) -> Result<Heads, AllocError> {
        Ok(Heads::Many(vec![in alloc; 0_u32; MANY]?))
    }

    /// Which list is that of so mixed a number.
    pub fn slot(&self, mixed: u64) -> usize {
        let lists = match self {
            Heads::Few(few) => few.len(),
            Heads::Many(many) => many.len(),
        };
        ((mixed >> 32).wrapping_mul(lists as u64) >> 32) as usize
    }

    /// Where the first entry of the list stands.
    pub fn first(&self, slot: usize) -> u32 {
        match self {
            Heads::Few(few) if slot < few.len() => few[slot],
            Heads::Many(many) if slot < many.len() => many[slot],
            _ => 0,
        }
    }

    /// The list begins with the entry at this place.
    pub fn set_first(&mut self, slot: usize, first: u32) {
        match self {
            Heads::Few(few) => {
                if slot < few.len() {
                    few[slot] = first;
                }
            }
            Heads::Many(many) => {
                if slot < many.len() {
                    many[slot] = first;
                }
            }
        }
    }
}
