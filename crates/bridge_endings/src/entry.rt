//! Entries of a search's table: what was found of hands with the same lengths, four things side by side.
ghost use Rattle.std.specs.Prelude.{◌≡◌, ◌<◌, IfSome};
ghost use Rattle.bridge_endings.specs.Left.{all_lengths};
ghost use Rattle.bridge_endings.specs.SearchValue.{IsAnswerTo, IsEntry, IsFound};

use crate::asked::Asked;
use crate::found::{Found, Told};
use crate::known::Known;
use crate::sign::{NO_SIGN, agrees, sign_of};

/// Four things found, and the link of a list. Whatever it leads to is true of the hands that it names.
#[derive(Clone, Copy)]
pub struct Entry {
    /// What was found.
    pub found: [Found; 4],
    /// A sign of each; that which agrees with no hands where nothing was put yet.
    pub signs: [u64; 4],
    /// The key of them all.
    pub key: u64,
    /// Where the next entry of its list stands; 0 where there is none.
    pub next: u32,
    /// How many were put.
    pub used: u8,
}

impl Entry {
    /// An entry of no list, to which nothing was put; in each place stands that.
    pub fn of(found: Found) -> Entry
        requires { IsFound found }
        ensures { IsEntry result }
    {
        Entry {
            found: [found; 4],
            signs: [NO_SIGN; 4],
            key: 0,
            next: 0,
            used: 0,
        }
    }

    /// What it knows of what is asked of hands with those owners; the place is from 1 to 4.
    pub fn tells(&self, owners: u64, asked: &Asked) -> Known
        requires entry { IsEntry self.now }
        requires lengths { asked.now.lengths ≡ all_lengths asked.now.hands }
        ensures { IfSome result.answer (IsAnswerTo asked.now) }
    {
        let (mut best, mut place) = (self.found[0].best, 0);
        for index in 0..4_u32 {
            let at = index as usize;
            if agrees(self.signs[at], owners) {
                let found = &self.found[at];
                match found.tells(asked) {
                    Told::Answer(answer) => return Known::answered(answer, index + 1),
                    Told::Open => (best, place) = (found.best, index + 1),
                    Told::Other => {}
                }
            }
        }
        Known::open(Some(best), place)
    }

    /// Makes it an entry in which only that was put, before the entry at that place.
    pub fn begin(&mut self, key: u64, found: &Found, next: u32)
        requires { IsEntry self.old × IsFound found.now }
        ensures { IsEntry self.new }
    {
        self.signs = [sign_of(found), NO_SIGN, NO_SIGN, NO_SIGN];
        self.key = key;
        self.next = next;
        self.used = 1;
        self.found[0] = *found;
    }

    /// Puts it in too, if the key is the same and there is room; whether it did.
    pub fn add(&mut self, key: u64, found: &Found) -> bool
        requires { IsEntry self.old × IsFound found.now }
        ensures { IsEntry self.new }
    {
        let index = usize::from(self.used);
        if self.key != key || index >= 4 {
            return false;
        }
        self.signs[index] = sign_of(found);
        self.found[index] = *found;
        self.used += 1;
        true
    }

    /// What was found there.
    pub fn found_at(&self, index: usize) -> Found
        requires entry { IsEntry self.now }
        requires within { index < 4 }
        ensures { IsFound result }
    {
        self.found[index]
    }

    /// Its sign.
    pub fn sign_at(&self, index: usize) -> u64
        requires { index < 4 }
    {
        self.signs[index]
    }

    /// Puts it in place of that one.
    pub fn set(&mut self, index: usize, found: Found, sign: u64)
        requires { IsEntry self.old × IsFound found }
        ensures { IsEntry self.new }
    {
        if index < 4 {
            self.signs[index] = sign;
            self.found[index] = found;
        }
    }
}
