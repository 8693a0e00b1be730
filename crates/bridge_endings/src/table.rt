//! The table of a search: what it has found, in lists of what is alike.
ghost use Rattle.std.specs.Prelude.{◌≡◌, IfSome};
ghost use Rattle.bridge_endings.specs.Left.{all_lengths};
ghost use Rattle.bridge_endings.specs.SearchValue.{IsAnswerTo, IsFound, IsTable};

use crate::asked::Asked;
use crate::entry::Entry;
use crate::found::Found;
use crate::heads::Heads;
use crate::known::Known;
use crate::sign::{counted_owners, key_of, mixed, owners_of, top_owners};
use bridge_cards::Card;

/// How many entries the table of an ending has; it lies on the stack.
pub const ENTRIES: usize = 112;

/// How many entries of a list are looked at.
const LOOKED_AT: usize = 40;

/// After how many entries of other lists none is looked at any more.
const STRAYS: u8 = 3;

/// A list, and what is looked for in it.
#[derive(Clone, Copy)]
struct Sought {
    /// Where its first entry stands.
    first: u32,
    /// The key of its entries.
    key: u64,
    /// Who has the highest cards.
    owners: u64,
}

/// The table in which nothing is found yet.
pub fn empty_table() -> [Entry; ENTRIES]
    ensures { IsTable result }
{
    [Entry::of(Found::nothing()); ENTRIES]
}

/// What the table knows of what is asked. Of what was found a part is listed by who has the highest card of each
/// suit, and the rest, where not all of these counted, is not.
pub fn look_up(table: &mut [Entry], heads: &Heads, asked: &Asked) -> Known
    requires table { IsTable table.old }
    requires lengths { asked.now.lengths ≡ all_lengths asked.now.hands }
    ensures answer { IfSome result.answer (IsAnswerTo asked.now) }
    ensures table { IsTable table.new }
{
    let key = key_of(asked.lengths, asked.trump, asked.leader);
    let owners = owners_of(&asked.hands);
    let first = heads.first(heads.slot(mixed(key, top_owners(&asked.hands))));
    let sought = Sought { first, key, owners };
    let known = look_in(table, sought, asked);
    if known.answer.is_some() {
        return known;
    }
    let first = heads.first(heads.slot(mixed(key, 0)));
    let sought = Sought { first, key, owners };
    let more = look_in(table, sought, asked);
    if more.answer.is_some() || more.place != 0 {
        return more;
    }
    Known::open(known.best.or(more.best), known.place)
}

/// The same of one list. What tells the answer comes into the first entry of it.
fn look_in(table: &mut [Entry], sought: Sought, asked: &Asked) -> Known
    requires table { IsTable table.old }
    requires lengths { asked.now.lengths ≡ all_lengths asked.now.hands }
    ensures answer { IfSome result.answer (IsAnswerTo asked.now) }
    ensures table { IsTable table.new }
{
    let (mut best, mut place, mut strays) = (None, 0, 0);
    let mut next = sought.first;
    for _ in 0..LOOKED_AT {
        let index = next as usize;
        if index == 0 || index >= table.len() || strays >= STRAYS {
            break;
        }
        if table[index].key == sought.key {
            let known = table[index].tells(sought.owners, asked);
            if known.answer.is_some() {
                to_front(table, sought.first as usize, index, known.place);
                return known;
            }
            (best, place) = together(best, place, &known, next);
        } else {
            strays += 1;
        }
        next = table[index].next;
    }
    Known::open(best, place)
}

/// The card to try first, and the place of something true, once the entry at that index is known too.
fn together(best: Option<Card>, place: u32, known: &Known, index: u32) -> (Option<Card>, u32) {
    if known.place == 0 {
        return (best.or(known.best), place);
    }
    (known.best, place_of(index, known.place))
}

/// The place of that part of an entry, from 1 on.
fn place_of(index: u32, part: u32) -> u32 {
    index.saturating_mul(4).saturating_add(part)
}

/// The part from 1 to 4 of an entry, and the same of the first of its list, change their places.
fn to_front(table: &mut [Entry], first: usize, index: usize, part: u32)
    requires { IsTable table.old }
    ensures { IsTable table.new }
{
    let at = (part as usize).saturating_sub(1);
    if first == index || first >= table.len() || index >= table.len() || at >= 4 {
        return;
    }
    if table[first].key != table[index].key || at >= usize::from(table[first].used) {
        return;
    }
    let (one, others) = (table[first].sign_at(at), table[index].sign_at(at));
    let (found, other) = (table[first].found_at(at), table[index].found_at(at));
    set_found(table, index, at, found, one);
    set_found(table, first, at, other, others);
}

/// Puts something found in place of that one.
fn set_found(table: &mut [Entry], index: usize, at: usize, found: Found, sign: u64)
    requires { IsTable table.old × IsFound found }
    ensures { IsTable table.new }
{
    if index < table.len() {
        table[index].set(at, found, sign);
    }
}

/// Keeps something found: with what stands at that place, if it is true of the same hands with the same cards that counted, or
/// else in the first entry of its list, or in the next one where this has no room.
pub fn note(table: &mut [Entry], heads: &mut Heads, found: &Found, place: u32, last: &mut u32)
    requires table { IsTable table.old }
    requires found { IsFound found.now }
    ensures { IsTable table.new }
{
    if place != 0 && narrow(table, found, place - 1) {
        return;
    }
    let key = key_of(found.lengths, found.trump, found.leader);
    let slot = heads.slot(mixed(key, counted_owners(found)));
    let first = heads.first(slot);
    if first == 0 || !add(table, first as usize, key, found) {
        *last = next_place(*last, table.len());
        begin(table, *last, key, found, first);
        heads.set_first(slot, *last);
    }
}

/// Keeps it with what stands at that place, from 0 on, if it can; whether it did.
fn narrow(table: &mut [Entry], found: &Found, place: u32) -> bool
    requires table { IsTable table.old }
    requires found { IsFound found.now }
    ensures { IsTable table.new }
{
    let (index, at) = ((place / 4) as usize, (place % 4) as usize);
    if index >= table.len() {
        return false;
    }
    let (old, sign) = (table[index].found_at(at), table[index].sign_at(at));
    match found.with(&old) {
        Some(both) => {
            set_found(table, index, at, both, sign);
            true
        }
        None => false,
    }
}

/// Puts it into that entry, if it can; whether it did.
fn add(table: &mut [Entry], index: usize, key: u64, found: &Found) -> bool
    requires { IsTable table.old × IsFound found.now }
    ensures { IsTable table.new }
{
    index < table.len() && table[index].add(key, found)
}

/// Begins an entry with it, before the entry at the other place.
fn begin(table: &mut [Entry], place: u32, key: u64, found: &Found, next: u32)
    requires { IsTable table.old × IsFound found.now }
    ensures { IsTable table.new }
{
    let index = place as usize;
    if index < table.len() {
        table[index].begin(key, found, next);
    }
}

/// The place after that one; at place 0 stands none.
fn next_place(last: u32, entries: usize) -> u32 {
    let next = last.saturating_add(1);
    if (next as usize) < entries { next } else { 1 }
}
