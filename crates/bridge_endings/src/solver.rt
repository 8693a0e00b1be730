//! The worth of an ending.
ghost use Rattle.std.specs.Prelude.{◌≡◌, ◌*◌, ◌≤◌, [], None, IfSome, IsNone, IsSome};
ghost use Rattle.bridge_endings.specs.Worth.{dealt, worth_of, worth_with};
ghost use Rattle.bridge_endings.specs.Agree.{IsDealtOut};
ghost use Rattle.bridge_endings.specs.SearchValue.{IsTable};
ghost use Rattle.bridge_endings.specs.CacheValue.{OfCache, Solving};

use crate::bounds::{Bounds, narrowed};
use crate::cache::Cache;
use crate::closed::all_cards;
use crate::ending::Ending;
use crate::entry::Entry;
use crate::heads::Heads;
use crate::search::Search;
use crate::table::empty_table;
use bridge_cards::{CardSet, Seat};

/// The tricks of North and South where each of the four sees all the cards, and both sides play for as many as they can.
/// A cache answers at once for an ending that it keeps. For any other the ending is searched and then kept, unless memory
/// is refused.
pub fn solve(ending: &Ending, cache: Option<&mut Cache>) -> u8
    ensures worth { result ≡ worth_of ending.now }
    ensures few { result ≤ 6 }
    ensures cache { OfCache cache.entry cache.exit (Solving ending.now result) }
{
    match cache {
        Some(cache) => solve_with(ending, cache),
        None => worth_by(
            ending,
            &mut Search {
                trump: ending.trump(),
                tried: 0,
                limit: None,
                last: 0,
                heads: Heads::few(),
            },
        ),
    }
}

/// The same with a cache.
fn solve_with(ending: &Ending, cache: &mut Cache) -> u8
    ensures worth { result ≡ worth_of ending.now }
    ensures few { result ≤ 6 }
    ensures cache { Solving ending.now result cache.old cache.new }
{
    let tried = cache.tried();
    if let Some(worth) = cache.worth(ending) {
        cache.keep(ending, worth, tried);
        return worth;
    }
    let mut search = Search {
        trump: ending.trump(),
        tried,
        limit: None,
        last: 0,
        heads: Heads::few(),
    };
    let worth = worth_by(ending, &mut search);
    cache.keep(ending, worth, search.tried);
    worth
}

/// The same by a search with a table of its own.
fn worth_by(ending: &Ending, search: &mut Search) -> u8
    requires trump { search.old.trump ≡ ending.now.trump }
    requires endless { search.old.limit ≡ None }
    ensures worth { result ≡ worth_of ending.now }
    ensures few { result ≤ 6 }
    ensures tried { search.old.tried ≤ search.new.tried }
{
    let hands = ending.hands();
    let mut table = empty_table();
    let tricks = ending.tricks();
    tricks_won(
        search,
        &mut table,
        &hands,
        ending.leader(),
        tricks,
        tricks / 2 + 1,
    )
    .unwrap()
}

/// The tricks of North and South by a search of so many, which is asked for a guess first, and then for one more or one less;
/// `None` where as many cards were tried as may be.
pub(crate) fn tricks_won(
    search: &mut Search,
    table: &mut [Entry],
    hands: &[CardSet; 4],
    leader: Seat,
    tricks: u8,
    guess: u8,
) -> Option<u8>
    requires table { IsTable table.old }
    requires dealt { IsDealtOut (dealt hands.now) }
    ensures worth { IfSome result (λ worth. worth ≡ worth_with search.old.trump (4 * tricks) (dealt hands.now) leader []) }
    ensures few { IfSome result (λ worth. worth ≤ tricks) }
    ensures ended { IsNone result → IsSome search.old.limit }
    ensures tried { search.old.tried ≤ search.new.tried }
    ensures table { IsTable table.new }
{
    let left = all_cards(hands);
    let mut bounds = Bounds {
        least: 0,
        most: tricks,
    };
    while bounds.least < bounds.most {
        let need = guess.max(bounds.least + 1).min(bounds.most);
        let answer = search.reaches_from(table, hands, left, leader, tricks, need)?;
        bounds = narrowed(bounds, need, answer.yes);
    }
    Some(bounds.least)
}
