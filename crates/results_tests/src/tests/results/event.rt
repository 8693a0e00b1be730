//! Two sections of the worked session as one field, worked out by hand from the Laws.
ghost use Rattle.std.specs.Prelude.{◌≤◌, length};
ghost use Rattle.event_ranking.specs.OneField.{IsField};

use super::script::{IMPS, MATCHPOINTS, dealt, played, round_1, round_2};
use crate::tests::expect_eq;
use bridge_session::{Field, Session};
use event_ranking::{Difference, Event, SectionRanked, SectionsRefused, field_of};
use std::alloc::{AllocError, Global};
use std::process::Abort;

/// Of a ranked pair: place, section, pair, what it gained, and of what.
type Row = (u16, u8, u8, i32, u32);

fn row_of(ranked: &SectionRanked) -> Row {
    (
        ranked.place,
        ranked.section,
        ranked.pair,
        ranked.value,
        ranked.available,
    )
}

fn expect_rows(rt: &impl Abort, ranking: &[SectionRanked], rows: &[Row]) {
    expect_eq(rt, ranking.len(), rows.len(), "ranked");
    for index in 0..rows.len() {
        let ranked = ranking.get(index).expect(rt, "a pair");
        expect_eq(rt, row_of(ranked), rows[index], index);
    }
}

/// The worked session, and one in which the third round is not played.
pub fn two_sections(rt: &impl Abort, alloc: Global, config: &str) -> [Session; 2] {
    let mut second = dealt(rt, alloc, config);
    round_1(rt, &mut second);
    round_2(rt, &mut second);
    [played(rt, alloc, config), second]
}

/// The ranking of the first field over both sections: pair 3 has 12.0 of 24.0 in the first section, and 8.0 of 16.0 in the second.
static FIRST: [Row; 6] = [
    (1, 2, 2, 140, 160),
    (2, 1, 2, 140, 240),
    (3, 1, 3, 120, 240),
    (3, 2, 3, 80, 160),
    (5, 1, 1, 80, 240),
    (6, 2, 1, 40, 160),
];

/// That of the second field in the first section.
static OF_SECTION: [Row; 3] = [(1, 1, 6, 220, 240), (2, 1, 4, 100, 240), (3, 1, 5, 60, 240)];

fn expect_rankings(rt: &impl Abort, alloc: Global, sections: &[Session]) -> Result<(), AllocError>
    requires few { length sections.now ≤ 40 }
    requires field { IsField sections.now }
{
    let event = Event::new(alloc, sections)?;
    let ranking = event.ranking(alloc, Field::First)?;
    expect_rows(rt, ranking.as_slice(), &FIRST);
    if !sections.is_empty() {
        let ranking = event.section_ranking(alloc, 0, Field::Second)?;
        expect_rows(rt, ranking.as_slice(), &OF_SECTION);
    }
    Ok(())
}

// North and South score 450, 420, 300, 420 and 450 on board 1, 600, -100, -90, 600 and -100 on board 2, and -670, 200, 110, -670
// and 200 on board 3.
#[test]
fn two_sections_by_matchpoints(rt: HostRuntime) -> Result<(), AllocError> {
    let alloc = rt.alloc();
    let sections = two_sections(&rt, alloc, MATCHPOINTS);
    match field_of(&sections) {
        Ok(()) => expect_rankings(&rt, alloc, &sections)?,
        Err(refused) => expect_eq(&rt, Some(refused), None, "a field"),
    }
    Ok(())
}

#[test]
fn sections_that_are_scored_otherwise(rt: HostRuntime) {
    let alloc = rt.alloc();
    let second = dealt(&rt, alloc, IMPS);
    let sections = [played(&rt, alloc, MATCHPOINTS), second];
    let refused = SectionsRefused {
        index: 1,
        earlier: 0,
        difference: Difference::Scoring,
    };
    expect_eq(&rt, field_of(&sections), Err(refused), "scoring");
}
