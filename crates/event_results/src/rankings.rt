//! The rankings of a field: over all sections, and of each section.
ghost use Rattle.std.specs.Prelude.{◌≡◌, ◌<◌, [], length, map, slice_index_or, IfOk};
ghost use Rattle.event_results.specs.Kept.{AreRankingsOf, AreFieldRankings};

use bridge_ranking::Field;
use event_ranking::{Event, SectionRanked};
use std::alloc::{AllocError, Global};
use std::marker::Model;

/// The rankings of a field.
#[derive(Drop)]
pub struct FieldRankings {
    /// Over the pairs of all sections.
    over_all: Vec<SectionRanked>,
    /// Of each section.
    by_section: Vec<Vec<SectionRanked>>,
}

impl Model for FieldRankings {
    ghost use Rattle.std.specs.Prelude.{map};
    ghost use Rattle.event_results.specs.Rankings.{RankingsValue};

    ghost Value = { RankingsValue };

    ghost view = { λ r. record { over_all = r.over_all.items; by_section = map (λ ranking. ranking.items) r.by_section.items } };
}

/// The rankings of a field in each section.
fn by_section(
    alloc: Global,
    event: &Event<'_>,
    count: usize,
    field: Field,
) -> Result<Vec<Vec<SectionRanked>>, AllocError>
    requires { length event.now ≡ count }
    ensures { IfOk result (λ lists. AreRankingsOf event.now field count (map (λ ranking. ranking.items) lists.items)) }
{
    let mut lists = Vec::with_capacity(alloc, count)?;
    for index in 0..count {
        lists.push(event.section_ranking(alloc, index, field)?)?;
    }
    Ok(lists)
}

impl FieldRankings {
    /// The rankings of a field of an event of so many sections.
    pub fn new(
        alloc: Global,
        event: &Event<'_>,
        count: usize,
        field: Field,
    ) -> Result<FieldRankings, AllocError>
        requires { length event.now ≡ count }
        ensures { IfOk result (λ rankings. AreFieldRankings event.now field rankings) }
    {
        let over_all = event.ranking(alloc, field)?;
        let by_section = by_section(alloc, event, count, field)?;
        Ok(FieldRankings {
            over_all,
            by_section,
        })
    }

    /// The ranking over all sections.
    pub fn over_all(&self) -> &[SectionRanked]
        ensures { result.now ≡ self.now.over_all }
    {
        self.over_all.as_slice()
    }

    /// The ranking of the section at an index.
    pub fn of_section(&self, index: usize) -> &[SectionRanked]
        ensures { result.now ≡ slice_index_or self.now.by_section index [] }
    {
        if index < self.by_section.len() {
            self.by_section[index].as_slice()
        } else {
            &[]
        }
    }
}
