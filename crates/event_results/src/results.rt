//! The results of several sections as one field.
ghost use Rattle.std.specs.Prelude.{◌≡◌, ◌≤◌, ◌<◌, length, IfOk};
ghost use Rattle.event_ranking.specs.OneField.{IsField};
ghost use Rattle.event_ranking.specs.EventRanking.{IsFieldRanking, IsSectionRanking};
ghost use Rattle.event_results.specs.EventTraveller.{event_traveller};
ghost use Rattle.event_results.specs.Kept.{AreFieldRankings};

use crate::play::SectionPlay;
use crate::plays::plays_by_section;
use crate::rankings::FieldRankings;
use crate::traveller::lines_by_board;
use bridge_cards::BoardNumber;
use bridge_ranking::Field;
use bridge_session::Session;
use event_ranking::event::MOST_SECTIONS;
use event_ranking::{Event, SectionRanked, scoring_of};
use std::alloc::{AllocError, Global};
use std::marker::Model;

/// The sessions of the sections of an event, with the travellers and the rankings over all of them.
#[derive(Drop)]
pub struct EventResults<'a> {
    /// By the sections' numbers.
    sections: &'a [Session],
    /// Of each board the lines of its traveller.
    travellers: Vec<Vec<SectionPlay>>,
    /// The rankings of the first field.
    first: FieldRankings,
    /// The rankings of the second field.
    second: FieldRankings,
}

impl<'a> Model for EventResults<'a> {
    ghost use Rattle.std.specs.Prelude.{List, map};
    ghost use Rattle.session_rules.specs.State.{SessionValue};
    ghost use Rattle.event_results.specs.Kept.{AreEventResults};

    ghost Value = { List SessionValue };

    ghost view = { λ event. event.sections.now };

    ghost invariant = { λ event. AreEventResults event.sections.now (map (λ lines. lines.items) event.travellers.items)
        event.first event.second };
}

impl<'a> EventResults<'a> {
    /// The results of sections that are one field, as they stand. Nothing that is asked of them takes memory.
    pub fn new(alloc: Global, sections: &'a [Session]) -> Result<EventResults<'a>, AllocError>
        requires few { length sections.now ≤ MOST_SECTIONS }
        requires field { IsField sections.now }
        ensures { IfOk result (λ results. results ≡ sections.now) }
    {
        let event = Event::new(alloc, sections)?;
        let plays = plays_by_section(alloc, sections)?;
        let travellers = lines_by_board(alloc, scoring_of(sections), &event, plays.as_slice())?;
        let first = FieldRankings::new(alloc, &event, sections.len(), Field::First)?;
        let second = FieldRankings::new(alloc, &event, sections.len(), Field::Second)?;
        Ok(EventResults {
            sections,
            travellers,
            first,
            second,
        })
    }

    /// The sessions of the sections, by their numbers.
    pub fn sections(&self) -> &[Session]
        ensures sections { result.now ≡ self.now }
        ensures few { length result.now ≤ MOST_SECTIONS }
    {
        self.sections
    }

    /// The traveller of a board over all sections: a line for each play, by the score of North and South from the best, equal scores
    /// by section, by round, then by table; then the adjusted plays and then the void ones.
    pub fn traveller(&self, board: BoardNumber) -> &[SectionPlay]
        ensures { result.now ≡ event_traveller self.now board }
    {
        self.travellers[usize::from(board.number() - 1)].as_slice()
    }

    /// The rankings of a field.
    pub(crate) fn rankings(&self, field: Field) -> &FieldRankings
        ensures { AreFieldRankings self.now field result.now }
    {
        match field {
            Field::First => &self.first,
            Field::Second => &self.second,
        }
    }

    /// The ranking of a field over the pairs of all sections. There is none of a field that no section has.
    pub fn ranking(&self, field: Field) -> &[SectionRanked]
        ensures { IsFieldRanking self.now field result.now }
    {
        self.rankings(field).over_all()
    }

    /// The ranking of a field among the pairs of the section at an index, by what they gained against the scores of all sections.
    pub fn section_ranking(&self, index: usize, field: Field) -> &[SectionRanked]
        requires { index < length self.now }
        ensures { IsSectionRanking self.now index field result.now }
    {
        self.rankings(field).of_section(index)
    }
}
