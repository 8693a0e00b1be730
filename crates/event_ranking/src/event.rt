//! Several sessions as one field, with the scores of all.
ghost use Rattle.std.specs.Prelude.{◌≡◌, ◌≤◌, ◌<◌, ◌+◌, ◌++◌, length, map, slice_index_or, All, OnOk, IfOk};
ghost use Rattle.std.specs.List.{range_with_len};
ghost use Rattle.bridge_movement.specs.Shape.{IsShape};
ghost use Rattle.bridge_cards.specs.declared.seat.Side.TheVariants.{NorthSouth};
ghost use Rattle.bridge_ranking.specs.Ranking.{games_of, pairs_of_field, scores_on};
ghost use Rattle.session_rules.specs.State.{SessionValue};
ghost use Rattle.event_ranking.specs.OneField.{IsField};
ghost use Rattle.event_ranking.specs.Joint.{joint, made_lines};
ghost use Rattle.event_ranking.specs.Wide.{AreOfSection};
ghost use Rattle.event_ranking.specs.EventRanking.{scoring_of, lines_at, field_lines, IsFieldRanking, IsSectionRanking};

use crate::gain::MOST_SCORES;
use crate::line::joint_line;
use crate::ranking::{SectionLine, SectionRanked, rank};
use crate::wide::WideScores;
use bridge_cards::{BoardNumber, Scoring};
use bridge_movement::Shape;
use bridge_ranking::{Field, Game};
use bridge_results::Results;
use bridge_session::Session;
use std::alloc::{AllocError, Global};
use std::marker::Model;

/// The most sections of an event.
pub const MOST_SECTIONS: usize = 40;

/// The sessions of the sections of an event, as one field.
#[derive(Drop)]
pub struct Event<'a> {
    /// By the sections' numbers.
    sections: &'a [Session],
    /// Their plays that are compared, with the scores of all.
    wide: WideScores,
}

impl<'a> Model for Event<'a> {
    ghost use Rattle.std.specs.Prelude.{List};
    ghost use Rattle.session_rules.specs.State.{SessionValue};
    ghost use Rattle.event_ranking.specs.Wide.{AreOfEvent};

    ghost Value = { List SessionValue };

    ghost view = { λ event. event.sections.now };

    ghost invariant = { λ event. AreOfEvent event.sections.now event.wide };
}

/// The plays of a session that are compared.
fn games_of(alloc: Global, session: &Session) -> Result<Vec<Game>, AllocError>
    ensures games { IfOk result (λ games. games.items ≡ games_of session.now) }
    ensures section { AreOfSection (games_of session.now) }
{
    // What each session is, which a clause of this call states.
    let _parts = session.parts();
    let results = Results::new(session);
    Vec::from_slice(alloc, results.games())
}

/// Those of each section.
fn games_by_section(alloc: Global, sections: &[Session]) -> Result<Vec<Vec<Game>>, AllocError>
    ensures games { IfOk result (λ lists. map (λ games. games.items) lists.items ≡ map games_of sections.now) }
    ensures each { IfOk result (λ lists. All AreOfSection (map (λ games. games.items) lists.items)) }
{
    let mut lists = Vec::with_capacity(alloc, sections.len())?;
    for session in sections {
        lists.push(games_of(alloc, session)?)?;
    }
    Ok(lists)
}

/// How the scores of sections are compared: as the first says.
pub fn scoring_of(sections: &[Session]) -> Scoring
    ensures { result ≡ scoring_of sections.now }
{
    match sections.first() {
        Some(first) => first.config().fields().scoring,
        None => Scoring::MatchPoints,
    }
}

/// The numbers of pairs: so many, from the first on.
#[derive(Clone, Copy)]
struct Pairs {
    /// The first of them.
    first: u8,
    /// How many there are.
    count: u8,
}

/// The pairs of a field.
fn pairs_of_field(shape: Shape, field: Field) -> Pairs
    requires { IsShape shape }
    ensures pairs { range_with_len result.first result.count ≡ pairs_of_field shape field }
    ensures most { result.first + result.count ≤ 25 }
    ensures least { 1 ≤ result.first }
{
    match field {
        Field::First => Pairs {
            first: 1,
            count: shape.split,
        },
        Field::Second => Pairs {
            first: shape.split + 1,
            count: shape.pairs - shape.split,
        },
    }
}

/// The pairs of a field in the section at an index.
fn pairs_at(sections: &[Session], index: usize, field: Field) -> Pairs
    requires { index < length sections.now }
    ensures pairs { (d : SessionValue) → range_with_len result.first result.count ≡ pairs_of_field (slice_index_or sections.now index d).configuration.movement.shape field }
    ensures most { result.first + result.count ≤ 25 }
    ensures least { 1 ≤ result.first }
{
    let session = &sections[index];
    pairs_of_field(session.config().fields().movement.shape(), field)
}

/// Adds the lines of pairs of the section at an index.
fn push_lines(
    lines: &mut Vec<SectionLine>,
    scoring: Scoring,
    wide: &WideScores,
    index: usize,
    pairs: Pairs,
) -> Result<(), AllocError>
    requires section { index < length wide.now }
    requires few { index < 40 }
    requires pairs { pairs.first + pairs.count ≤ 25 }
    ensures { OnOk result (lines.new.items ≡ lines.old.items ++ made_lines scoring wide.now index (range_with_len pairs.first pairs.count)) }
{
    let own = wide.games(index);
    for offset in 0..pairs.count {
        lines.push(SectionLine {
            section: index as u8 + 1,
            line: joint_line(scoring, wide, own, pairs.first + offset),
        })?;
    }
    Ok(())
}

impl<'a> Event<'a> {
    /// The sessions of sections, which are one field.
    pub fn new(alloc: Global, sections: &'a [Session]) -> Result<Event<'a>, AllocError>
        requires few { length sections.now ≤ MOST_SECTIONS }
        requires field { IsField sections.now }
        ensures { IfOk result (λ event. event ≡ sections.now) }
    {
        let games = games_by_section(alloc, sections)?;
        let wide = WideScores::new(alloc, games)?;
        Ok(Event { sections, wide })
    }

    /// The scores of North and South on a board in all sections.
    pub fn scores(&self, board: BoardNumber) -> &[i32]
        ensures scores { result.now ≡ scores_on (joint (map games_of self.now)) NorthSouth board }
        ensures most { length result.now ≤ MOST_SCORES }
    {
        self.wide.scores(board.number())
    }

    /// Adds the lines of the pairs of a field in the section at an index.
    fn push_section_lines(
        &self,
        lines: &mut Vec<SectionLine>,
        index: usize,
        field: Field,
    ) -> Result<(), AllocError>
        requires { index < length self.now }
        ensures lines { OnOk result (lines.new.items ≡ lines.old.items ++ lines_at self.now index field) }
        ensures few { length (lines_at self.now index field) ≤ 24 }
    {
        let pairs = pairs_at(self.sections, index, field);
        push_lines(lines, scoring_of(self.sections), &self.wide, index, pairs)
    }

    /// The lines of the pairs of a field in all sections.
    fn field_lines(&self, alloc: Global, field: Field) -> Result<Vec<SectionLine>, AllocError>
        ensures lines { IfOk result (λ lines. lines.items ≡ field_lines self.now field) }
        ensures most { IfOk result (λ lines. length lines.items ≤ 960) }
    {
        let mut lines = Vec::new(alloc);
        for index in 0..self.sections.len() {
            self.push_section_lines(&mut lines, index, field)?;
        }
        Ok(lines)
    }

    /// The ranking of a field over the pairs of all sections. There is none of a field that no section has.
    pub fn ranking(&self, alloc: Global, field: Field) -> Result<Vec<SectionRanked>, AllocError>
        ensures { IfOk result (λ ranking. IsFieldRanking self.now field ranking.items) }
    {
        let lines = self.field_lines(alloc, field)?;
        rank(alloc, scoring_of(self.sections), lines.as_slice())
    }

    /// The ranking of a field among the pairs of the section at an index, by what they gained against the scores of all sections.
    pub fn section_ranking(
        &self,
        alloc: Global,
        index: usize,
        field: Field,
    ) -> Result<Vec<SectionRanked>, AllocError>
        requires { index < length self.now }
        ensures { IfOk result (λ ranking. IsSectionRanking self.now index field ranking.items) }
    {
        let mut own = Vec::new(alloc);
        self.push_section_lines(&mut own, index, field)?;
        rank(alloc, scoring_of(self.sections), own.as_slice())
    }
}
