//! Whether several sessions are one field.
ghost use Rattle.std.specs.Prelude.{◌<◌, MatchOption, OnOk, IfErr, length};
ghost use Rattle.std.specs.Bool.{Decides};
ghost use Rattle.event_ranking.specs.OneField.{HaveOneDeal, HaveOneDealEach, IsFirstOtherDeal, CanCompare, IsFirstDifference};
ghost use Rattle.event_ranking.specs.OneField.{IsField, CanCompareWith, IsRefusalAt, IsFirstRefusal};

use bridge_cards::BoardNumber;
use bridge_session::Session;

/// In what a section differs from an earlier one.
#[derive(Clone, Copy, Debug, PartialEq, Eq)]
pub enum Difference {
    /// How scores are compared.
    Scoring,
    /// How many boards a set has.
    Boards,
    /// The deal of a board that both have dealt: the first such board.
    Deal(BoardNumber),
}

/// Why sessions are not one field: the first section that differs from one before it.
#[derive(Clone, Copy, Debug, PartialEq, Eq)]
pub struct SectionsRefused {
    /// Its index, from 0.
    pub index: usize,
    /// The index of the first section from which it differs.
    pub earlier: usize,
    /// In what they differ: of scoring, boards a set and deals the first.
    pub difference: Difference,
}

/// Whether two sessions have the same deal of a board, where both have it dealt.
fn have_one_deal(ours: &Session, theirs: &Session, board: BoardNumber) -> bool
    ensures { Decides result (HaveOneDeal ours.now.deals theirs.now.deals board) }
{
    match (ours.deal(board), theirs.deal(board)) {
        (Some(our), Some(their)) => our == their,
        (Some(_), None) => true,
        (None, _) => true,
    }
}

/// The first board of which two sessions have both a deal, and not the same.
fn first_other_deal(ours: &Session, theirs: &Session) -> Option<BoardNumber>
    ensures { MatchOption result (HaveOneDealEach ours.now.deals theirs.now.deals) (IsFirstOtherDeal ours.now.deals theirs.now.deals) }
{
    for number in 1..37 {
        let board = BoardNumber::new(number).unwrap();
        if !have_one_deal(ours, theirs, board) {
            return Some(board);
        }
    }
    None
}

/// In what two sessions differ first, if they cannot be compared.
fn first_difference(ours: &Session, theirs: &Session) -> Option<Difference>
    ensures { MatchOption result (CanCompare ours.now theirs.now) (IsFirstDifference ours.now theirs.now) }
{
    let (our, their) = (ours.config().fields(), theirs.config().fields());
    if our.scoring != their.scoring {
        return Some(Difference::Scoring);
    }
    if our.boards != their.boards {
        return Some(Difference::Boards);
    }
    Some(Difference::Deal(first_other_deal(ours, theirs)?))
}

/// Judges the section at an index by those before it.
fn judge(sections: &[Session], index: usize) -> Result<(), SectionsRefused>
    requires { index < length sections.now }
    ensures fits { OnOk result (CanCompareWith sections.now index index) }
    ensures refused { IfErr result (IsRefusalAt sections.now index) }
{
    for earlier in 0..index {
        if let Some(difference) = first_difference(&sections[earlier], &sections[index]) {
            return Err(SectionsRefused {
                index,
                earlier,
                difference,
            });
        }
    }
    Ok(())
}

/// Whether sessions are one field, in their order: any two have the same scoring, boards a set, and deal of each board that
/// both have dealt. Refused is the first section that differs from one before it.
pub fn field_of(sections: &[Session]) -> Result<(), SectionsRefused>
    ensures field { OnOk result (IsField sections.now) }
    ensures refused { IfErr result (IsFirstRefusal sections.now) }
{
    for index in 0..sections.len() {
        if let Err(refused) = judge(sections, index) {
            return Err(refused);
        }
    }
    Ok(())
}
