//! What a pair gains in the plays that are compared, or is awarded (Laws 12C2, 78). Matchpoints are in tenths.
ghost use Rattle.std.specs.Prelude.{◌≡◌, ◌≤◌, ◌<◌, ◌+◌, ◌-◌, ◌*◌, length, map, position, All, AllPairs};
ghost use Rattle.std.specs.List.{range_with_len};
ghost use Rattle.std.specs.Ordering.{int_eq};
ghost use Rattle.bridge_movement.specs.Shape.{IsShape};
ghost use Rattle.bridge_score.specs.ScoringTable.{IsScore};
ghost use Rattle.bridge_score.specs.Ranking.{IsLine, AreOfTwoPairs};
ghost use Rattle.bridge_ranking.specs.Ranking.{scores_on, gain_at, gain_of, available_of, award, average_for, gained, side_in, value_in, available_in, line_of, has_field, pairs_of_field};
ghost use Rattle.bridge_ranking.specs.Gains.{IsGainWithin, AreGames};
ghost use Rattle.bridge_ranking.specs.KeptGames.{IsGame, IsResult};

use crate::field::Field;
use crate::game::{Game, PlayResult, score_for};
use crate::scored::ScoredGames;
use arrayvec::ArrayVec;
use bridge_cards::Side;
use bridge_movement::Shape;
use bridge_score::{Line, MOST_LINES, Scoring, cross_imps, matchpoints};
use session_rules::Average;

/// What a pair gained, and what was available to it.
#[derive(Clone, Copy)]
struct Gain {
    /// What was gained: tenths of matchpoints, or IMPs.
    value: i32,
    /// What was available, in tenths of matchpoints.
    available: u32,
}

/// The first index of a score.
fn index_of_score(scores: &[i32], own: i32) -> Option<usize>
    ensures { result ≡ position (int_eq own) scores.now }
{
    scores.iter().position(|score| own == *score)
}

/// What the score at an index gains against the others.
fn gain_at(scoring: Scoring, scores: &[i32], index: usize) -> i32
    requires count { length scores.now ≤ 144 }
    requires scores { All IsScore scores.now }
    requires index { index < length scores.now }
    ensures value { result ≡ gain_at scoring scores.now index }
    ensures within { IsGainWithin scoring result (available_of scores.now) }
{
    match scoring {
        Scoring::MatchPoints => i32::from(matchpoints(scores, index)),
        Scoring::Imps => cross_imps(scores, index),
    }
}

/// What a score gains against the others.
fn gain_of(scoring: Scoring, scores: &[i32], own: i32) -> i32
    requires count { length scores.now ≤ 144 }
    requires scores { All IsScore scores.now }
    ensures value { result ≡ gain_of scoring scores.now own }
    ensures within { IsGainWithin scoring result (available_of scores.now) }
{
    match index_of_score(scores, own) {
        Some(index) => gain_at(scoring, scores, index),
        None => 0,
    }
}

/// The side on which a pair played.
pub fn side_in(pair: u8, game: Game) -> Option<Side>
    ensures { result ≡ side_in pair game }
{
    if game.ns == pair {
        Some(Side::NorthSouth)
    } else if game.ew == pair {
        Some(Side::EastWest)
    } else {
        None
    }
}

/// What is available to each of these scores of a board, in tenths: 20 for each other score.
pub fn available_of(scores: &[i32]) -> u32
    requires { length scores.now ≤ 144 }
    ensures available { result ≡ available_of scores.now }
    ensures most { result ≤ 2860 }
{
    20 * (scores.len().saturating_sub(1) as u32)
}

/// An average of so much that is available, of matchpoints alone.
fn award(scoring: Scoring, average: Average, available: u32) -> i32
    requires { available ≤ 2860 }
    ensures value { result ≡ award scoring average available }
    ensures within { IsGainWithin scoring result available }
{
    match scoring {
        Scoring::MatchPoints => (u32::from(average.percent()) * available / 100) as i32,
        Scoring::Imps => 0,
    }
}

/// The average that a side is awarded.
pub fn average_for(side: Side, ns: Average, ew: Average) -> Average
    ensures { result ≡ average_for side ns ew }
{
    match side {
        Side::NorthSouth => ns,
        Side::EastWest => ew,
    }
}

/// What a side gains on a board with these scores by what its play is compared by.
pub fn gained(scoring: Scoring, scores: &[i32], side: Side, by: PlayResult) -> i32
    requires count { length scores.now ≤ 144 }
    requires scores { All IsScore scores.now }
    requires compared { IsResult by }
    ensures value { result ≡ gained scoring scores.now side by }
    ensures within { IsGainWithin scoring result (available_of scores.now) }
{
    match by {
        PlayResult::Score(score) => gain_of(scoring, scores, score_for(side, score)),
        PlayResult::Averages { ns, ew } => {
            award(scoring, average_for(side, ns, ew), available_of(scores))
        }
    }
}

/// What a side gains in a play, and what is available to it.
fn gain_on(scoring: Scoring, games: &ScoredGames<'_>, side: Side, game: Game) -> Gain
    requires games { AreGames games.now }
    requires game { IsGame game }
    ensures value { result.value ≡ gained scoring (scores_on games.now side game.board) side game.result }
    ensures available { result.available ≡ available_of (scores_on games.now side game.board) }
    ensures within { IsGainWithin scoring result.value result.available }
    ensures most { result.available ≤ 2860 }
{
    let scores = games.scores(side, game.board);
    Gain {
        value: gained(scoring, scores, side, game.result),
        available: available_of(scores),
    }
}

/// What a pair gained in a game, and what was available to it, if it played there.
fn gain_in(scoring: Scoring, games: &ScoredGames<'_>, pair: u8, game: Game) -> Gain
    requires games { AreGames games.now }
    requires game { IsGame game }
    ensures value { result.value ≡ value_in scoring games.now pair game }
    ensures available { result.available ≡ available_in games.now pair game }
    ensures within { IsGainWithin scoring result.value result.available }
    ensures most { result.available ≤ 2860 }
{
    match side_in(pair, game) {
        Some(side) => gain_on(scoring, games, side, game),
        None => Gain {
            value: 0,
            available: 0,
        },
    }
}

/// What a pair gained in all games.
fn line_of(scoring: Scoring, games: &ScoredGames<'_>, pair: u8) -> Line
    requires { AreGames games.now }
    ensures line { result ≡ line_of scoring games.now pair }
    ensures within { IsLine scoring result }
{
    let mut value = 0;
    let mut available = 0;
    for game in games.games() {
        let gain = gain_in(scoring, games, pair, *game);
        value += gain.value;
        available += gain.available;
    }
    Line {
        pair,
        value,
        available,
    }
}

/// The lines of so many pairs, from the first on.
fn lines_from(
    scoring: Scoring,
    games: &ScoredGames<'_>,
    first: u8,
    count: u8,
) -> ArrayVec<Line, MOST_LINES>
    requires games { AreGames games.now }
    requires most { first + count ≤ 25 }
    requires least { 1 ≤ first }
    ensures lines { result.items ≡ map (line_of scoring games.now) (range_with_len first count) }
    ensures within { All (IsLine scoring) result.items }
    ensures pairs { AllPairs AreOfTwoPairs result.items }
{
    let mut lines = ArrayVec::new();
    for index in 0..count {
        lines.push(line_of(scoring, games, first + index));
    }
    lines
}

/// Whether a movement has the field.
pub fn has_field(shape: Shape, field: Field) -> bool
    ensures { result ≡ has_field shape field }
{
    match field {
        Field::First => true,
        Field::Second => shape.split < shape.pairs,
    }
}

/// The lines of the pairs of a field.
pub fn lines_of(
    scoring: Scoring,
    games: &[Game],
    shape: Shape,
    field: Field,
) -> ArrayVec<Line, MOST_LINES>
    requires games { AreGames games.now }
    requires shape { IsShape shape }
    ensures lines { result.items ≡ map (line_of scoring games.now) (pairs_of_field shape field) }
    ensures within { All (IsLine scoring) result.items }
    ensures pairs { AllPairs AreOfTwoPairs result.items }
{
    let games = ScoredGames::new(games);
    match field {
        Field::First => lines_from(scoring, &games, 1, shape.split),
        Field::Second => lines_from(scoring, &games, shape.split + 1, shape.pairs - shape.split),
    }
}
