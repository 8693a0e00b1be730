//! What is pinned up agrees with the ranking, as laws over the definitions that both are given by.
ghost use Rattle.std.specs.Prelude.{◌≡◌, ℕ, List, length, filter, sum_by, All};
ghost use Rattle.session_rules.specs.State.{SessionValue};
ghost use Rattle.bridge_score.specs.Comparison.{int_sum_by};
ghost use Rattle.bridge_cards.specs.declared.seat.Side.TheVariants.{NorthSouth};
ghost use Rattle.bridge_ranking.specs.Ranking.{games_of, line_of, scores_on};
ghost use Rattle.bridge_results.specs.declared.card.CardLine.{CardLine as CardLineType};
ghost use Rattle.bridge_results.specs.declared.frequency.Frequency.{Frequency as FrequencyType};
ghost use Rattle.bridge_results.specs.declared.traveller.BoardLine.{BoardLine as BoardLineType};
ghost use Rattle.bridge_results.specs.Traveller.{traveller};
ghost use Rattle.bridge_results.specs.Frequencies.{has_score, frequencies_of};
ghost use Rattle.bridge_results.specs.ScoreCard.{score_card_of};

/// What a pair gained in the plays of its score card, and what was available to it there, add up to its line in the ranking.
pub fn a_score_card_adds_up_to_the_ranking()
    ensures gain { (s : SessionValue) (pair : ℕ) → int_sum_by (λ (line : CardLineType). line.gain) (score_card_of s pair) ≡ (line_of s.configuration.scoring (games_of s) pair).value }
    ensures available { (s : SessionValue) (pair : ℕ) → sum_by (λ (line : CardLineType). line.available) (score_card_of s pair) ≡ (line_of s.configuration.scoring (games_of s) pair).available }
{}

/// The frequencies of a board count each score that is compared there, once; each counts the lines with its score.
pub fn frequencies_count_the_scores()
    ensures all { (s : SessionValue) (board : ℕ) → sum_by (λ (frequency : FrequencyType). frequency.count) (frequencies_of (traveller s board)) ≡ length (scores_on (games_of s) NorthSouth board) }
    ensures each { (lines : List BoardLineType) → All (λ (frequency : FrequencyType). frequency.count ≡ length (filter (has_score frequency.score) lines)) (frequencies_of lines) }
{}
