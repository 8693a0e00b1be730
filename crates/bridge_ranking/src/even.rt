//! That a ranking is even-handed, as a law over the definitions that it cites.
ghost use Rattle.std.specs.Prelude.{◌≡◌, ◌<◌, ℕ, ℤ, List, length};
ghost use Rattle.bridge_cards.specs.declared.scoring.Scoring.{Scoring as ScoringType};
ghost use Rattle.bridge_score.specs.Comparison.{score_at};
ghost use Rattle.bridge_ranking.specs.Ranking.{gain_at};

/// Equal scores on a board gain the same against the others, wherever they stand in the list of its scores.
pub fn equal_scores_gain_the_same()
    ensures { (scoring : ScoringType) (scores : List ℤ) (i j : ℕ) → i < length scores → j < length scores → score_at scores i ≡ score_at scores j →
        gain_at scoring scores i ≡ gain_at scoring scores j }
{}
