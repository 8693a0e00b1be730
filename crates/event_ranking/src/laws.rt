//! That the scoring across sections is a session's own where there is one section.
ghost use Rattle.std.specs.Prelude.{◌≡◌, ◌∷◌, [], ℕ, List, map};
ghost use Rattle.bridge_cards.specs.declared.scoring.Scoring.{Scoring as ScoringType};
ghost use Rattle.bridge_ranking.specs.declared.game.Game.{Game as GameType};
ghost use Rattle.bridge_ranking.specs.declared.field.Field.{Field as FieldType};
ghost use Rattle.bridge_ranking.specs.Ranking.{line_of};
ghost use Rattle.session_rules.specs.State.{SessionValue};
ghost use Rattle.event_ranking.specs.declared.ranking.SectionRanked.{SectionRanked as SectionRankedType};
ghost use Rattle.event_ranking.specs.Joint.{joint_line};
ghost use Rattle.event_ranking.specs.EventRanking.{IsFieldRanking, IsSessionRanking, without_section};

/// A pair's line against its own section's scores is its line in the session, and the ranking over one section is the session's.
pub fn one_section_is_ranked_as_ever()
    ensures line { (scoring : ScoringType) (games : List GameType) (pair : ℕ) → joint_line scoring games games pair ≡ line_of scoring games pair }
    ensures ranking { (s : SessionValue) (field : FieldType) (ranking : List SectionRankedType) → IsFieldRanking (s ∷ []) field ranking →
        IsSessionRanking s field (map without_section ranking) }
{}
