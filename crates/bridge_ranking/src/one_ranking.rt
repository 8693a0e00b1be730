//! A field has one ranking, as a law over the definition that a session answers by.
ghost use Rattle.std.specs.Prelude.{◌≡◌, ℕ, List};
ghost use Rattle.bridge_score.specs.declared.ranking.Ranked.{Ranked as RankedType};
ghost use Rattle.session_rules.specs.State.{SessionValue};
ghost use Rattle.bridge_ranking.specs.declared.field.Field.{Field as FieldType};
ghost use Rattle.bridge_ranking.specs.Ranking.{IsRankingTo};

/// The ranking of a field is determined by the session: two rankings of it are the same, to whichever keys they are shown.
pub fn a_field_has_one_ranking()
    ensures { (s : SessionValue) (key next : ℕ) (field : FieldType) (one other : List RankedType) → IsRankingTo s key field one → IsRankingTo s next field other →
        one ≡ other }
{}
