//! How scores are compared, as the standard names it.
ghost use Rattle.std.specs.Prelude.{◌≡◌, ◌≤◌, length};
ghost use Rattle.bridge_pbn.specs.Tags.{scoring_text};

use bridge_cards::Scoring;

/// `MP` or `IMP`.
pub fn scoring_text(scoring: Scoring) -> &'static str
    ensures text { result.now ≡ scoring_text scoring }
    ensures short { length result.now ≤ 3 }
{
    match scoring {
        Scoring::MatchPoints => "MP",
        Scoring::Imps => "IMP",
    }
}
