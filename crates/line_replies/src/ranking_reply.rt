//! The reply to a question for the ranking of a field.
ghost use Rattle.std.specs.Prelude.{◌≡◌, ◌+◌, ◌*◌, ◌≤◌, ◌∷◌, ◌++◌, [], length, map};
ghost use Rattle.arrayvec.specs.ArrayString.{array_string_len};
ghost use Rattle.line_text.specs.Lines.{lines_text};
ghost use Rattle.bridge_cards.specs.declared.scoring.Scoring.TheVariants.{MatchPoints};
ghost use Rattle.line_replies.specs.ReplyTexts.{each_spaced, gain_words, ranked_line, ranking_text};

use crate::reply_text::{REPLY_BYTES, ReplyText, push_word};
use bridge_score::{Ranked, Scoring, share_percent};
use itoa::Buffer;
use line_text::{percent_text, tenths_text};

/// The room for a line of a ranking.
pub const RANK_BYTES: usize = 80;

/// Adds the share of a pair: its matchpoints, those available to it, and the percentage.
fn push_share(text: &mut ReplyText, ranked: &Ranked)
    requires { array_string_len text.old + 66 ≤ REPLY_BYTES }
    ensures text { text.new.bytes ≡ text.old.bytes ++ each_spaced (gain_words MatchPoints ranked.now) }
    ensures room { array_string_len text.new ≤ array_string_len text.old + 66 }
{
    text.push_str(" ");
    text.push_str(tenths_text(u64::from(ranked.value.unsigned_abs())).as_str());
    text.push_str("/");
    text.push_str(tenths_text(u64::from(ranked.available)).as_str());
    text.push_str(" ");
    text.push_str(percent_text(share_percent(ranked)).as_str());
}

/// Adds what a pair gained.
fn push_gain(text: &mut ReplyText, scoring: Scoring, ranked: &Ranked)
    requires { array_string_len text.old + 66 ≤ REPLY_BYTES }
    ensures text { text.new.bytes ≡ text.old.bytes ++ each_spaced (gain_words scoring ranked.now) }
    ensures room { array_string_len text.new ≤ array_string_len text.old + 66 }
{
    match scoring {
        Scoring::MatchPoints => push_share(text, ranked),
        Scoring::Imps => push_word(text, Buffer::new().format(ranked.value)),
    }
}

/// Adds the line of a pair: its place, its number, and what it gained.
fn push_ranked(text: &mut ReplyText, scoring: Scoring, ranked: &Ranked)
    requires { array_string_len text.old + RANK_BYTES ≤ REPLY_BYTES }
    ensures line { text.new.bytes ≡ text.old.bytes ++ (ranked_line scoring ranked.now ++ 10 ∷ []) }
    ensures room { array_string_len text.new ≤ array_string_len text.old + RANK_BYTES }
{
    text.push_str(Buffer::new().format(ranked.place));
    push_word(text, Buffer::new().format(ranked.pair));
    push_gain(text, scoring, ranked);
    text.push_str("\n");
}

/// Adds the lines of the pairs: of each its place, its number, and under matchpoints what it gained of what was available,
/// as `1.2/2.0`, and the percentage with two decimals, or `-` where nothing was available; under IMPs the sum.
pub fn push_pairs(text: &mut ReplyText, scoring: Scoring, ranking: &[Ranked])
    requires few { length ranking.now ≤ 24 }
    requires room { array_string_len text.old + 24 * RANK_BYTES ≤ REPLY_BYTES }
    ensures lines { text.new.bytes ≡ text.old.bytes ++ lines_text (map (ranked_line scoring) ranking.now) }
    ensures room { array_string_len text.new ≤ array_string_len text.old + 24 * RANK_BYTES }
{
    for ranked in ranking {
        push_ranked(text, scoring, ranked);
    }
}

/// Adds the reply to a question for a ranking: `OK`, a line for each pair, and a full stop.
pub fn push_ranking(text: &mut ReplyText, scoring: Scoring, ranking: &[Ranked])
    requires few { length ranking.now ≤ 24 }
    requires empty { text.old.bytes ≡ [] }
    ensures { text.new.bytes ≡ ranking_text scoring ranking.now }
{
    text.push_str("OK\n");
    push_pairs(text, scoring, ranking);
    text.push_str(".\n");
}
