//! A line of a configuration, and what its words state.
ghost use Rattle.std.specs.Prelude.{◌≡◌, ◌==◌, not, length, is_some, ◌≤◌, map, IfOk, true};
ghost use Rattle.std.specs.Str.Lines.{lines};
ghost use Rattle.bridge_config.specs.ConfigValue.{pair_of, key_number};
ghost use Rattle.line_text.specs.WordViews.{view_of_five};
ghost use Rattle.bridge_config.specs.LineReading.{SeenAs, within, name_line, date_line, scoring_line, number_line, are_numerals, shape_within, shape_line, row_within, row_line, is_pair_form, keys_after, pair_within, pair_line, form_at, range_at};
ghost use Rattle.line_text.specs.Words.{word_after, words_of};
ghost use Rattle.line_text.specs.Numeral.{is_numeral};
ghost use Rattle.bridge_config.specs.Reading.{due_line};

use crate::fields::{DATE_BYTES, Key, NAME_BYTES, PairFields};
use crate::limits::{is_date_form, is_date_within, is_name, stands_in};
use crate::refused::{ConfigFault, ConfigRefused};
use arrayvec::ArrayString;
use bridge_cards::Scoring;
use bridge_movement::{MOST_PAIRS, MOST_ROUNDS, MOST_SETS, MOST_TABLES, Row, Shape};
use line_text::{Five, first_line, five_after, inline, is_numeral, value_of, word_after};

/// A line and its number, from 1.
#[derive(Clone, Copy)]
pub struct Line<'a> {
    /// Its number in the text, from 1.
    pub number: u32,
    /// Its bytes, without the line feed and a carriage return before that.
    pub text: &'a [u8],
}

/// The first line of the text, which has that number, and what stands after it; `Form` where the text has ended.
pub fn due_line(number: u32, text: &[u8]) -> Result<(Line<'_>, &[u8]), ConfigFault>
    ensures line { SeenAs (λ due. (due.0.text.now, lines due.1.now)) result (due_line number (lines text.now)) }
    ensures number { IfOk result (λ due. due.0.number ≡ number) }
{
    let missing = ConfigFault {
        line: number,
        cause: ConfigRefused::Form,
    };
    let (line, rest) = first_line(text).ok_or(missing)?;
    Ok((Line { number, text: line }, rest))
}

/// Whether the text has a line.
pub fn has_line(text: &[u8]) -> bool
    ensures { result ≡ not (length (lines text.now) == 0) }
{
    first_line(text).is_some()
}

impl Line<'_> {
    /// The fault that the line is out of form.
    fn form(self) -> ConfigFault
        ensures { result ≡ form_at self.entry.number }
    {
        ConfigFault {
            line: self.number,
            cause: ConfigRefused::Form,
        }
    }

    /// The fault that something in the line is out of its range.
    fn range(self) -> ConfigFault
        ensures { result ≡ range_at self.entry.number }
    {
        ConfigFault {
            line: self.number,
            cause: ConfigRefused::Range,
        }
    }

    /// Whether the line is that keyword and one word.
    pub fn has_word_after(self, keyword: &[u8]) -> bool
        ensures { result ≡ is_some (word_after keyword.now (words_of self.entry.text.now)) }
    {
        word_after(keyword, self.text).is_some()
    }

    /// The name after a keyword.
    pub fn name(self, keyword: &[u8]) -> Result<ArrayString<NAME_BYTES>, ConfigFault>
        ensures { SeenAs (λ name. name.bytes) result (name_line self.entry.number keyword.now self.entry.text.now) }
    {
        match word_after(keyword, self.text) {
            Some(word) if is_name(word) => Ok(inline(word)),
            _ => Err(self.form()),
        }
    }

    /// The date after `DATE`.
    pub fn date(self) -> Result<ArrayString<DATE_BYTES>, ConfigFault>
        ensures { SeenAs (λ date. date.bytes) result (date_line self.entry.number self.entry.text.now) }
    {
        match word_after(b"DATE", self.text) {
            Some(word) if is_date_form(word) => {
                if is_date_within(word) {
                    Ok(inline(word))
                } else {
                    Err(self.range())
                }
            }
            _ => Err(self.form()),
        }
    }

    /// How scores are compared.
    pub fn scoring(self) -> Result<Scoring, ConfigFault>
        ensures { SeenAs (λ scoring. scoring) result (scoring_line self.entry.number self.entry.text.now) }
    {
        match word_after(b"SCORING", self.text) {
            Some(b"MP") => Ok(Scoring::MatchPoints),
            Some(b"IMP") => Ok(Scoring::Imps),
            _ => Err(self.form()),
        }
    }

    /// The number of a numeral, from low to high.
    fn within(self, low: u32, high: u32, word: &[u8]) -> Result<u32, ConfigFault>
        requires { is_numeral word.now ≡ true }
        ensures value { SeenAs (λ n. n) result (within self.entry.number low high word.now) }
        ensures most { IfOk result (λ n. n ≤ high) }
    {
        match value_of(word) {
            Some(value) if (low..=high).contains(&value) => Ok(value),
            _ => Err(self.range()),
        }
    }

    /// The number of a numeral, from low to high, in a byte.
    fn within_byte(self, low: u8, high: u8, word: &[u8]) -> Result<u8, ConfigFault>
        requires { is_numeral word.now ≡ true }
        ensures value { SeenAs (λ n. n) result (within self.entry.number low high word.now) }
        ensures most { IfOk result (λ n. n ≤ high) }
    {
        let value = self.within(u32::from(low), u32::from(high), word)?;
        Ok(value as u8)
    }

    /// The number, from low to high, after a keyword.
    pub fn number(self, keyword: &[u8], low: u32, high: u32) -> Result<u32, ConfigFault>
        ensures value { SeenAs (λ n. n) result (number_line self.entry.number keyword.now low high self.entry.text.now) }
        ensures most { IfOk result (λ n. n ≤ high) }
    {
        match word_after(keyword, self.text) {
            Some(word) if is_numeral(word) => self.within(low, high, word),
            _ => Err(self.form()),
        }
    }

    /// The shape after `MOVEMENT`.
    pub fn shape(self) -> Result<Shape, ConfigFault>
        ensures { SeenAs (λ shape. shape) result (shape_line self.entry.number self.entry.text.now) }
    {
        match five_after(b"MOVEMENT", self.text) {
            Some(words) if are_numerals(&words) => self.shape_of(&words),
            _ => Err(self.form()),
        }
    }

    #[tactic(auto, unfolding(crate::specs::LineReading::shape_within))]
    fn shape_of(self, words: &Five<'_>) -> Result<Shape, ConfigFault>
        requires { are_numerals (view_of_five words.now) ≡ true }
        ensures { SeenAs (λ shape. shape) result (shape_within self.entry.number (view_of_five words.now)) }
    {
        let tables = self.within_byte(2, MOST_TABLES, words.first)?;
        let rounds = self.within_byte(1, MOST_ROUNDS, words.second)?;
        let sets = self.within_byte(1, MOST_SETS, words.third)?;
        let pairs = self.within_byte(2, MOST_PAIRS as u8, words.fourth)?;
        let split = self.within_byte(1, pairs, words.fifth)?;
        Ok(Shape {
            tables,
            rounds,
            sets,
            pairs,
            split,
        })
    }

    /// The row after `ROW`.
    pub fn row(self) -> Result<Row, ConfigFault>
        ensures { SeenAs (λ row. row) result (row_line self.entry.number self.entry.text.now) }
    {
        match five_after(b"ROW", self.text) {
            Some(words) if are_numerals(&words) => self.row_of(&words),
            _ => Err(self.form()),
        }
    }

    #[tactic(auto, unfolding(crate::specs::LineReading::row_within))]
    fn row_of(self, words: &Five<'_>) -> Result<Row, ConfigFault>
        requires { are_numerals (view_of_five words.now) ≡ true }
        ensures { SeenAs (λ row. row) result (row_within self.entry.number (view_of_five words.now)) }
    {
        let round = self.within_byte(0, 255, words.first)?;
        let table = self.within_byte(0, 255, words.second)?;
        let ns = self.within_byte(0, 255, words.third)?;
        let ew = self.within_byte(0, 255, words.fourth)?;
        let set = self.within_byte(0, 255, words.fifth)?;
        Ok(Row {
            round,
            table,
            ns,
            ew,
            set,
        })
    }

    /// The pair of that number after `PAIR`. No key may stand among the earlier ones.
    pub fn pair(self, index: u32, earlier: &[Key]) -> Result<PairFields, ConfigFault>
        ensures { SeenAs pair_of result
            (pair_line self.entry.number index (map key_number earlier.now) self.entry.text.now) }
    {
        match five_after(b"PAIR", self.text) {
            Some(words) if is_pair_form(&words) => self.pair_of(index, earlier, &words),
            _ => Err(self.form()),
        }
    }

    #[tactic(auto, unfolding(crate::specs::LineReading::pair_within))]
    fn pair_of(
        self,
        index: u32,
        earlier: &[Key],
        words: &Five<'_>,
    ) -> Result<PairFields, ConfigFault>
        requires { is_pair_form (view_of_five words.now) ≡ true }
        ensures { SeenAs pair_of result
            (pair_within self.entry.number index (map key_number earlier.now) (view_of_five words.now)) }
    {
        self.within(index, index, words.first)?;
        let first = self.within(0, u32::MAX, words.third)?;
        let second = self.within(0, u32::MAX, words.fifth)?;
        let keys = self.keys_after(earlier, Key(first), Key(second))?;
        Ok(PairFields {
            names: [inline(words.second), inline(words.fourth)],
            keys,
        })
    }

    /// The two keys, neither of which may stand earlier.
    fn keys_after(self, earlier: &[Key], first: Key, second: Key) -> Result<[Key; 2], ConfigFault>
        ensures { SeenAs (map key_number) result
            (keys_after self.entry.number (map key_number earlier.now) (key_number first) (key_number second)) }
    {
        if stands_in(earlier, first) || stands_in(earlier, second) || first.0 == second.0 {
            Err(ConfigFault {
                line: self.number,
                cause: ConfigRefused::KeyTwice,
            })
        } else {
            Ok([first, second])
        }
    }
}

/// Whether each of the words is a numeral.
fn are_numerals(words: &Five<'_>) -> bool
    ensures { result ≡ are_numerals (view_of_five words.now) }
{
    is_numeral(words.first)
        && is_numeral(words.second)
        && is_numeral(words.third)
        && is_numeral(words.fourth)
        && is_numeral(words.fifth)
}

/// Whether the words are a number, and a name and a number twice.
fn is_pair_form(words: &Five<'_>) -> bool
    ensures { result ≡ is_pair_form (view_of_five words.now) }
{
    is_numeral(words.first)
        && is_name(words.second)
        && is_numeral(words.third)
        && is_name(words.fourth)
        && is_numeral(words.fifth)
}
