//! A list of names beside a configuration: whether it has as many pairs, and the lines that tell pages who is shown by which name.
ghost use Rattle.std.specs.Prelude.{◌≡◌, ◌≤◌, ◌++◌, true, length, map, IfOk, OnOk, IfSome};
ghost use Rattle.bridge_config.specs.ConfigValue.{pair_of};
ghost use Rattle.evening_commands.specs.People.{fits, tabbed, pair_line, pair_lines, people_text};

use bridge_config::{Config, PairFields, player_name};
use evening_draft::PairNames;
use line_text::number_text;
use std::alloc::{AllocError, Global};

/// How many pairs a configuration has.
fn pair_count(config: &Config) -> usize
    ensures count { result ≡ length config.now.pairs }
    ensures few { result ≤ 24 }
{
    config.fields().pairs.len()
}

/// Whether a list has as many pairs as a configuration, where there is one.
pub fn has_pairs(names: Option<&[PairNames]>, config: &Config) -> bool
    ensures fits { result ≡ fits names.entry (length config.now.pairs) }
    ensures few { result ≡ true → IfSome names.entry (λ names. length names.now ≤ 24) }
{
    match names {
        None => true,
        Some(names) => names.len() == pair_count(config),
    }
}

/// Adds a word behind a tab.
fn push_tabbed(text: &mut Vec<u8>, word: &str) -> Result<(), AllocError>
    ensures { OnOk result (text.new.items ≡ text.old.items ++ tabbed word.now) }
{
    text.push(b'\t')?;
    text.extend_from_slice(word.as_bytes())
}

/// Adds the line of a pair.
fn push_line(
    text: &mut Vec<u8>,
    pairs: &[PairFields],
    pair: u8,
    shown: &PairNames,
) -> Result<(), AllocError>
    ensures { OnOk result (text.new.items ≡ text.old.items ++ pair_line (map pair_of pairs.now) pair shown.now) }
{
    text.extend_from_slice(number_text(u32::from(pair)).as_str().as_bytes())?;
    push_tabbed(text, player_name(pairs, pair, true))?;
    push_tabbed(text, player_name(pairs, pair, false))?;
    push_tabbed(text, shown.first.as_str())?;
    push_tabbed(text, shown.second.as_str())?;
    text.extend_from_slice(b"\n")
}

/// The lines of all pairs of a list.
fn lines_of(alloc: Global, names: &[PairNames], pairs: &[PairFields]) -> Result<Vec<u8>, AllocError>
    requires { length names.now ≤ 24 }
    ensures { IfOk result (λ text. text.items ≡ pair_lines (map pair_of pairs.now) 1 names.now) }
{
    let mut text = Vec::new(alloc);
    for (index, shown) in names.iter().enumerate() {
        push_line(&mut text, pairs, index as u8 + 1, shown)?;
    }
    Ok(text)
}

/// The lines that tell pages by which names the players of these pairs are shown; none where there is no list.
pub fn people_text(
    alloc: Global,
    names: Option<&[PairNames]>,
    pairs: &[PairFields],
) -> Result<Vec<u8>, AllocError>
    requires { IfSome names (λ names. length names.now ≤ 24) }
    ensures { IfOk result (λ text. text.items ≡ people_text names.entry (map pair_of pairs.now)) }
{
    match names {
        None => Ok(Vec::new(alloc)),
        Some(names) => lines_of(alloc, names, pairs),
    }
}
