//! The command `draft`: the configuration of an evening for the pairs in a list of names.
ghost use Rattle.std.specs.Prelude.{◌≡◌, ◌≢◌, ◌≤◌, ◌/◌, ℕ, Option, Some, length, IfOk, IfErr, MatchResult};
ghost use Rattle.std.specs.Duration.{as_nanos};
ghost use Rattle.line_text.specs.Streams.{stream};
ghost use Rattle.bridge_movement.specs.declared.named.NamedMovement.{NamedMovement};
ghost use Rattle.bridge_cards.specs.declared.scoring.Scoring.{Scoring};
ghost use Rattle.evening_draft.specs.Wishing.{IsDateAt};
ghost use Rattle.evening_commands.specs.TextFile.{OfReader, OfFound, OfFile};
ghost use Rattle.evening_commands.specs.Evenings.{HasMovement, scoring_name, HasSeed, LacksSeed, MakesOn, Makes, WritesConfig, WritesMade, DraftsList, Drafts, evening_fault};
ghost use Rattle.evening_commands.specs.NamesView.{list_seen};

use crate::fault::EveningFault;
use crate::names_file::{Names, read_list};
use crate::stopping::stop;
use crate::text_file::{NoRead, Text, read_text};
use bridge_cards::Scoring;
use bridge_config::Config;
use bridge_movement::NamedMovement;
use command_line::DraftWords;
use evening_draft::{
    DateText, DraftRefused, PairNames, WishWords, date_at, draft_evening, read_seed, write_config,
};
use std::fs::File;
use std::io::{self, Read, Write};
use std::random::RandomSource;
use std::rt::Files;
use std::time::{Clock, Duration};

/// What the system gives for a draft.
pub trait Giver: Clock + RandomSource {}

impl<S: Clock + RandomSource> Giver for S {}

/// The date of a time since the beginning of 1970, by UTC.
fn date_of(time: Duration) -> Result<DateText, EveningFault>
    ensures date { IfOk result (λ date. IsDateAt (as_nanos time / 1000000000) date.bytes) }
    ensures fault { IfErr result (λ fault. fault ≡ EveningFault.Clock) }
{
    match date_at(time.as_secs()) {
        Some(date) => Ok(date),
        None => Err(EveningFault::Clock),
    }
}

/// Today's date, by UTC.
fn today<S: Clock>(rt: &S) -> Result<DateText, EveningFault>
    ensures date { IfOk result (λ date. (seconds : ℕ) × IsDateAt seconds date.bytes) }
    ensures fault { IfErr result (λ fault. fault ≡ EveningFault.Clock) }
{
    match rt.since_1970() {
        Ok(time) => date_of(time),
        Err(_) => Err(EveningFault::Clock),
    }
}

/// Random bytes.
fn random_seed<S: RandomSource>(rt: &S) -> Result<[u8; 32], EveningFault>
    ensures { IfErr result (λ fault. fault ≡ EveningFault.Random) }
{
    let mut seed = [0; 32];
    match rt.fill_bytes(&mut seed) {
        Ok(()) => Ok(seed),
        Err(_) => Err(EveningFault::Random),
    }
}

/// The seed that is given, or random bytes.
fn seed_for<S: RandomSource>(rt: &S, words: &DraftWords<'_>) -> Result<[u8; 32], EveningFault>
    ensures seed { IfOk result (HasSeed words.now.seed) }
    ensures fault { IfErr result (LacksSeed words.now) }
{
    match words.seed {
        Some(text) => read_seed(text).ok_or(EveningFault::Seed),
        None => random_seed(rt),
    }
}

/// Why no evening is made, as the run's fault.
fn evening_fault(refused: DraftRefused) -> EveningFault
    ensures { result ≡ evening_fault refused }
{
    match refused {
        DraftRefused::Movement => EveningFault::Movement,
        DraftRefused::Keys => EveningFault::Keys,
        DraftRefused::Heading => EveningFault::Heading,
    }
}

/// The movement of that name, or none where no name is given.
fn movement_named(name: Option<&str>) -> Result<Option<NamedMovement>, EveningFault>
    ensures { MatchResult result (HasMovement name.entry)
        (λ fault. ((movement : Option NamedMovement) → ¬ HasMovement name.entry movement) × (fault ≡ EveningFault.NoMovement)) }
{
    match name {
        None => Ok(None),
        Some("mitchell") => Ok(Some(NamedMovement::Mitchell)),
        Some("howell") => Ok(Some(NamedMovement::Howell)),
        Some(_) => Err(EveningFault::NoMovement),
    }
}

/// The scoring of that name.
fn scoring_named(name: &str) -> Result<Scoring, EveningFault>
    ensures { MatchResult result (λ scoring. name.now ≡ scoring_name scoring)
        (λ fault. ((scoring : Scoring) → name.now ≢ scoring_name scoring) × (fault ≡ EveningFault.NoScoring)) }
{
    match name {
        "mp" => Ok(Scoring::MatchPoints),
        "imp" => Ok(Scoring::Imps),
        _ => Err(EveningFault::NoScoring),
    }
}

/// The configuration of an evening on that date, with keys from that seed.
fn evening_on(
    words: &DraftWords<'_>,
    names: &[PairNames],
    date: &str,
    seed: [u8; 32],
) -> Result<Config, EveningFault>
    requires { length names.now ≤ 24 }
    ensures { MakesOn words.now names.now date.now seed result }
{
    let wished = WishWords {
        movement: movement_named(words.movement)?,
        boards: words.boards,
        scoring: scoring_named(words.scoring)?,
        event: words.event,
        site: words.site,
        date,
        seed,
    };
    draft_evening(names, &wished).map_err(|refused| evening_fault(refused))
}

/// The configuration of an evening for these pairs.
pub fn evening_for<S: Giver>(
    rt: &S,
    words: &DraftWords<'_>,
    names: &[PairNames],
) -> Result<Config, EveningFault>
    requires { length names.now ≤ 24 }
    ensures { Makes words.now names.now result }
{
    let seed = seed_for(rt, words)?;
    match words.date {
        Some(date) => evening_on(words, names, date, seed),
        None => {
            let date = today(rt)?;
            evening_on(words, names, date.as_str(), seed)
        }
    }
}

/// Writes a configuration.
pub fn write_drafted<W: Write>(config: &Config, output: &mut W) -> Result<(), EveningFault>
    ensures { WritesConfig (stream W.contents output.old output.new) config.now result }
{
    match write_config(config, output) {
        Ok(()) => Ok(()),
        Err(_) => Err(EveningFault::Write),
    }
}

/// Writes the configuration that was made; or what is wrong, which is the fault then.
fn write_made<W: Write>(
    made: Result<Config, EveningFault>,
    output: &mut W,
) -> Result<(), EveningFault>
    ensures { WritesMade (stream W.contents output.old output.new) result made }
{
    match made {
        Ok(config) => write_drafted(&config, output),
        Err(fault) => stop(fault, output),
    }
}

/// Writes the configuration of an evening for the pairs of a list; or what is wrong, which is the fault then.
fn draft_list<S: Giver, W: Write>(
    rt: &S,
    words: &DraftWords<'_>,
    found: Result<Names, EveningFault>,
    output: &mut W,
) -> Result<(), EveningFault>
    ensures { DraftsList words.now (stream W.contents output.old output.new) result (list_seen found) }
{
    match found {
        Ok(names) => write_made(evening_for(rt, words, names.as_slice()), output),
        Err(fault) => stop(fault, output),
    }
}

/// Writes the configuration of an evening for the pairs of a list's text.
fn draft_text<S: Giver, W: Write>(
    rt: &S,
    words: &DraftWords<'_>,
    text: &[u8],
    output: &mut W,
) -> Result<(), EveningFault>
    ensures { Drafts words.now (stream W.contents output.old output.new) result (Some text.now) }
{
    draft_list(rt, words, read_list(text), output)
}

/// The same of the list that the reader gives.
fn draft_read<S: Giver, R: Read, W: Write>(
    rt: &S,
    words: &DraftWords<'_>,
    reader: &mut R,
    output: &mut W,
) -> Result<(), EveningFault>
    ensures { OfReader (Drafts words.now (stream W.contents output.old output.new) result) (stream R.remaining reader.old reader.new) }
{
    let mut text = Text::new();
    match read_text(reader, &mut text) {
        Ok(()) => draft_text(rt, words, text.as_slice(), output),
        Err(NoRead) => Err(EveningFault::Read),
    }
}

/// The same of a file, where one was found; otherwise the fault is that of a read. What was found is handed in, since only so a
/// clause can say what comes of it.
fn draft_found<S: Giver, R: Read + Drop, W: Write>(
    rt: &S,
    words: &DraftWords<'_>,
    found: io::Result<R>,
    output: &mut W,
) -> Result<(), EveningFault>
    ensures { OfFound R.remaining (Drafts words.now (stream W.contents output.old output.new) result) found }
{
    match found {
        Ok(mut file) => draft_read(rt, words, &mut file, output),
        Err(_) => Err(EveningFault::Read),
    }
}

/// Writes the configuration of an evening for the pairs of the list in a file; or what is wrong, which is the fault then: with the
/// list, with the seed or the clock, or with what is wished. A file that cannot be opened counts as one that cannot be read.
pub fn run_draft<S: Giver + Files<File = File>, W: Write>(
    rt: &S,
    names: &str,
    words: &DraftWords<'_>,
    output: &mut W,
) -> Result<(), EveningFault>
    ensures { OfFile (Drafts words.now (stream W.contents output.old output.new) result) }
{
    draft_found(rt, words, File::open(rt, names), output)
}
