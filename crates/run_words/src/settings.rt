//! Settings, and the words that give none.

ghost use Rattle.std.specs.Prelude.{IfOk, MatchOption, MatchResult, map, option_map, string_bytes};
ghost use Rattle.run_words.specs.Words.{IsNumberText, IsNumberOf, IsMadeBy, IsNone, AsksFor, AreInRange, IsFirstFault, IsSettings, IsWordsStop};
ghost use Rattle.run_words.specs.Texts.{texts_of};

use crate::given::{GivenTexts, given, named};
use decimal_text::{numeral_law, read_number};
use std::alloc::{AllocError, Global};

/// A ring that is made, in place of a problem that is read.
#[derive(Clone, Copy, Debug, PartialEq, Eq)]
pub enum Made {
    /// The ring of 1 to 12 labels whose products are the sums modulo their number.
    Cyclic { labels: u32 },
    /// The ring of `2^dimension` labels, of dimension 0 to 3, whose products are the exclusive ors.
    Cube { dimension: u32 },
}

/// What the words of a run ask for.
#[derive(Clone, Copy, Debug, PartialEq, Eq)]
pub struct Settings {
    /// The number of workers, 1 to 64; 1 where no word gives it.
    pub workers: u32,
    /// How many moves a case may take, 0 to 1,000,000; 2,000 where no word gives it.
    pub budget: u32,
    /// Whether the summary is written in place of the certificate. Then there is one worker.
    pub summary: bool,
    /// The ring that is made. Where there is none, a problem is read.
    pub made: Option<Made>,
}

/// What is wrong with the words of a run: the first of these.
#[derive(Clone, Copy, Debug, PartialEq, Eq)]
pub enum UsageKind {
    /// The command does not take them.
    Words,
    /// The value of `--workers` is no number from 1 to 64 in decimal digits without leading zeros.
    Workers,
    /// The value of `--budget` is no number from 0 to 1,000,000 in decimal digits without leading zeros.
    Budget,
    /// There are both `--cyclic` and `--cube`, or the value of the one is no number from 1 to 12, or that of the other none from 0 to 3, in decimal digits
    /// without leading zeros.
    Make,
    /// There is `--summary`, and there is not one worker.
    Summary,
}

/// Why words give no settings.
#[derive(Clone, Copy, Debug, PartialEq, Eq)]
pub enum WordsStop {
    /// They are refused.
    Usage(UsageKind),
    /// Memory could not be had.
    OutOfMemory,
}

impl From<AllocError> for WordsStop {
    ghost use Rattle.std.specs.Prelude.{◌≡◌};
    ghost use Rattle.run_words.specs.declared.settings.WordsStop.TheVariants.{OutOfMemory};

    ghost from_gives = { λ _ e. e ≡ OutOfMemory };

    fn from(_: AllocError) -> WordsStop {
        WordsStop::OutOfMemory
    }
}

/// The settings that the words, without the program's name, ask for.
///
/// They are read by one command with the five long options `--workers`, `--budget`, `--cyclic` and `--cube`, which take one value each, and
/// `--summary`, which takes none. Each refusal comes exactly where its variant says.
pub fn settings_of(alloc: Global, words: &[String]) -> Result<Settings, WordsStop>
    ensures settings { MatchResult result (IsSettings (map string_bytes words.now)) (IsWordsStop (map string_bytes words.now)) }
    ensures range { IfOk result AreInRange }
{
    let words = named(alloc, words)?;
    let texts = given(alloc, &words)?;
    match asked_for(&texts) {
        Ok(settings) => Ok(settings),
        Err(kind) => Err(WordsStop::Usage(kind)),
    }
}

// The settings that these texts ask for.
fn asked_for(texts: &GivenTexts<'_>) -> Result<Settings, UsageKind>
    ensures { MatchResult result (AsksFor (texts_of texts.now)) (IsFirstFault (texts_of texts.now)) }
{
    let Some(workers) = number_of(texts.workers, 1, 64, 1) else {
        return Err(UsageKind::Workers);
    };
    let Some(budget) = number_of(texts.budget, 0, 1_000_000, 2_000) else {
        return Err(UsageKind::Budget);
    };
    let Some(made) = made_of(texts.cyclic, texts.cube) else {
        return Err(UsageKind::Make);
    };
    if texts.summary && workers != 1 {
        return Err(UsageKind::Summary);
    }
    Ok(Settings {
        workers,
        budget,
        summary: texts.summary,
        made,
    })
}

// The number that an option with this value gives, from `least` to `most`, and the default where it has none.
fn number_of(text: Option<&str>, least: u32, most: u32, default: u32) -> Option<u32>
    ensures { MatchOption result (IsNone (IsNumberOf least most default (option_map (λ s. s.now) text.entry))) (IsNumberOf least most default (option_map (λ s. s.now) text.entry)) }
{
    match text {
        Some(text) => number_in(text, least, most),
        None => Some(default),
    }
}

// The number from `least` to `most` whose text this is.
fn number_in(text: &str, least: u32, most: u32) -> Option<u32>
    ensures { MatchOption result (IsNone (IsNumberText least most text.now)) (IsNumberText least most text.now) }
{
    numeral_law();
    match read_number(text.as_bytes(), most as u64) {
        Ok(number) if number >= least as u64 => Some(number as u32),
        _ => None,
    }
}

// The ring that the values of both options make, if at most one is given, and that is right.
fn made_of(cyclic: Option<&str>, cube: Option<&str>) -> Option<Option<Made>>
    ensures { MatchOption result (IsNone (IsMadeBy (option_map (λ s. s.now) cyclic.entry) (option_map (λ s. s.now) cube.entry))) (IsMadeBy (option_map (λ s. s.now) cyclic.entry) (option_map (λ s. s.now) cube.entry)) }
{
    match (cyclic, cube) {
        (None, None) => Some(None),
        (Some(text), None) => {
            let labels = number_in(text, 1, 12)?;
            Some(Some(Made::Cyclic { labels }))
        }
        (None, Some(text)) => {
            let dimension = number_in(text, 0, 3)?;
            Some(Some(Made::Cube { dimension }))
        }
        (Some(_), Some(_)) => None,
    }
}
