//! What the words give the options of the command.

ghost use Rattle.std.specs.Prelude.{◌≡◌, [], false, map, option_map, string_bytes, IfOk, MatchResult};
ghost use Rattle.clap.specs.Words.{app_of, fault_of, found_of, matches_of, rows_of, rule_of};
ghost use Rattle.run_words.specs.Words.{valued, command, named, is_given, given_in};
ghost use Rattle.run_words.specs.Texts.{texts_of, IsParseStop};

use crate::settings::{UsageKind, WordsStop};
use clap::error::ErrorKind;
use clap::{Arg, ArgAction, ArgMatches, Command};
use std::alloc::{AllocError, Global};

/// The texts of the options' values, and whether there is the flag.
#[derive(Clone, Copy)]
pub(crate) struct GivenTexts<'a> {
    pub(crate) workers: Option<&'a str>,
    pub(crate) budget: Option<&'a str>,
    pub(crate) summary: bool,
    pub(crate) cyclic: Option<&'a str>,
    pub(crate) cube: Option<&'a str>,
}

/// The program's name, and the words.
pub(crate) fn named<'a>(alloc: Global, words: &'a [String]) -> Result<Vec<&'a str>, AllocError>
    ensures { IfOk result (λ v. map (λ s. s.now) v.items ≡ named (map string_bytes words.now)) }
{
    let mut named = Vec::new(alloc);
    named.push("braidsolve")?;
    'words: for word in words {
        named.push(word.as_str())?;
    }
    Ok(named)
}

// An option with one text as its value.
fn valued<'a>(alloc: Global, name: &'a str) -> Arg<'a>
    ensures rule { rule_of result ≡ valued name.entry.now }
    ensures local { result.global ≡ false }
{
    Arg::new(alloc, name).long(name).action(ArgAction::Set)
}

// The command of a run.
fn command<'a>(alloc: Global) -> Result<Command<'a>, AllocError>
    ensures { IfOk result (λ c. app_of c ≡ command) }
{
    let summary = Arg::new(alloc, "summary")
        .long("summary")
        .action(ArgAction::SetTrue);
    Command::new(alloc, "braidsolve")
        .arg(valued(alloc, "workers"))?
        .arg(valued(alloc, "budget"))?
        .arg(summary)?
        .arg(valued(alloc, "cyclic"))?
        .arg(valued(alloc, "cube"))
}

// Whether a flag is given that has this value.
fn is_given(text: Option<&str>) -> bool
    ensures { result ≡ is_given (option_map (λ s. s.now) text.entry) }
{
    match text {
        Some(text) => text == "true",
        None => false,
    }
}

// The texts of the matches.
fn texts_in<'a>(matches: &ArgMatches<'a>) -> GivenTexts<'a>
    ensures { texts_of result ≡ given_in (rows_of (found_of matches.now)) }
{
    GivenTexts {
        workers: matches.get_str("workers"),
        budget: matches.get_str("budget"),
        summary: is_given(matches.get_str("summary")),
        cyclic: matches.get_str("cyclic"),
        cube: matches.get_str("cube"),
    }
}

// What the command makes of the words, of which the first is the program's name.
fn matches_of<'a>(alloc: Global, words: &'a [&'a str]) -> Result<ArgMatches<'a>, WordsStop>
    ensures { MatchResult result (λ m. (fault_of command (map (λ s. s.now) words.now) ≡ []) × (rows_of (found_of m) ≡ matches_of command (map (λ s. s.now) words.now))) (IsParseStop (map (λ s. s.now) words.now)) }
{
    match command(alloc)?.try_get_matches_from(words) {
        Ok(matches) => Ok(matches),
        Err(e) => {
            if e.kind() == ErrorKind::OutOfMemory {
                return Err(WordsStop::OutOfMemory);
            }
            Err(WordsStop::Usage(UsageKind::Words))
        }
    }
}

/// What the words give, of which the first is the program's name.
pub(crate) fn given<'a>(alloc: Global, words: &'a [&'a str]) -> Result<GivenTexts<'a>, WordsStop>
    ensures { MatchResult result (λ g. (fault_of command (map (λ s. s.now) words.now) ≡ []) × (texts_of g ≡ given_in (matches_of command (map (λ s. s.now) words.now)))) (IsParseStop (map (λ s. s.now) words.now)) }
{
    match matches_of(alloc, words) {
        Ok(matches) => Ok(texts_in(&matches)),
        Err(stop) => Err(stop),
    }
}
