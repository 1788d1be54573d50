//! What the words of the command line say.
ghost use Rattle.std.specs.Prelude.{◌≡◌, IfOk, IsErrOf, None, Some, codes, drop, map, option_map, string_bytes};
ghost use Rattle.clap.specs.Words.{app_of, found_of};
ghost use Rattle.nfg_syn.specs.Known.{IsRowSize};
ghost use Rattle.nfg_run.specs.ClapCommand.{given_command};
ghost use Rattle.nfg_run.specs.CommandLine.{Workers, Table, IsWorkerCount, workers_of, places_of, said_by};
ghost use Rattle.nfg_run.specs.WordTexts.{given_number, said_in, texts_in, values_in};
ghost use Rattle.nfg_run.specs.declared.said.Unread.TheVariants.{OutOfMemory as NoMemory};

use crate::Words;
use crate::evaluated::Means;
use crate::number::{table_size, worker_count};
use clap::error::ErrorKind;
use clap::{Arg, ArgAction, ArgMatches, Command};
use std::alloc::{AllocError, Global};

/// The workers, where the words give no number.
const DEFAULT_WORKERS: u32 = 4;

/// The places of the table, where the words give none.
const DEFAULT_PLACES: u32 = 1 << 18;

/// Why words aren't read.
#[derive(Clone, Copy, Debug, PartialEq, Eq)]
pub(crate) enum Unread {
    Unlawful,
    OutOfMemory,
}

impl From<AllocError> for Unread {
    ghost from_gives = { λ _ e. e ≡ NoMemory };

    fn from(_: AllocError) -> Unread {
        Unread::OutOfMemory
    }
}

/// What the words after the first say.
#[derive(Drop)]
pub(crate) struct Said {
    pub workers: Option<u32>,
    pub places: Option<u32>,
    pub plain: Words,
}

impl Said {
    /// By how many workers, over a table of how many places a script is evaluated.
    pub fn means(&self) -> Means
        ensures workers { result.workers ≡ workers_of self.now }
        ensures places { result.places ≡ places_of self.now }
    {
        Means {
            workers: self.workers.unwrap_or(DEFAULT_WORKERS),
            places: self.places.unwrap_or(DEFAULT_PLACES),
        }
    }
}

/// What the words after the first say.
pub(crate) fn read_words(alloc: Global, words: &Words) -> Result<Said, Unread>
    ensures ok { IfOk result (λ said. said_by (drop 1 words.now) ≡ Some said) }
    ensures unlawful { IsErrOf result Unread.Unlawful → said_by (drop 1 words.now) ≡ None }
    ensures workers { IfOk result (λ said. IsWorkerCount (workers_of said)) }
    ensures size { IfOk result (λ said. IsRowSize (places_of said)) }
{
    let matches = parse_words(alloc, words.as_slice())?;
    read_matches(alloc, &matches)
}

/// The options and the plain words, as texts. The first word isn't looked at.
fn parse_words<'a>(alloc: Global, words: &'a [String]) -> Result<ArgMatches<'a>, Unread>
    ensures ok { IfOk result (λ matches. said_by (drop 1 (map string_bytes words.entry.now))
        ≡ said_in (texts_in (found_of matches))) }
    ensures unlawful { IsErrOf result Unread.Unlawful
        → said_by (drop 1 (map string_bytes words.entry.now)) ≡ None }
{
    let command = command(alloc)?;
    match command.try_get_matches_from(words) {
        Ok(matches) => Ok(matches),
        Err(error) => match error.kind() {
            ErrorKind::OutOfMemory => Err(Unread::OutOfMemory),
            _ => Err(Unread::Unlawful),
        },
    }
}

/// The two options, and plain words. Help isn't an option.
fn command<'a>(alloc: Global) -> Result<Command<'a>, AllocError>
    ensures { IfOk result (λ command. app_of command ≡ given_command) }
{
    let workers = Arg::new(alloc, "workers")
        .long("workers")
        .action(ArgAction::Set);
    let table = Arg::new(alloc, "table")
        .long("table")
        .action(ArgAction::Set);
    let plain = Arg::new(alloc, "plain").action(ArgAction::Append);
    let bare = Command::new(alloc, "nfg").disable_help_flag(true);
    bare.arg(workers)?.arg(table)?.arg(plain)
}

/// What the matches say.
fn read_matches(alloc: Global, matches: &ArgMatches<'_>) -> Result<Said, Unread>
    ensures ok { IfOk result (λ said. said_in (texts_in (found_of matches.now)) ≡ Some said) }
    ensures unlawful { IsErrOf result Unread.Unlawful → said_in (texts_in (found_of matches.now)) ≡ None }
    ensures workers { IfOk result (λ said. IsWorkerCount (workers_of said)) }
    ensures size { IfOk result (λ said. IsRowSize (places_of said)) }
{
    let Some(workers) = given_workers(matches.get_str("workers")) else {
        return Err(Unread::Unlawful);
    };
    let Some(places) = given_places(matches.get_str("table")) else {
        return Err(Unread::Unlawful);
    };
    let plain = plain_words(alloc, matches)?;
    Ok(Said {
        workers,
        places,
        plain,
    })
}

/// The number of workers, where its text is lawful or not given.
fn given_workers(text: Option<&str>) -> Option<Option<u32>>
    ensures { result ≡ given_number Workers (option_map (λ t. t.now) text.entry) }
{
    match text {
        None => Some(None),
        Some(text) => match worker_count(text) {
            Some(number) => Some(Some(number)),
            None => None,
        },
    }
}

/// The places of the table, where their text is lawful or not given.
fn given_places(text: Option<&str>) -> Option<Option<u32>>
    ensures { result ≡ given_number Table (option_map (λ t. t.now) text.entry) }
{
    match text {
        None => Some(None),
        Some(text) => match table_size(text) {
            Some(number) => Some(Some(number)),
            None => None,
        },
    }
}

/// The plain words, in order.
fn plain_words(alloc: Global, matches: &ArgMatches<'_>) -> Result<Words, AllocError>
    ensures { IfOk result (λ words. words ≡ values_in (found_of matches.now) (codes "plain")) }
{
    match matches.get_raw("plain") {
        None => Ok(Words::new(alloc)),
        Some(texts) => words_of(alloc, texts),
    }
}

fn words_of(alloc: Global, texts: &[&str]) -> Result<Words, AllocError>
    ensures { IfOk result (λ words. words ≡ map (λ t. t.now) texts.now) }
{
    let mut words = Words::new(alloc);
    for text in texts {
        words.push(text)?;
    }
    Ok(words)
}
