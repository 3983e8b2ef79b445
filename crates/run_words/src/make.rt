//! The words of `make`.
ghost use Rattle.std.specs.Prelude.{◌≡◌, ◌-◌, ◌^◌, IfOk, MatchResult, None, Some, codes, false, map, option_and_then};
ghost use Rattle.clap.specs.Words.{app_of, first_of, found_of, rows_of, rule_of};
ghost use Rattle.run_words.specs.Commands.{given_by};
ghost use Rattle.run_words.specs.Make.{make_app, make_of, make_options, number_up_to, wants_trace};
ghost use Rattle.run_words.specs.declared.fault.WordsFault.TheVariants.{Usage};

use crate::fault::WordsFault;
use crate::matched::{match_words, number};
use crate::texts::texts;
use clap::builder::ValueParser;
use clap::{Arg, ArgMatches, Command};
use rtb_num::Txt;
use std::alloc::{AllocError, Global};

/// What `make` is to make.
#[derive(Clone, Copy)]
pub struct MakeOptions {
    /// The number that all bodies are drawn from.
    pub start: u64,
    /// How many requests there are behind the campaigns: 0 to 100,000.
    pub requests: u64,
    /// Whether the trace is written in place of the counts.
    pub trace: bool,
}

/// The options that the words give, of which the first is the command's name.
pub fn make_options(alloc: Global, words: &[Txt]) -> Result<MakeOptions, WordsFault>
    ensures { MatchResult result (λ o. make_options words.now ≡ Some o) (λ e. e ≡ Usage → make_options words.now ≡ None) }
{
    let texts = texts(alloc, words)?;
    options_in(alloc, texts.as_slice())
}

fn options_in<'a>(alloc: Global, words: &'a [&'a str]) -> Result<MakeOptions, WordsFault>
    ensures { MatchResult result (λ o. option_and_then make_of (given_by make_app (map (λ s. s.now) words.entry.now)) ≡ Some o) (λ e. e ≡ Usage → option_and_then make_of (given_by make_app (map (λ s. s.now) words.entry.now)) ≡ None) }
{
    let command = make_command(alloc)?;
    match match_words(command, words) {
        Ok(matches) => {
            let given = options(&matches);
            drop(matches);
            given
        }
        Err(fault) => Err(fault),
    }
}

fn options(matches: &ArgMatches<'_>) -> Result<MakeOptions, WordsFault>
    ensures { MatchResult result (λ o. make_of (rows_of (found_of matches.now)) ≡ Some o) (λ e. e ≡ Usage → make_of (rows_of (found_of matches.now)) ≡ None) }
{
    let Some(trace) = wants_trace(matches) else {
        return Err(WordsFault::Usage);
    };
    let Some(start) = number(matches, "START") else {
        return Err(WordsFault::Usage);
    };
    match number(matches, "N") {
        Some(requests) => Ok(MakeOptions {
            start,
            requests,
            trace,
        }),
        None => Err(WordsFault::Usage),
    }
}

// Whether the trace is wanted, where the third word is none other.
fn wants_trace(matches: &ArgMatches<'_>) -> Option<bool>
    ensures { result ≡ wants_trace (first_of (codes "trace") (rows_of (found_of matches.now))) }
{
    match matches.get_str("trace") {
        None => Some(false),
        Some(word) => asks_trace(word.as_bytes()),
    }
}

fn asks_trace(word: &[u8]) -> Option<bool>
    ensures { result ≡ wants_trace (Some word.now) }
{
    if word == b"trace".as_slice() {
        return Some(true);
    }
    None
}

const START_HELP: &str = "The number that all bodies are drawn from, as 7";

const REQUESTS_HELP: &str = "How many requests there are, as 2000, up to 100000";

const TRACE_HELP: &str = "The word trace, for the trace of the run in place of its counts";

const MOST_REQUESTS: u64 = 100_000;

/// The command, as `clap` reads it.
pub(crate) fn make_command<'a>(alloc: Global) -> Result<Command<'a>, AllocError>
    ensures { IfOk result (λ c. app_of c ≡ make_app) }
{
    let start = number_word(alloc, "START", u64::MAX, START_HELP);
    let requests = number_word(alloc, "N", MOST_REQUESTS, REQUESTS_HELP);
    let trace = Arg::new(alloc, "trace").help(TRACE_HELP);
    let words = vec![in alloc; start, requests, trace]?;
    Command::new(alloc, "make").args(words)
}

// A number at its place, up to the most.
fn number_word<'a>(alloc: Global, name: &'a str, most: u64, help: &'a str) -> Arg<'a>
    ensures rule { rule_of result ≡ number_up_to most name.entry.now }
    ensures local { result.global ≡ false }
{
    Arg::new(alloc, name)
        .required(true)
        .value_parser(ValueParser::unsigned(0, most))
        .help(help)
}
