//! The options of `serve`.
ghost use Rattle.std.specs.Prelude.{◌≡◌, IfOk, MatchResult, None, Some, codes, false, map, option_and_then};
ghost use Rattle.clap.specs.Words.{app_of, found_of, rows_of, rule_of};
ghost use Rattle.run_words.specs.Commands.{given_by, number_between, serve_app, serve_numbers, serve_of, serve_options, serve_texts};
ghost use Rattle.run_words.specs.declared.fault.WordsFault.TheVariants.{Usage};

use crate::address::{has_port_0, is_public};
use crate::fault::WordsFault;
use crate::matched::{flag, given_text, lacks_key, match_words, number, option_text};
use crate::options::{flag_option, number_option, optional_text, text_option};
use crate::texts::texts;
use clap::{Arg, ArgMatches, Command};
use rtb_num::Txt;
use std::alloc::{AllocError, Global};

/// The options of `serve`.
#[derive(Drop)]
pub struct ServeOptions {
    /// The address of the doors, as `127.0.0.1:8080`, with a port other than 0.
    pub listen: Txt,
    /// The path of the journal.
    pub journal: Txt,
    /// Whether the journal has to be there, with something in it.
    pub existing: bool,
    /// What stands before `/bill/N` and `/lose/N` in notices, as `http://ads.example`: it begins with `http://` or
    /// `https://`, and a host.
    pub public: Txt,
    /// The path of the file whose key signs addresses. Without it none is signed.
    pub key: Option<Txt>,
    /// The path of the file of the key that signed them before, which are taken still.
    pub former_key: Option<Txt>,
    /// How many workers serve, each with a door of its own: 1 to 64.
    pub workers: u64,
    /// How many milliseconds a sale is held: 1 to 31,536,000,000, a year.
    pub ttl: u64,
    /// How many sales its list is to have at most: 1 to 67,108,864. Above it nothing is sold before some are forgotten.
    pub sales: u64,
    /// How many milliseconds a link waits for its peer: 1 to 3,600,000, an hour.
    pub patience: u64,
}

/// The options that the words give, of which the first is the command's name.
pub fn serve_options(alloc: Global, words: &[Txt]) -> Result<ServeOptions, WordsFault>
    ensures { MatchResult result (λ o. serve_options words.now ≡ Some o) (λ e. e ≡ Usage → serve_options words.now ≡ None) }
{
    let texts = texts(alloc, words)?;
    options_in(alloc, texts.as_slice())
}

fn options_in<'a>(alloc: Global, words: &'a [&'a str]) -> Result<ServeOptions, WordsFault>
    ensures { MatchResult result (λ o. option_and_then serve_of (given_by serve_app (map (λ s. s.now) words.entry.now)) ≡ Some o) (λ e. e ≡ Usage → option_and_then serve_of (given_by serve_app (map (λ s. s.now) words.entry.now)) ≡ None) }
{
    let command = serve_command(alloc)?;
    match match_words(command, words) {
        Ok(matches) => {
            let given = options(alloc, &matches);
            drop(matches);
            given
        }
        Err(fault) => Err(fault),
    }
}

fn options(alloc: Global, matches: &ArgMatches<'_>) -> Result<ServeOptions, WordsFault>
    ensures { MatchResult result (λ o. serve_of (rows_of (found_of matches.now)) ≡ Some o) (λ e. e ≡ Usage → serve_of (rows_of (found_of matches.now)) ≡ None) }
{
    let listen = option_text(alloc, matches, "listen")?;
    if has_port_0(listen.as_bytes()) {
        return Err(WordsFault::Usage);
    }
    let journal = option_text(alloc, matches, "journal")?;
    let existing = flag(matches, "existing");
    let public = option_text(alloc, matches, "public")?;
    if !is_public(public.as_bytes()) {
        return Err(WordsFault::Usage);
    }
    if lacks_key(matches) {
        return Err(WordsFault::Usage);
    }
    let key = given_text(alloc, matches, "key")?;
    let former_key = given_text(alloc, matches, "former-key")?;
    match numbers(matches) {
        Some((workers, ttl, sales, patience)) => Ok(ServeOptions {
            listen,
            journal,
            existing,
            public,
            key,
            former_key,
            workers,
            ttl,
            sales,
            patience,
        }),
        None => Err(WordsFault::Usage),
    }
}

// How many workers, for how many milliseconds a sale is held, how many sales the list has at most, and for how many
// milliseconds a link waits for its peer.
fn numbers(matches: &ArgMatches<'_>) -> Option<(u64, u64, u64, u64)>
    ensures { result ≡ serve_numbers (rows_of (found_of matches.now)) }
{
    let workers = number(matches, "workers")?;
    let ttl = number(matches, "ttl")?;
    let sales = number(matches, "sales")?;
    let patience = number(matches, "patience")?;
    Some((workers, ttl, sales, patience))
}

const LISTEN_HELP: &str = "The host and the port to listen at, from 1 to 65535, as 127.0.0.1:8080";

const JOURNAL_HELP: &str =
    "The file that keeps the exchange, as exchange.journal; it is made where there is none";

const EXISTING_HELP: &str = "The journal has to be there, with something in it: none is made";

const PUBLIC_HELP: &str =
    "What stands before /bill/N and /lose/N in notices, from http:// or https:// on, as http://ads.example";

const KEY_HELP: &str =
    "The file whose bytes, 32 to 64, a line end included, sign addresses; without it none is signed";

const FORMER_KEY_HELP: &str = "The file of the key before, whose addresses are taken still";

/// More workers than processors gain nothing but links that wait for less.
const MAX_WORKERS: u64 = 64;

const WORKERS_HELP: &str = "How many workers serve, as 4, up to 64; each serves one link at a time";

/// A year, in milliseconds.
const MAX_TTL: u64 = 31_536_000_000;

const TTL_HELP: &str =
    "For how many milliseconds a sale waits for its notice, as 300000, up to a year";

/// As many as a list may have at all.
const MAX_SALES: u64 = 67_108_864;

const SALES_HELP: &str =
    "How many sales are kept in the list, as 4194304, up to 67108864; above it nothing is sold";

/// An hour, in milliseconds.
const MAX_PATIENCE: u64 = 3_600_000;

const PATIENCE_HELP: &str =
    "For how many milliseconds a link waits for its peer, as 60000, up to an hour";

/// The command, as `clap` reads it.
pub(crate) fn serve_command<'a>(alloc: Global) -> Result<Command<'a>, AllocError>
    ensures { IfOk result (λ c. app_of c ≡ serve_app) }
{
    let workers = workers_option(alloc);
    let ttl = ttl_option(alloc);
    let sales = sales_option(alloc);
    let patience = patience_option(alloc);
    let numbers = vec![in alloc; workers, ttl, sales, patience]?;
    texts_command(alloc)?.args(numbers)
}

// The command with those of its options that are no numbers.
fn texts_command<'a>(alloc: Global) -> Result<Command<'a>, AllocError>
    ensures { IfOk result (λ c. app_of c ≡ serve_texts) }
{
    let listen = text_option(alloc, "listen", LISTEN_HELP);
    let journal = text_option(alloc, "journal", JOURNAL_HELP);
    let existing = flag_option(alloc, "existing", EXISTING_HELP);
    let public = text_option(alloc, "public", PUBLIC_HELP);
    let key = optional_text(alloc, "key", KEY_HELP);
    let former_key = optional_text(alloc, "former-key", FORMER_KEY_HELP);
    let options = vec![in alloc; listen, journal, existing, public, key, former_key]?;
    Command::new(alloc, "serve").args(options)
}

// How many workers serve: four, where it is not given.
fn workers_option<'a>(alloc: Global) -> Arg<'a>
    ensures rule { rule_of result ≡ number_between 1 64 (codes "4") (codes "workers") }
    ensures local { result.global ≡ false }
{
    number_option(alloc, "workers", 1, MAX_WORKERS, "4", WORKERS_HELP)
}

// How long a sale is held: five minutes, where it is not given.
fn ttl_option<'a>(alloc: Global) -> Arg<'a>
    ensures rule { rule_of result ≡ number_between 1 31536000000 (codes "300000") (codes "ttl") }
    ensures local { result.global ≡ false }
{
    number_option(alloc, "ttl", 1, MAX_TTL, "300000", TTL_HELP)
}

// How many sales the list has at most: four million, where it is not given.
fn sales_option<'a>(alloc: Global) -> Arg<'a>
    ensures rule { rule_of result ≡ number_between 1 67108864 (codes "4194304") (codes "sales") }
    ensures local { result.global ≡ false }
{
    number_option(alloc, "sales", 1, MAX_SALES, "4194304", SALES_HELP)
}

// How long a link waits for its peer: a minute, where it is not given.
fn patience_option<'a>(alloc: Global) -> Arg<'a>
    ensures rule { rule_of result ≡ number_between 1 3600000 (codes "60000") (codes "patience") }
    ensures local { result.global ≡ false }
{
    number_option(alloc, "patience", 1, MAX_PATIENCE, "60000", PATIENCE_HELP)
}
