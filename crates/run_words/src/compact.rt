//! The options of `compact`.
ghost use Rattle.std.specs.Prelude.{◌≡◌, IfOk, MatchResult, None, Some, codes, false, map, option_and_then};
ghost use Rattle.clap.specs.Words.{app_of, found_of, rows_of, rule_of};
ghost use Rattle.run_words.specs.Commands.{given_by, number_between};
ghost use Rattle.run_words.specs.Compact.{compact_app, compact_of, compact_options};
ghost use Rattle.run_words.specs.declared.fault.WordsFault.TheVariants.{Usage};

use crate::fault::WordsFault;
use crate::matched::{flag, match_words, number, option_text};
use crate::options::{flag_option, number_option, text_option};
use crate::texts::texts;
use clap::{Arg, ArgMatches, Command};
use rtb_num::Txt;
use std::alloc::{AllocError, Global};

/// The options of `compact`.
#[derive(Drop)]
pub struct CompactOptions {
    /// The path of the journal that is read.
    pub journal: Txt,
    /// The path of the journal that is written, another than that.
    pub into: Txt,
    /// How many sales stay in the list at least: 0 to 67,108,864.
    pub keep: u64,
    /// Whether the journal may be written by another program meanwhile.
    pub beside: bool,
}

/// The options that the words give, of which the first is the command's name.
pub fn compact_options(alloc: Global, words: &[Txt]) -> Result<CompactOptions, WordsFault>
    ensures { MatchResult result (λ o. compact_options words.now ≡ Some o) (λ e. e ≡ Usage → compact_options words.now ≡ None) }
{
    let texts = texts(alloc, words)?;
    options_in(alloc, texts.as_slice())
}

fn options_in<'a>(alloc: Global, words: &'a [&'a str]) -> Result<CompactOptions, WordsFault>
    ensures { MatchResult result (λ o. option_and_then compact_of (given_by compact_app (map (λ s. s.now) words.entry.now)) ≡ Some o) (λ e. e ≡ Usage → option_and_then compact_of (given_by compact_app (map (λ s. s.now) words.entry.now)) ≡ None) }
{
    let command = compact_command(alloc)?;
    match match_words(command, words) {
        Ok(matches) => {
            let given = options(alloc, &matches);
            drop(matches);
            given
        }
        Err(fault) => Err(fault),
    }
}

fn options(alloc: Global, matches: &ArgMatches<'_>) -> Result<CompactOptions, WordsFault>
    ensures { MatchResult result (λ o. compact_of (rows_of (found_of matches.now)) ≡ Some o) (λ e. e ≡ Usage → compact_of (rows_of (found_of matches.now)) ≡ None) }
{
    let journal = option_text(alloc, matches, "journal")?;
    let into = option_text(alloc, matches, "into")?;
    if journal.as_bytes() == into.as_bytes() {
        return Err(WordsFault::Usage);
    }
    let beside = flag(matches, "beside");
    match number(matches, "keep") {
        Some(keep) => Ok(CompactOptions {
            journal,
            into,
            keep,
            beside,
        }),
        None => Err(WordsFault::Usage),
    }
}

const JOURNAL_HELP: &str = "The file that keeps the exchange, as exchange.journal; it is only read";

const INTO_HELP: &str =
    "The file to write, as compacted.journal: a new one, or one that a compaction left unfinished";

/// As many as a list may have at all.
const MAX_KEEP: u64 = 67_108_864;

const KEEP_HELP: &str = "How many of the latest sales stay in any case, as 1000000, up to 67108864";

const BESIDE_HELP: &str =
    "The journal may be served meanwhile: what it gains is written behind, until its server ends";

/// The command, as `clap` reads it.
pub(crate) fn compact_command<'a>(alloc: Global) -> Result<Command<'a>, AllocError>
    ensures { IfOk result (λ c. app_of c ≡ compact_app) }
{
    let journal = text_option(alloc, "journal", JOURNAL_HELP);
    let into = text_option(alloc, "into", INTO_HELP);
    let keep = keep_option(alloc);
    let beside = flag_option(alloc, "beside", BESIDE_HELP);
    let options = vec![in alloc; journal, into, keep, beside]?;
    Command::new(alloc, "compact").args(options)
}

// How many sales stay: a million, where it is not given.
fn keep_option<'a>(alloc: Global) -> Arg<'a>
    ensures rule { rule_of result ≡ number_between 0 67108864 (codes "1000000") (codes "keep") }
    ensures local { result.global ≡ false }
{
    number_option(alloc, "keep", 0, MAX_KEEP, "1000000", KEEP_HELP)
}
