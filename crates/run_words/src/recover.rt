//! The options of `recover`.
ghost use Rattle.std.specs.Prelude.{◌≡◌, ◌≢◌, IfOk, MatchResult, None, Some, map, option_map};
ghost use Rattle.clap.specs.Words.{app_of, found_of, rows_of};
ghost use Rattle.run_words.specs.Commands.{given_by, recover_app, recover_of, recover_options};
ghost use Rattle.run_words.specs.declared.fault.WordsFault.TheVariants.{Usage};

use crate::fault::WordsFault;
use crate::matched::{match_words, option_text};
use crate::options::text_option;
use crate::texts::texts;
use clap::{ArgMatches, Command};
use rtb_num::Txt;
use std::alloc::{AllocError, Global};

/// The options of `recover`.
#[derive(Drop)]
pub struct RecoverOptions {
    /// The path of the journal.
    pub journal: Txt,
}

/// The options that the words give, of which the first is the command's name.
pub fn recover_options(alloc: Global, words: &[Txt]) -> Result<RecoverOptions, WordsFault>
    ensures { MatchResult result (λ o. recover_options words.now ≡ Some o) (λ e. e ≡ Usage → recover_options words.now ≡ None) }
{
    let texts = texts(alloc, words)?;
    options_in(alloc, texts.as_slice())
}

fn options_in<'a>(alloc: Global, words: &'a [&'a str]) -> Result<RecoverOptions, WordsFault>
    ensures { MatchResult result (λ o. option_map recover_of (given_by recover_app (map (λ s. s.now) words.entry.now)) ≡ Some o) (λ e. e ≡ Usage → option_map recover_of (given_by recover_app (map (λ s. s.now) words.entry.now)) ≡ None) }
{
    let command = recover_command(alloc)?;
    match match_words(command, words) {
        Ok(matches) => {
            let given = options(alloc, &matches);
            drop(matches);
            given
        }
        Err(fault) => Err(fault),
    }
}

fn options(alloc: Global, matches: &ArgMatches<'_>) -> Result<RecoverOptions, WordsFault>
    ensures { MatchResult result (λ o. o ≡ recover_of (rows_of (found_of matches.now))) (λ e. e ≢ Usage) }
{
    let journal = option_text(alloc, matches, "journal")?;
    Ok(RecoverOptions { journal })
}

const JOURNAL_HELP: &str = "The file that keeps the exchange, as exchange.journal";

/// The command, as `clap` reads it.
pub(crate) fn recover_command<'a>(alloc: Global) -> Result<Command<'a>, AllocError>
    ensures { IfOk result (λ c. app_of c ≡ recover_app) }
{
    let journal = text_option(alloc, "journal", JOURNAL_HELP);
    Command::new(alloc, "recover").arg(journal)
}
