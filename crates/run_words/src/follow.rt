//! The options of `follow`.
ghost use Rattle.std.specs.Prelude.{◌≡◌, IfOk, MatchResult, None, Some, map, option_and_then};
ghost use Rattle.clap.specs.Words.{app_of, found_of, rows_of};
ghost use Rattle.run_words.specs.Commands.{given_by};
ghost use Rattle.run_words.specs.Follow.{follow_app, follow_of, follow_options};
ghost use Rattle.run_words.specs.declared.fault.WordsFault.TheVariants.{Usage};

use crate::address::has_port_0;
use crate::fault::WordsFault;
use crate::matched::{match_words, option_text};
use crate::options::text_option;
use crate::texts::texts;
use clap::{ArgMatches, Command};
use rtb_num::Txt;
use std::alloc::{AllocError, Global};

/// The options of `follow`.
#[derive(Drop)]
pub struct FollowOptions {
    /// The address of the door, as `127.0.0.1:8081`, with a port other than 0.
    pub listen: Txt,
    /// The path of the journal.
    pub journal: Txt,
}

/// The options that the words give, of which the first is the command's name.
pub fn follow_options(alloc: Global, words: &[Txt]) -> Result<FollowOptions, WordsFault>
    ensures { MatchResult result (λ o. follow_options words.now ≡ Some o) (λ e. e ≡ Usage → follow_options words.now ≡ None) }
{
    let texts = texts(alloc, words)?;
    options_in(alloc, texts.as_slice())
}

fn options_in<'a>(alloc: Global, words: &'a [&'a str]) -> Result<FollowOptions, WordsFault>
    ensures { MatchResult result (λ o. option_and_then follow_of (given_by follow_app (map (λ s. s.now) words.entry.now)) ≡ Some o) (λ e. e ≡ Usage → option_and_then follow_of (given_by follow_app (map (λ s. s.now) words.entry.now)) ≡ None) }
{
    let command = follow_command(alloc)?;
    match match_words(command, words) {
        Ok(matches) => {
            let given = options(alloc, &matches);
            drop(matches);
            given
        }
        Err(fault) => Err(fault),
    }
}

fn options(alloc: Global, matches: &ArgMatches<'_>) -> Result<FollowOptions, WordsFault>
    ensures { MatchResult result (λ o. follow_of (rows_of (found_of matches.now)) ≡ Some o) (λ e. e ≡ Usage → follow_of (rows_of (found_of matches.now)) ≡ None) }
{
    let listen = option_text(alloc, matches, "listen")?;
    if has_port_0(listen.as_bytes()) {
        return Err(WordsFault::Usage);
    }
    let journal = option_text(alloc, matches, "journal")?;
    Ok(FollowOptions { listen, journal })
}

const LISTEN_HELP: &str = "The host and the port to listen at, from 1 to 65535, as 127.0.0.1:8081";

const JOURNAL_HELP: &str = "The file that keeps the exchange, as exchange.journal; it is only read";

/// The command, as `clap` reads it.
pub(crate) fn follow_command<'a>(alloc: Global) -> Result<Command<'a>, AllocError>
    ensures { IfOk result (λ c. app_of c ≡ follow_app) }
{
    let listen = text_option(alloc, "listen", LISTEN_HELP);
    let journal = text_option(alloc, "journal", JOURNAL_HELP);
    let options = vec![in alloc; listen, journal]?;
    Command::new(alloc, "follow").args(options)
}
