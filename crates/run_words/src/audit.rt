//! The words of `audit`.
ghost use Rattle.std.specs.Prelude.{◌≡◌, IfOk, MatchResult, None, Some, map, option_and_then};
ghost use Rattle.clap.specs.Words.{app_of, found_of, rows_of};
ghost use Rattle.run_words.specs.Audit.{audit_app, audit_of, audit_options};
ghost use Rattle.run_words.specs.Commands.{given_by};
ghost use Rattle.run_words.specs.declared.fault.WordsFault.TheVariants.{Usage};

use crate::fault::WordsFault;
use crate::matched::{given_text, lacks_key, match_words, option_text};
use crate::options::{optional_text, text_option};
use crate::texts::texts;
use clap::{ArgMatches, Command};
use rtb_num::Txt;
use std::alloc::{AllocError, Global};

/// The options of `audit`.
#[derive(Drop)]
pub struct AuditOptions {
    /// The path of the journal.
    pub journal: Txt,
    /// The path of the file whose key signed addresses. Without it none was signed.
    pub key: Option<Txt>,
    /// The path of the file of the key that signed them before, which were taken still.
    pub former_key: Option<Txt>,
}

/// The options that the words give, of which the first is the command's name.
pub fn audit_options(alloc: Global, words: &[Txt]) -> Result<AuditOptions, WordsFault>
    ensures { MatchResult result (λ o. audit_options words.now ≡ Some o) (λ e. e ≡ Usage → audit_options words.now ≡ None) }
{
    let texts = texts(alloc, words)?;
    options_in(alloc, texts.as_slice())
}

fn options_in<'a>(alloc: Global, words: &'a [&'a str]) -> Result<AuditOptions, WordsFault>
    ensures { MatchResult result (λ o. option_and_then audit_of (given_by audit_app (map (λ s. s.now) words.entry.now)) ≡ Some o) (λ e. e ≡ Usage → option_and_then audit_of (given_by audit_app (map (λ s. s.now) words.entry.now)) ≡ None) }
{
    let command = audit_command(alloc)?;
    match match_words(command, words) {
        Ok(matches) => {
            let given = options(alloc, &matches);
            drop(matches);
            given
        }
        Err(fault) => Err(fault),
    }
}

fn options(alloc: Global, matches: &ArgMatches<'_>) -> Result<AuditOptions, WordsFault>
    ensures { MatchResult result (λ o. audit_of (rows_of (found_of matches.now)) ≡ Some o) (λ e. e ≡ Usage → audit_of (rows_of (found_of matches.now)) ≡ None) }
{
    if lacks_key(matches) {
        return Err(WordsFault::Usage);
    }
    let journal = option_text(alloc, matches, "journal")?;
    let key = given_text(alloc, matches, "key")?;
    let former_key = given_text(alloc, matches, "former-key")?;
    Ok(AuditOptions {
        journal,
        key,
        former_key,
    })
}

const JOURNAL_HELP: &str =
    "A copy of the exchange's journal from before the trace, as before.journal; it is only read";

const KEY_HELP: &str =
    "The file whose bytes, 32 to 64, a line end included, signed addresses; without it none was signed";

const FORMER_KEY_HELP: &str = "The file of the key before, whose addresses were taken still";

/// The command, as `clap` reads it.
pub(crate) fn audit_command<'a>(alloc: Global) -> Result<Command<'a>, AllocError>
    ensures { IfOk result (λ c. app_of c ≡ audit_app) }
{
    let journal = text_option(alloc, "journal", JOURNAL_HELP);
    let key = optional_text(alloc, "key", KEY_HELP);
    let former_key = optional_text(alloc, "former-key", FORMER_KEY_HELP);
    let options = vec![in alloc; journal, key, former_key]?;
    Command::new(alloc, "audit").args(options)
}
