//! The words as `clap` matches them with a command's options.
ghost use Rattle.std.specs.Prelude.{◌≡◌, ◌&&◌, IfOk, MatchResult, None, Some, codes, is_some, map, not, true};
ghost use Rattle.std.specs.Str.{bytes_eq};
ghost use Rattle.clap.specs.Words.{app_of, first_of, found_of, is_simple_and_free, kind_of, rows_of};
ghost use Rattle.clap.specs.declared.error.kind.ErrorKind.TheVariants as kind;
ghost use Rattle.run_words.specs.Commands.{flag_of, given_by, lacks_key, number_in, text_of};
ghost use Rattle.run_words.specs.declared.fault.WordsFault.TheVariants.{Usage};

use crate::fault::WordsFault;
use clap::error::ErrorKind;
use clap::{ArgMatches, Command, Error};
use rtb_num::Txt;
use std::alloc::{AllocError, Global};

/// What the words give to the command.
pub(crate) fn match_words<'a>(
    command: Command<'a>,
    words: &'a [&'a str],
) -> Result<ArgMatches<'a>, WordsFault>
    requires simple { is_simple_and_free (app_of command) ≡ true }
    ensures { MatchResult result (λ m. given_by (app_of command.entry) (map (λ s. s.now) words.entry.now) ≡ Some (rows_of (found_of m))) (λ e. e ≡ Usage → given_by (app_of command.entry) (map (λ s. s.now) words.entry.now) ≡ None) }
{
    match command.try_get_matches_from(words) {
        Ok(matches) => Ok(matches),
        Err(error) => Err(fault(&error)),
    }
}

fn fault(error: &Error) -> WordsFault
    ensures { result ≡ Usage → kind_of error.now ≡ kind.OutOfMemory → ⊥ }
{
    match error.kind() {
        ErrorKind::OutOfMemory => WordsFault::Memory,
        _ => WordsFault::Usage,
    }
}

/// The text of the option.
pub(crate) fn option_text(
    alloc: Global,
    matches: &ArgMatches<'_>,
    name: &str,
) -> Result<Txt, AllocError>
    ensures { IfOk result (λ t. t ≡ text_of name.now (rows_of (found_of matches.now))) }
{
    let mut text = Txt::new(alloc);
    if let Some(value) = matches.get_str(name) {
        text.extend(value.as_bytes())?;
    }
    Ok(text)
}

/// The text of an option that may be given.
pub(crate) fn given_text(
    alloc: Global,
    matches: &ArgMatches<'_>,
    name: &str,
) -> Result<Option<Txt>, AllocError>
    ensures { IfOk result (λ t. t ≡ first_of name.now (rows_of (found_of matches.now))) }
{
    match matches.get_str(name) {
        Some(value) => some_text(alloc, value),
        None => Ok(None),
    }
}

fn some_text(alloc: Global, value: &str) -> Result<Option<Txt>, AllocError>
    ensures { IfOk result (λ t. t ≡ Some value.now) }
{
    let text = Txt::from_slice(alloc, value.as_bytes())?;
    Ok(Some(text))
}

/// Whether a former key is given, and no key beside it.
pub(crate) fn lacks_key(matches: &ArgMatches<'_>) -> bool
    ensures { result ≡ lacks_key (rows_of (found_of matches.now)) }
{
    let key = is_given(matches, "key");
    let former = is_given(matches, "former-key");
    is_alone(former, key)
}

// Whether the first is there, and the second is not.
fn is_alone(first: bool, second: bool) -> bool
    ensures { result ≡ first && not second }
{
    first && !second
}

fn is_given(matches: &ArgMatches<'_>, name: &str) -> bool
    ensures { result ≡ is_some (first_of name.now (rows_of (found_of matches.now))) }
{
    match matches.get_str(name) {
        Some(_) => true,
        None => false,
    }
}

/// Whether the option without a value is given.
pub(crate) fn flag(matches: &ArgMatches<'_>, name: &str) -> bool
    ensures { result ≡ flag_of name.now (rows_of (found_of matches.now)) }
{
    match matches.get_str(name) {
        Some(text) => is_true(text.as_bytes()),
        None => false,
    }
}

fn is_true(text: &[u8]) -> bool
    ensures { result ≡ bytes_eq text.now (codes "true") }
{
    text == b"true".as_slice()
}

/// The number of the option, or none where its text tells none.
pub(crate) fn number(matches: &ArgMatches<'_>, name: &str) -> Option<u64>
    ensures { result ≡ number_in (text_of name.now (rows_of (found_of matches.now))) }
{
    match matches.get_str(name) {
        Some(text) => parse_number(text),
        None => None,
    }
}

#[tactic(auto, using(crate::proofs::Numbers::is_number, crate::proofs::Numbers::is_no_number))]
fn parse_number(text: &str) -> Option<u64>
    ensures { result ≡ number_in text.now }
{
    match text.parse::<u64>() {
        Ok(n) => Some(n),
        Err(_) => None,
    }
}
