//! The words of `which`.
ghost use Rattle.std.specs.Prelude.{◌≡◌, IfOk, MatchResult, None, Some, map};
ghost use Rattle.clap.specs.Words.{app_of};
ghost use Rattle.run_words.specs.Which.{which_app, which_given, which_of};
ghost use Rattle.run_words.specs.declared.fault.WordsFault.TheVariants.{Usage};

use crate::fault::WordsFault;
use crate::matched::match_words;
use crate::texts::texts;
use clap::Command;
use rtb_num::Txt;
use std::alloc::{AllocError, Global};

/// That the words are those of `which`, of which the first is the command's name.
pub(crate) fn which_words(alloc: Global, words: &[Txt]) -> Result<(), WordsFault>
    ensures { MatchResult result (λ _. which_given words.now ≡ Some tt) (λ e. e ≡ Usage → which_given words.now ≡ None) }
{
    let texts = texts(alloc, words)?;
    words_in(alloc, texts.as_slice())
}

fn words_in<'a>(alloc: Global, words: &'a [&'a str]) -> Result<(), WordsFault>
    ensures { MatchResult result (λ _. which_of (map (λ s. s.now) words.entry.now) ≡ Some tt) (λ e. e ≡ Usage → which_of (map (λ s. s.now) words.entry.now) ≡ None) }
{
    let command = which_command(alloc)?;
    match match_words(command, words) {
        Ok(matches) => {
            drop(matches);
            Ok(())
        }
        Err(fault) => Err(fault),
    }
}

/// The command, as `clap` reads it: it has no options.
pub(crate) fn which_command<'a>(alloc: Global) -> Result<Command<'a>, AllocError>
    ensures { IfOk result (λ c. app_of c ≡ which_app) }
{
    Ok(Command::new(alloc, "which"))
}
