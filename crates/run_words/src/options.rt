//! Options as `clap` takes them: texts and numbers.
ghost use Rattle.std.specs.Prelude.{◌≡◌, false};
ghost use Rattle.clap.specs.Words.{rule_of};
ghost use Rattle.run_words.specs.Commands.{flag_rule, number_between, optional, required};

use clap::builder::ValueParser;
use clap::{Arg, ArgAction};
use std::alloc::Global;

/// An option that has to be given.
pub(crate) fn text_option<'a>(alloc: Global, name: &'a str, help: &'a str) -> Arg<'a>
    ensures rule { rule_of result ≡ required name.entry.now }
    ensures local { result.global ≡ false }
{
    Arg::new(alloc, name).long(name).required(true).help(help)
}

/// An option that may be given.
pub(crate) fn optional_text<'a>(alloc: Global, name: &'a str, help: &'a str) -> Arg<'a>
    ensures rule { rule_of result ≡ optional name.entry.now }
    ensures local { result.global ≡ false }
{
    Arg::new(alloc, name).long(name).help(help)
}

/// An option without a value, which is given or not.
pub(crate) fn flag_option<'a>(alloc: Global, name: &'a str, help: &'a str) -> Arg<'a>
    ensures rule { rule_of result ≡ flag_rule name.entry.now }
    ensures local { result.global ≡ false }
{
    Arg::new(alloc, name)
        .long(name)
        .action(ArgAction::SetTrue)
        .help(help)
}

/// An option that is a number from the least to the most.
pub(crate) fn number_option<'a>(
    alloc: Global,
    name: &'a str,
    least: u64,
    most: u64,
    default: &'a str,
    help: &'a str,
) -> Arg<'a>
    ensures rule { rule_of result ≡ number_between least most default.entry.now name.entry.now }
    ensures local { result.global ≡ false }
{
    Arg::new(alloc, name)
        .long(name)
        .value_parser(ValueParser::unsigned(least, most))
        .default_value(default)
        .help(help)
}
