//! What the words ask for, where they are of no command that is read by hand.
ghost use Rattle.std.specs.Prelude.{◌≡◌, ◌||◌, MatchResult, None, Some, codes};
ghost use Rattle.std.specs.Str.{bytes_eq};
ghost use Rattle.run_words.specs.CommandLines.{about, asked, audit_line, command_line, compact_line, follow_line, further_line, is_question, last_line, make_line, recover_line, serve_line, which_line};
ghost use Rattle.run_words.specs.declared.fault.WordsFault.TheVariants.{Usage};

use crate::audit::{AuditOptions, audit_options};
use crate::compact::{CompactOptions, compact_options};
use crate::fault::WordsFault;
use crate::follow::{FollowOptions, follow_options};
use crate::make::{MakeOptions, make_options};
use crate::recover::{RecoverOptions, recover_options};
use crate::serve::{ServeOptions, serve_options};
use crate::which::which_words;
use rtb_num::Txt;
use std::alloc::Global;

/// What is asked about.
#[derive(Clone, Copy)]
pub enum Topic {
    /// The whole program.
    Program,
    /// The command `serve`.
    Serve,
    /// The command `recover`.
    Recover,
    /// The command `compact`.
    Compact,
    /// The command `follow`.
    Follow,
    /// The command `try`.
    Try,
    /// The command `which`.
    Which,
    /// The command `audit`.
    Audit,
    /// The command `make`.
    Make,
}

/// What words ask for, where they are of no command that is read by hand.
#[derive(Drop)]
pub enum CommandLine {
    /// `serve` with its options.
    Serve(ServeOptions),
    /// `recover` with its options.
    Recover(RecoverOptions),
    /// `which`, which has none.
    Which,
    /// `compact` with its options.
    Compact(CompactOptions),
    /// `follow` with its options.
    Follow(FollowOptions),
    /// `audit` with its options.
    Audit(AuditOptions),
    /// `make` with what it is to make.
    Make(MakeOptions),
    /// `--help`, alone or behind a command's name.
    Help(Topic),
    /// `--version`, likewise.
    Version,
}

/// What the words ask for, the first of which names the command.
pub fn command_line(alloc: Global, words: &[Txt]) -> Result<CommandLine, WordsFault>
    ensures { MatchResult result (λ line. command_line words.now ≡ Some line) (λ e. e ≡ Usage → command_line words.now ≡ None) }
{
    match words {
        [] => Err(WordsFault::Usage),
        [name, rest @ ..] => {
            if name.as_bytes() == b"serve".as_slice() {
                return serve_line(alloc, words, rest);
            }
            if name.as_bytes() == b"recover".as_slice() {
                return recover_line(alloc, words, rest);
            }
            if name.as_bytes() == b"compact".as_slice() {
                return compact_line(alloc, words, rest);
            }
            if name.as_bytes() == b"try".as_slice() {
                return question(Topic::Try, rest);
            }
            further_line(alloc, words, name, rest)
        }
    }
}

// What words ask for whose first names none of those commands.
fn further_line(
    alloc: Global,
    words: &[Txt],
    name: &Txt,
    rest: &[Txt],
) -> Result<CommandLine, WordsFault>
    ensures { MatchResult result (λ line. further_line words.now name.now rest.now ≡ Some line) (λ e. e ≡ Usage → further_line words.now name.now rest.now ≡ None) }
{
    if name.as_bytes() == b"follow".as_slice() {
        return follow_line(alloc, words, rest);
    }
    last_line(alloc, words, name, rest)
}

// The same, of words whose first does not name that either.
fn last_line(
    alloc: Global,
    words: &[Txt],
    name: &Txt,
    rest: &[Txt],
) -> Result<CommandLine, WordsFault>
    ensures { MatchResult result (λ line. last_line words.now name.now rest.now ≡ Some line) (λ e. e ≡ Usage → last_line words.now name.now rest.now ≡ None) }
{
    if name.as_bytes() == b"which".as_slice() {
        return which_line(alloc, words, rest);
    }
    if name.as_bytes() == b"audit".as_slice() {
        return audit_line(alloc, words, rest);
    }
    if name.as_bytes() == b"make".as_slice() {
        return make_line(alloc, words, rest);
    }
    question(Topic::Program, words)
}

fn make_line(alloc: Global, words: &[Txt], rest: &[Txt]) -> Result<CommandLine, WordsFault>
    ensures { MatchResult result (λ line. make_line words.now rest.now ≡ Some line) (λ e. e ≡ Usage → make_line words.now rest.now ≡ None) }
{
    match asked(Topic::Make, rest) {
        Some(line) => Ok(line),
        None => match make_options(alloc, words) {
            Ok(options) => Ok(CommandLine::Make(options)),
            Err(fault) => Err(fault),
        },
    }
}

fn audit_line(alloc: Global, words: &[Txt], rest: &[Txt]) -> Result<CommandLine, WordsFault>
    ensures { MatchResult result (λ line. audit_line words.now rest.now ≡ Some line) (λ e. e ≡ Usage → audit_line words.now rest.now ≡ None) }
{
    match asked(Topic::Audit, rest) {
        Some(line) => Ok(line),
        None => match audit_options(alloc, words) {
            Ok(options) => Ok(CommandLine::Audit(options)),
            Err(fault) => Err(fault),
        },
    }
}

fn which_line(alloc: Global, words: &[Txt], rest: &[Txt]) -> Result<CommandLine, WordsFault>
    ensures { MatchResult result (λ line. which_line words.now rest.now ≡ Some line) (λ e. e ≡ Usage → which_line words.now rest.now ≡ None) }
{
    match asked(Topic::Which, rest) {
        Some(line) => Ok(line),
        None => match which_words(alloc, words) {
            Ok(()) => Ok(CommandLine::Which),
            Err(fault) => Err(fault),
        },
    }
}

// What the words ask about the topic, where they ask for nothing else.
fn question(topic: Topic, words: &[Txt]) -> Result<CommandLine, WordsFault>
    ensures { MatchResult result (λ line. asked topic words.now ≡ Some line) (λ e. e ≡ Usage → asked topic words.now ≡ None) }
{
    match asked(topic, words) {
        Some(line) => Ok(line),
        None => Err(WordsFault::Usage),
    }
}

fn serve_line(alloc: Global, words: &[Txt], rest: &[Txt]) -> Result<CommandLine, WordsFault>
    ensures { MatchResult result (λ line. serve_line words.now rest.now ≡ Some line) (λ e. e ≡ Usage → serve_line words.now rest.now ≡ None) }
{
    match asked(Topic::Serve, rest) {
        Some(line) => Ok(line),
        None => match serve_options(alloc, words) {
            Ok(options) => Ok(CommandLine::Serve(options)),
            Err(fault) => Err(fault),
        },
    }
}

fn recover_line(alloc: Global, words: &[Txt], rest: &[Txt]) -> Result<CommandLine, WordsFault>
    ensures { MatchResult result (λ line. recover_line words.now rest.now ≡ Some line) (λ e. e ≡ Usage → recover_line words.now rest.now ≡ None) }
{
    match asked(Topic::Recover, rest) {
        Some(line) => Ok(line),
        None => match recover_options(alloc, words) {
            Ok(options) => Ok(CommandLine::Recover(options)),
            Err(fault) => Err(fault),
        },
    }
}

fn compact_line(alloc: Global, words: &[Txt], rest: &[Txt]) -> Result<CommandLine, WordsFault>
    ensures { MatchResult result (λ line. compact_line words.now rest.now ≡ Some line) (λ e. e ≡ Usage → compact_line words.now rest.now ≡ None) }
{
    match asked(Topic::Compact, rest) {
        Some(line) => Ok(line),
        None => match compact_options(alloc, words) {
            Ok(options) => Ok(CommandLine::Compact(options)),
            Err(fault) => Err(fault),
        },
    }
}

fn follow_line(alloc: Global, words: &[Txt], rest: &[Txt]) -> Result<CommandLine, WordsFault>
    ensures { MatchResult result (λ line. follow_line words.now rest.now ≡ Some line) (λ e. e ≡ Usage → follow_line words.now rest.now ≡ None) }
{
    match asked(Topic::Follow, rest) {
        Some(line) => Ok(line),
        None => match follow_options(alloc, words) {
            Ok(options) => Ok(CommandLine::Follow(options)),
            Err(fault) => Err(fault),
        },
    }
}

/// Whether the words behind a command's name ask about it: a lone `--help` or `--version`.
pub fn is_question(words: &[Txt]) -> bool
    ensures { result ≡ is_question words.now }
{
    match words {
        [word] => is_about(word.as_bytes()),
        _ => false,
    }
}

fn is_about(word: &[u8]) -> bool
    ensures { result ≡ bytes_eq word.now (codes "--help") || bytes_eq word.now (codes "--version") }
{
    word == b"--help".as_slice() || word == b"--version".as_slice()
}

// What a lone word asks about the topic.
fn asked(topic: Topic, words: &[Txt]) -> Option<CommandLine>
    ensures { result ≡ asked topic words.now }
{
    match words {
        [word] => about(topic, word.as_bytes()),
        _ => None,
    }
}

fn about(topic: Topic, word: &[u8]) -> Option<CommandLine>
    ensures { result ≡ about topic word.now }
{
    if word == b"--help".as_slice() {
        return Some(CommandLine::Help(topic));
    }
    if word == b"--version".as_slice() {
        return Some(CommandLine::Version);
    }
    None
}
