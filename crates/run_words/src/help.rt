//! Texts for a person, of which no contract speaks.
use crate::address::{has_port_0, is_public};
use crate::audit::audit_command;
use crate::commands::Topic;
use crate::compact::compact_command;
use crate::fault::WordsFault;
use crate::follow::follow_command;
use crate::make::make_command;
use crate::matched::lacks_key;
use crate::recover::recover_command;
use crate::serve::serve_command;
use crate::texts::texts;
use crate::which::which_command;
use clap::{Arg, ArgMatches, Command, Error};
use rtb_num::Txt;
use std::alloc::{AllocError, Global};

/// The text of `--help`, written by `clap`.
pub fn help_text(alloc: Global, topic: Topic) -> Result<Txt, AllocError> {
    match told_command(alloc, topic) {
        Ok(command) => help_of(alloc, command),
        Err(error) => Err(error),
    }
}

fn help_of(alloc: Global, command: Command<'_>) -> Result<Txt, AllocError> {
    let mut command = command;
    let text = command.render_help();
    drop(command);
    text_of(alloc, text)
}

/// The text of `--version`, written by `clap`.
pub fn version_text(alloc: Global) -> Result<Txt, AllocError> {
    let command = Command::new(alloc, "rtbx").version("0.1.0");
    let text = command.render_version();
    drop(command);
    text_of(alloc, text)
}

fn text_of(alloc: Global, text: Result<String, AllocError>) -> Result<Txt, AllocError> {
    match text {
        Ok(text) => Txt::from_slice(alloc, text.as_bytes()),
        Err(error) => Err(error),
    }
}

const PROGRAM_ABOUT: &str = "An ad exchange for OpenRTB 2.5";

const SERVE_ABOUT: &str = "Serves the exchange over HTTP, by several workers, until it is stopped";

const RECOVER_ABOUT: &str =
    "Reads a journal, changes nothing, and prints the counts of its exchange";

const COMPACT_ABOUT: &str =
    "Writes a journal anew, without old sales: to another file, while nobody serves it";

const FOLLOW_ABOUT: &str =
    "Reports campaigns over HTTP from a journal that a server writes, and changes nothing";

const TRY_ABOUT: &str =
    "Sells one bid request of standard input to the campaigns BID or BID@DOMAIN";

const WHICH_ABOUT: &str =
    "Prints the best expressions of standard input for an assignment, and why";

const AUDIT_ABOUT: &str =
    "Reads a trace from standard input, and says whether the exchange of a journal gives its answers";

const MAKE_ABOUT: &str =
    "Serves drawn campaigns and requests in memory, and prints the counts or the trace of the run";

const PROGRAM_END: &str = "\
Examples:
  rtbx try 2.50@news.example 1.00 < request.json
  rtbx serve --listen 127.0.0.1:8080 --journal exchange.journal --public http://ads.example
  rtbx recover --journal exchange.journal
  rtbx compact --journal exchange.journal --into compacted.journal
  rtbx follow --listen 127.0.0.1:8081 --journal exchange.journal
  rtbx which < expressions.json
  rtbx audit --journal before.journal < trace
  rtbx make 7 2000
  rtbx serve --help";

const SERVE_END: &str = "\
Example:
  rtbx serve --listen 127.0.0.1:8080 --journal exchange.journal --public http://ads.example --workers 4 --ttl 300000";

const CAMPAIGN_HELP: &str =
    "BID or BID@DOMAIN: US dollars per thousand impressions, of every site or of this domain alone";

const TRY_END: &str = "\
Example:
  rtbx try 2.50@news.example 1.00 < request.json";

const RECOVER_END: &str = "\
Example:
  rtbx recover --journal exchange.journal";

const COMPACT_END: &str = "\
Examples:
  rtbx compact --journal exchange.journal --into compacted.journal --keep 1000000
  rtbx compact --journal exchange.journal --into compacted.journal --beside";

const FOLLOW_END: &str = "\
Example:
  rtbx follow --listen 127.0.0.1:8081 --journal exchange.journal";

const WHICH_END: &str = "\
Example:
  rtbx which < expressions.json";

const AUDIT_END: &str = "\
Example:
  rtbx audit --journal before.journal < trace";

const MAKE_END: &str = "\
Examples:
  rtbx make 7 2000
  rtbx make 7 2000 trace > trace";

// The command with what is told of it.
fn told_command<'a>(alloc: Global, topic: Topic) -> Result<Command<'a>, AllocError> {
    match topic {
        Topic::Program => told(program_command(alloc), "rtbx", PROGRAM_ABOUT, PROGRAM_END),
        Topic::Serve => told(serve_command(alloc), "rtbx serve", SERVE_ABOUT, SERVE_END),
        Topic::Recover => told(
            recover_command(alloc),
            "rtbx recover",
            RECOVER_ABOUT,
            RECOVER_END,
        ),
        Topic::Compact => told(
            compact_command(alloc),
            "rtbx compact",
            COMPACT_ABOUT,
            COMPACT_END,
        ),
        Topic::Follow => told(
            follow_command(alloc),
            "rtbx follow",
            FOLLOW_ABOUT,
            FOLLOW_END,
        ),
        Topic::Try => told(try_command(alloc), "rtbx try", TRY_ABOUT, TRY_END),
        Topic::Which => told(which_command(alloc), "rtbx which", WHICH_ABOUT, WHICH_END),
        Topic::Audit => told(audit_command(alloc), "rtbx audit", AUDIT_ABOUT, AUDIT_END),
        Topic::Make => told(make_command(alloc), "rtbx make", MAKE_ABOUT, MAKE_END),
    }
}

fn told<'a>(
    command: Result<Command<'a>, AllocError>,
    name: &str,
    about: &'a str,
    end: &'a str,
) -> Result<Command<'a>, AllocError> {
    match command {
        Ok(command) => described(command, name, about, end),
        Err(error) => Err(error),
    }
}

fn described<'a>(
    command: Command<'a>,
    name: &str,
    about: &'a str,
    end: &'a str,
) -> Result<Command<'a>, AllocError> {
    command
        .disable_help_flag(true)
        .about(about)
        .after_help(end)
        .bin_name(name)
}

fn program_command<'a>(alloc: Global) -> Result<Command<'a>, AllocError> {
    match commands(alloc) {
        Ok(commands) => Command::new(alloc, "rtbx")
            .disable_help_subcommand(true)
            .subcommands(commands),
        Err(error) => Err(error),
    }
}

fn commands<'a>(alloc: Global) -> Result<Vec<Command<'a>>, AllocError> {
    let try_command = named(alloc, "try", TRY_ABOUT);
    let serve = named(alloc, "serve", SERVE_ABOUT);
    let recover = named(alloc, "recover", RECOVER_ABOUT);
    let compact = named(alloc, "compact", COMPACT_ABOUT);
    let follow = named(alloc, "follow", FOLLOW_ABOUT);
    let which = named(alloc, "which", WHICH_ABOUT);
    let audit = named(alloc, "audit", AUDIT_ABOUT);
    let make = named(alloc, "make", MAKE_ABOUT);
    Ok(vec![in alloc;
        try_command,
        serve,
        recover,
        compact,
        follow,
        which,
        audit,
        make,
    ]?)
}

// For its help alone: its words are read by hand.
fn try_command<'a>(alloc: Global) -> Result<Command<'a>, AllocError> {
    let campaign = Arg::new(alloc, "CAMPAIGN")
        .num_args(0..=64)
        .help(CAMPAIGN_HELP);
    let campaigns = vec![in alloc; campaign]?;
    Command::new(alloc, "try").args(campaigns)
}

fn named<'a>(alloc: Global, name: &'a str, about: &'a str) -> Command<'a> {
    Command::new(alloc, name).about(about)
}

/// What `clap` says of words that it refuses, the first of which is the command's name, or what is wrong with a path, with
/// the keys, with the port or with what stands before the paths of notices, as one line without its line feed. It is empty
/// where the words are of no command with options, or not refused.
pub fn refusal_line(alloc: Global, words: &[Txt]) -> Result<Txt, AllocError> {
    match texts(alloc, words) {
        Ok(texts) => refusal_of(alloc, texts.as_slice()),
        Err(WordsFault::Usage) => Txt::from_slice(alloc, b"each word has to be UTF-8"),
        Err(WordsFault::Memory) => Err(AllocError),
    }
}

fn refusal_of<'a>(alloc: Global, words: &'a [&'a str]) -> Result<Txt, AllocError> {
    match words {
        ["serve", ..] => refusal_by(alloc, serve_command(alloc), words),
        ["recover", ..] => refusal_by(alloc, recover_command(alloc), words),
        ["compact", ..] => refusal_by(alloc, compact_command(alloc), words),
        ["follow", ..] => refusal_by(alloc, follow_command(alloc), words),
        ["which", ..] => refusal_by(alloc, which_command(alloc), words),
        ["audit", ..] => refusal_by(alloc, audit_command(alloc), words),
        ["make", ..] => refusal_by(alloc, make_command(alloc), words),
        _ => Ok(Txt::new(alloc)),
    }
}

fn refusal_by<'a>(
    alloc: Global,
    command: Result<Command<'a>, AllocError>,
    words: &'a [&'a str],
) -> Result<Txt, AllocError> {
    match command {
        Ok(command) => match command.try_get_matches_from(words) {
            Ok(matches) => {
                let refusal = value_refusal(alloc, &matches);
                drop(matches);
                refusal
            }
            Err(error) => told_refusal(alloc, error),
        },
        Err(error) => Err(error),
    }
}

// What is wrong with the paths, with the keys, with the third word of `make` or with the port, where something is.
fn value_refusal(alloc: Global, matches: &ArgMatches<'_>) -> Result<Txt, AllocError> {
    if has_one_path(matches) {
        return Txt::from_slice(alloc, b"--into has to name another file than --journal");
    }
    if lacks_key(matches) {
        return Txt::from_slice(alloc, b"--former-key has to stand beside --key");
    }
    if has_other_word(matches) {
        return Txt::from_slice(alloc, b"the third word of make has to be trace");
    }
    port_refusal(alloc, matches)
}

// Whether what is to be written is what is read.
fn has_one_path(matches: &ArgMatches<'_>) -> bool {
    match matches.get_str("into") {
        Some(into) => is_path(matches.get_str("journal"), into),
        None => false,
    }
}

// Whether a word stands where `trace` may.
fn has_other_word(matches: &ArgMatches<'_>) -> bool {
    match matches.get_str("trace") {
        Some(word) => word.as_bytes() != b"trace".as_slice(),
        None => false,
    }
}

fn is_path(given: Option<&str>, path: &str) -> bool {
    match given {
        Some(given) => given.as_bytes() == path.as_bytes(),
        None => false,
    }
}

// What is wrong with the port, where there is one, or with what stands before the paths of notices.
fn port_refusal(alloc: Global, matches: &ArgMatches<'_>) -> Result<Txt, AllocError> {
    match matches.get_str("listen") {
        Some(address) if has_port_0(address.as_bytes()) => {
            Txt::from_slice(alloc, b"the port of --listen has to be from 1 to 65535")
        }
        _ => public_refusal(alloc, matches),
    }
}

fn public_refusal(alloc: Global, matches: &ArgMatches<'_>) -> Result<Txt, AllocError> {
    match matches.get_str("public") {
        Some(text) if !is_public(text.as_bytes()) => Txt::from_slice(
            alloc,
            b"--public has to begin with http:// or https:// and a host",
        ),
        _ => Ok(Txt::new(alloc)),
    }
}

fn told_refusal(alloc: Global, error: Error) -> Result<Txt, AllocError> {
    let text = format!(in alloc; "{error}");
    drop(error);
    match text {
        Ok(text) => first_paragraph(alloc, text.as_str()),
        Err(error) => Err(error),
    }
}

// Its lines up to an empty one, joined to one line.
fn first_paragraph(alloc: Global, text: &str) -> Result<Txt, AllocError> {
    let mut joined = Txt::new(alloc);
    for line in text.lines() {
        let line = line.trim_start();
        if line.is_empty() {
            return Ok(joined);
        }
        if !joined.is_empty() {
            joined.push(b' ')?;
        }
        joined.extend(without_front(line).as_bytes())?;
    }
    Ok(joined)
}

// Without `error: ` at its front.
fn without_front(line: &str) -> &str {
    match line.strip_prefix("error: ") {
        Some(rest) => rest,
        None => line,
    }
}
