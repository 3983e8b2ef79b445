//! What is said of words that are of no command.
ghost use Rattle.std.specs.Prelude.{◌≡◌, ◌<◌, ◌++◌, ℕ, List, None, Some, find, get_or, is_some, length, not, option_map, OnOk, OnErr, [], codes};
ghost use Rattle.exchange_run.specs.Explain.{about_campaign, about_campaigns, about_options, about_word, all_examples, examples, explanation, further_example, further_wrong, what_is_wrong, wrong_campaign};
ghost use Rattle.run_words.specs.CommandLines.{command_line};

use crate::words::{MAX_CAMPAIGNS, is_campaign};
use json_out::push_string;
use rtb_num::Txt;
use run_words::{WordsFault, command_line, refusal_line};
use std::alloc::{AllocError, Global};

/// Of words that are of no command, appends a line that says what is wrong, and one that shows a right
/// command, or where there is no word, one for each command. Of a command it appends nothing.
///
/// What it says of the options of `serve`, `recover` and `compact` is what `clap` says.
pub fn explain(alloc: Global, words: &[Txt], out: &mut Txt) -> Result<(), AllocError>
    ensures ok { OnOk result ((said : List ℕ) × (out.new ≡ out.old ++ explanation said words.now)) }
    ensures err { OnErr result (out.new ≡ out.old) }
{
    match command_line(alloc, words) {
        Ok(line) => {
            drop(line);
            Ok(())
        }
        Err(WordsFault::Usage) => tell_what_is_wrong(alloc, words, out),
        Err(WordsFault::Memory) => Err(AllocError),
    }
}

// The same, of words that are of no command with options.
fn tell_what_is_wrong(alloc: Global, words: &[Txt], out: &mut Txt) -> Result<(), AllocError>
    ensures ok { OnOk result ((said : List ℕ) × (out.new ≡ out.old ++ what_is_wrong said words.now)) }
    ensures err { OnErr result (out.new ≡ out.old) }
{
    let said = refusal_line(alloc, words)?;
    put_whole(said.as_bytes(), words, out)
}

// Appends what is wrong, where `said` is said of options, or nothing.
fn put_whole(said: &[u8], words: &[Txt], out: &mut Txt) -> Result<(), AllocError>
    ensures ok { OnOk result (out.new ≡ out.old ++ what_is_wrong said.now words.now) }
    ensures err { OnErr result (out.new ≡ out.old) }
{
    let before = out.len();
    let done = put_what_is_wrong(said, words, out);
    out.settle(before, done)
}

// Appends what is wrong, or a front of it.
fn put_what_is_wrong(said: &[u8], words: &[Txt], out: &mut Txt) -> Result<(), AllocError>
    ensures ok { OnOk result (out.new ≡ out.old ++ what_is_wrong said.now words.now) }
    ensures front { (more : List ℕ) × (out.new ≡ out.old ++ more) }
{
    match words {
        [] => put_all_examples(out),
        [name, rest @ ..] => {
            if name.as_bytes() == b"try".as_slice() {
                return put_about_campaigns(rest, out);
            }
            if name.as_bytes() == b"serve".as_slice() {
                return put_about_options(said, SERVE_EXAMPLE, out);
            }
            if name.as_bytes() == b"recover".as_slice() {
                return put_about_options(said, RECOVER_EXAMPLE, out);
            }
            if name.as_bytes() == b"compact".as_slice() {
                return put_about_options(said, COMPACT_EXAMPLE, out);
            }
            put_further(said, name, out)
        }
    }
}

// Appends what is wrong where the first word names none of those commands, or a front of it.
fn put_further(said: &[u8], name: &Txt, out: &mut Txt) -> Result<(), AllocError>
    ensures ok { OnOk result (out.new ≡ out.old ++ further_wrong said.now name.now) }
    ensures front { (more : List ℕ) × (out.new ≡ out.old ++ more) }
{
    match further_example(name.as_bytes()) {
        Some(example) => put_about_options(said, example, out),
        None => put_about_word(name, b" is no command\n", out),
    }
}

// A right command of that name, where it is one of these.
fn further_example(name: &[u8]) -> Option<&'static [u8]>
    ensures { option_map (λ e. e.now) result ≡ further_example name.now }
{
    if name == b"follow".as_slice() {
        return Some(FOLLOW_EXAMPLE);
    }
    if name == b"which".as_slice() {
        return Some(WHICH_EXAMPLE);
    }
    if name == b"audit".as_slice() {
        return Some(AUDIT_EXAMPLE);
    }
    if name == b"make".as_slice() {
        return Some(MAKE_EXAMPLE);
    }
    None
}

const EXAMPLE: &[u8] = b"rtbx: a right command is: rtbx try 2.50@news.example 1.00\n";

const SERVE_EXAMPLE: &[u8] =
    b"rtbx: a right command is: rtbx serve --listen 127.0.0.1:8080 --journal exchange.journal --public http://ads.example\n";

const RECOVER_EXAMPLE: &[u8] =
    b"rtbx: a right command is: rtbx recover --journal exchange.journal\n";

const COMPACT_EXAMPLE: &[u8] =
    b"rtbx: a right command is: rtbx compact --journal exchange.journal --into compacted.journal\n";

const FOLLOW_EXAMPLE: &[u8] =
    b"rtbx: a right command is: rtbx follow --listen 127.0.0.1:8081 --journal exchange.journal\n";

const WHICH_EXAMPLE: &[u8] = b"rtbx: a right command is: rtbx which < expressions.json\n";

const AUDIT_EXAMPLE: &[u8] =
    b"rtbx: a right command is: rtbx audit --journal before.journal < trace\n";

const MAKE_EXAMPLE: &[u8] = b"rtbx: a right command is: rtbx make 7 2000\n";

fn put_all_examples(out: &mut Txt) -> Result<(), AllocError>
    ensures ok { OnOk result (out.new ≡ out.old ++ all_examples) }
    ensures front { (more : List ℕ) × (out.new ≡ out.old ++ more) }
{
    put_examples(out)?;
    out.extend(FOLLOW_EXAMPLE)?;
    out.extend(WHICH_EXAMPLE)?;
    out.extend(AUDIT_EXAMPLE)?;
    out.extend(MAKE_EXAMPLE)?;
    Ok(())
}

fn put_examples(out: &mut Txt) -> Result<(), AllocError>
    ensures ok { OnOk result (out.new ≡ out.old ++ examples) }
    ensures front { (more : List ℕ) × (out.new ≡ out.old ++ more) }
{
    out.extend(b"rtbx: no command is named\n")?;
    out.extend(EXAMPLE)?;
    out.extend(SERVE_EXAMPLE)?;
    out.extend(RECOVER_EXAMPLE)?;
    out.extend(COMPACT_EXAMPLE)?;
    Ok(())
}

// What is said of options, and the example.
fn put_about_options(said: &[u8], example: &[u8], out: &mut Txt) -> Result<(), AllocError>
    ensures ok { OnOk result (out.new ≡ out.old ++ about_options said.now example.now) }
    ensures front { (more : List ℕ) × (out.new ≡ out.old ++ more) }
{
    out.extend(b"rtbx: ")?;
    out.extend(said)?;
    out.extend(b"\n")?;
    out.extend(example)?;
    Ok(())
}

fn put_about_campaigns(words: &[Txt], out: &mut Txt) -> Result<(), AllocError>
    ensures ok { OnOk result (out.new ≡ out.old ++ about_campaigns words.now) }
    ensures front { (more : List ℕ) × (out.new ≡ out.old ++ more) }
{
    if words.len() > MAX_CAMPAIGNS {
        return put_about_word(
            &words[MAX_CAMPAIGNS],
            b" is campaign 65, and 64 is the most\n",
            out,
        );
    }
    match first_wrong(words) {
        Some(word) => put_about_word(word, b" is no campaign\n", out),
        None => Ok(()),
    }
}

// The first word that is no campaign.
fn first_wrong(words: &[Txt]) -> Option<&Txt>
    ensures { option_map (λ w. w.now) result ≡ wrong_campaign words.now }
{
    words.iter().find(|word| !is_campaign(word))
}

fn put_about_word(word: &Txt, why: &[u8], out: &mut Txt) -> Result<(), AllocError>
    ensures ok { OnOk result (out.new ≡ out.old ++ about_word word.now why.now) }
    ensures front { (more : List ℕ) × (out.new ≡ out.old ++ more) }
{
    out.extend(b"rtbx: ")?;
    push_string(out, word.as_bytes())?;
    out.extend(why)?;
    out.extend(EXAMPLE)?;
    Ok(())
}
