//! The one call that the program makes: the command that the words name, run to its end.
ghost use Rattle.std.specs.Prelude.{◌≡◌, ◌⊎◌, None, Some, false, true};
ghost use Rattle.rtb_base.specs.Faults.{RisesOnlyWhere};
ghost use Rattle.rtb_io.specs.Statuses.{code_of};
ghost use Rattle.rtb_io.specs.declared.status.Status.TheVariants.{Memory, NotWritten, Usage};
ghost use Rattle.exchange_run.specs.Lines.{IsOfAsked, IsOfLine, IsOfWords};
ghost use Rattle.exchange_run.specs.Run.{IsAudit, IsCompaction, IsFollowing, IsMaking, IsPlanning, IsQuestion, IsRecovery, IsServing, IsShown, IsStarved, IsTrying, IsUnnamed, Shows, asks_audit, asks_which, is_audit, is_which, names_try, other, takes_input, words_of};
ghost use Rattle.run_words.specs.declared.audit.AuditOptions.{AuditOptions};
ghost use Rattle.run_words.specs.declared.commands.CommandLine.{CommandLine as ALine};
ghost use Rattle.run_words.specs.declared.commands.CommandLine.TheVariants as asked;
ghost use Rattle.run_words.specs.declared.compact.CompactOptions.{CompactOptions};
ghost use Rattle.run_words.specs.declared.follow.FollowOptions.{FollowOptions};
ghost use Rattle.run_words.specs.declared.make.MakeOptions.{MakeOptions};
ghost use Rattle.run_words.specs.declared.recover.RecoverOptions.{RecoverOptions};
ghost use Rattle.run_words.specs.declared.serve.ServeOptions.{ServeOptions};

use crate::try_command::try_run;
use crate::which_command::run_which;
use link_door::{Door, Link, Pause, World};
use rtb_disk::Disk;
use rtb_io::Status;
use rtb_num::{Sink, Source, Txt};
use run_commands::{Outcome, audit, compact, end_with, follow, make, recover, serve, tell};
use run_words::{CommandLine, WordsFault, command_line, help_text, is_question, version_text};
use std::alloc::{AllocError, Global};
use std::sync::Wait;
use std::thread::Threads;

/// Runs the command that the words name, the first of which is its name, and gives back all that the world
/// handed out.
///
/// `try` is `try_run` and `which` `run_which`; `serve`, `recover`, `compact`, `follow`, `audit` and `make` are
/// those of `run_commands`. `--help` and `--version`, alone or behind the name of a command, print a text. Other words end with
/// status 2 and its line. The workers of `serve` are threads of the runtime.
pub fn run<W: World, P: Pause + Sync, S: Source, K: Sink, R: Threads + Wait + Sync>(
    alloc: Global,
    words: &[Txt],
    world: &mut W,
    pause: &P,
    source: &mut S,
    sink: &mut K,
    rt: &R,
) -> Outcome<W>
    // Each command has a clause of its own.
    ensures serves { (options : ServeOptions) → words_of words.now ≡ Some (other (asked.Serve options)) → IsServing ⟦<W as World>⟧ ⟦<W::Disk as Disk>⟧ ⟦<W::Door as Door>⟧ ⟦<<W::Door as Door>::Link as Link>⟧ world.old world.new (K.written sink.old) (K.written sink.new) result.status
        (record { doors = result.doors; disk = result.disk; other = result.other; last = result.last; past = result.past }) options }
    ensures recovers { (options : RecoverOptions) → words_of words.now ≡ Some (other (asked.Recover options)) → IsRecovery ⟦<W as World>⟧ ⟦<W::Disk as Disk>⟧ ⟦<W::Door as Door>⟧ ⟦<<W::Door as Door>::Link as Link>⟧ world.old world.new (K.written sink.old) (K.written sink.new) result.status
        (record { doors = result.doors; disk = result.disk; other = result.other; last = result.last; past = result.past }) options ⊎ IsStarved world.old world.new (record { doors = result.doors; disk = result.disk; other = result.other; last = result.last; past = result.past }) (K.written sink.old) (K.written sink.new) result.status }
    ensures compacts { (options : CompactOptions) → words_of words.now ≡ Some (other (asked.Compact options)) → IsCompaction ⟦<W as World>⟧ ⟦<W::Disk as Disk>⟧ ⟦<W::Door as Door>⟧ ⟦<<W::Door as Door>::Link as Link>⟧ world.old world.new (K.written sink.old) (K.written sink.new) result.status
        (record { doors = result.doors; disk = result.disk; other = result.other; last = result.last; past = result.past }) options ⊎ IsStarved world.old world.new (record { doors = result.doors; disk = result.disk; other = result.other; last = result.last; past = result.past }) (K.written sink.old) (K.written sink.new) result.status }
    ensures follows { (options : FollowOptions) → words_of words.now ≡ Some (other (asked.Follow options)) → IsFollowing ⟦<W as World>⟧ ⟦<W::Disk as Disk>⟧ ⟦<W::Door as Door>⟧ ⟦<<W::Door as Door>::Link as Link>⟧ world.old world.new (K.written sink.old) (K.written sink.new) result.status
        (record { doors = result.doors; disk = result.disk; other = result.other; last = result.last; past = result.past }) options ⊎ IsStarved world.old world.new (record { doors = result.doors; disk = result.disk; other = result.other; last = result.last; past = result.past }) (K.written sink.old) (K.written sink.new) result.status }
    ensures audits { (options : AuditOptions) → words_of words.now ≡ Some (other (asked.Audit options)) → IsAudit ⟦<W as World>⟧ ⟦<W::Disk as Disk>⟧ ⟦<W::Door as Door>⟧ ⟦<<W::Door as Door>::Link as Link>⟧ world.old world.new (K.written sink.old) (K.written sink.new) result.status
        (record { doors = result.doors; disk = result.disk; other = result.other; last = result.last; past = result.past }) (S.left source.old) (S.left source.new) (S.faults source.old) (S.faults source.new) options }
    ensures makes { (options : MakeOptions) → words_of words.now ≡ Some (other (asked.Make options)) → IsMaking world.old world.new (K.written sink.old) (K.written sink.new) result.status
        (record { doors = result.doors; disk = result.disk; other = result.other; last = result.last; past = result.past }) options }
    ensures plans { words_of words.now ≡ Some (other asked.Which) → IsPlanning world.old world.new (K.written sink.old) (K.written sink.new) result.status
        (record { doors = result.doors; disk = result.disk; other = result.other; last = result.last; past = result.past }) (S.left source.old) (S.left source.new) (S.faults source.old) (S.faults source.new) }
    ensures tries { names_try words.now ≡ true → IsTrying world.old world.new (K.written sink.old) (K.written sink.new) result.status
        (record { doors = result.doors; disk = result.disk; other = result.other; last = result.last; past = result.past }) (S.left source.old) (S.left source.new) (S.faults source.old) (S.faults source.new) words.now }
    ensures shows { (question : ALine) → IsQuestion question → words_of words.now ≡ Some (other question) → IsShown world.old world.new (K.written sink.old) (K.written sink.new) result.status
        (record { doors = result.doors; disk = result.disk; other = result.other; last = result.last; past = result.past }) }

    // It is usage exactly where the words are of no command, unless the sink fails or memory is refused.
    ensures unnamed { words_of words.now ≡ None → IsUnnamed world.old world.new (K.written sink.old) (K.written sink.new) result.status
        (record { doors = result.doors; disk = result.disk; other = result.other; last = result.last; past = result.past }) }
    ensures named { result.status ≡ code_of Usage → words_of words.now ≡ None }

    ensures cause { RisesOnlyWhere (result.status ≡ code_of NotWritten) (K.faults sink.old) (K.faults sink.new) }
    // The source is for `try`, `which` and `audit` alone.
    ensures unread { takes_input words.now ≡ false → source.new ≡ source.old }
{
    run_asked(alloc, words, world, pause, source, sink, rt)
}

// The same, with all that is said of it together.
fn run_asked<W: World, P: Pause + Sync, S: Source, K: Sink, R: Threads + Wait + Sync>(
    alloc: Global,
    words: &[Txt],
    world: &mut W,
    pause: &P,
    source: &mut S,
    sink: &mut K,
    rt: &R,
) -> Outcome<W>
    ensures runs { IsOfWords ⟦<W as World>⟧ ⟦<W::Disk as Disk>⟧ ⟦<W::Door as Door>⟧ ⟦<<W::Door as Door>::Link as Link>⟧ world.old world.new (S.left source.old) (S.left source.new) (S.faults source.old) (S.faults source.new) (K.written sink.old) (K.written sink.new) result.status
        (record { doors = result.doors; disk = result.disk; other = result.other; last = result.last; past = result.past }) words.now }
    ensures named { result.status ≡ code_of Usage → words_of words.now ≡ None }
    ensures cause { RisesOnlyWhere (result.status ≡ code_of NotWritten) (K.faults sink.old) (K.faults sink.new) }
    ensures unread { takes_input words.now ≡ false → source.new ≡ source.old }
{
    if is_try(words) {
        return Outcome::without_world(alloc, try_run(alloc, words, source, sink));
    }
    run_other(alloc, words, world, pause, source, sink, rt)
}

fn is_try(words: &[Txt]) -> bool
    ensures { result ≡ names_try words.now }
{
    match words {
        [] => false,
        [name, rest @ ..] => name.as_bytes() == b"try".as_slice() && !is_question(rest),
    }
}

// The same, of words that name no campaigns.
fn run_other<W: World, P: Pause + Sync, S: Source, K: Sink, R: Threads + Wait + Sync>(
    alloc: Global,
    words: &[Txt],
    world: &mut W,
    pause: &P,
    source: &mut S,
    sink: &mut K,
    rt: &R,
) -> Outcome<W>
    requires { names_try words.now ≡ false }
    ensures runs { IsOfAsked ⟦<W as World>⟧ ⟦<W::Disk as Disk>⟧ ⟦<W::Door as Door>⟧ ⟦<<W::Door as Door>::Link as Link>⟧ world.old world.new (S.left source.old) (S.left source.new) (S.faults source.old) (S.faults source.new) (K.written sink.old) (K.written sink.new) result.status
        (record { doors = result.doors; disk = result.disk; other = result.other; last = result.last; past = result.past }) (words_of words.now) }
    ensures cause { RisesOnlyWhere (result.status ≡ code_of NotWritten) (K.faults sink.old) (K.faults sink.new) }
    ensures unread { asks_which (words_of words.now) ≡ false → asks_audit (words_of words.now) ≡ false → source.new ≡ source.old }
{
    match command_line(alloc, words) {
        Ok(line) => {
            let outcome = run_line(alloc, &line, world, pause, source, sink, rt);
            drop(line);
            outcome
        }
        Err(fault) => Outcome::without_world(alloc, end_with(status_of(fault), sink).code()),
    }
}

fn status_of(fault: WordsFault) -> Status
    ensures usage { fault ≡ WordsFault.Usage → result ≡ Usage }
    ensures memory { fault ≡ WordsFault.Memory → result ≡ Memory }
{
    match fault {
        WordsFault::Usage => Status::Usage,
        WordsFault::Memory => Status::Memory,
    }
}

// Runs what is read by `clap`.
fn run_line<W: World, P: Pause + Sync, S: Source, K: Sink, R: Threads + Wait + Sync>(
    alloc: Global,
    line: &CommandLine,
    world: &mut W,
    pause: &P,
    source: &mut S,
    sink: &mut K,
    rt: &R,
) -> Outcome<W>
    ensures runs { IsOfLine ⟦<W as World>⟧ ⟦<W::Disk as Disk>⟧ ⟦<W::Door as Door>⟧ ⟦<<W::Door as Door>::Link as Link>⟧ world.old world.new (S.left source.old) (S.left source.new) (S.faults source.old) (S.faults source.new) (K.written sink.old) (K.written sink.new) result.status
        (record { doors = result.doors; disk = result.disk; other = result.other; last = result.last; past = result.past }) line.now }
    ensures cause { RisesOnlyWhere (result.status ≡ code_of NotWritten) (K.faults sink.old) (K.faults sink.new) }
    ensures unread { is_which line.now ≡ false → is_audit line.now ≡ false → source.new ≡ source.old }
{
    match line {
        CommandLine::Serve(options) => serve(alloc, options, world, pause, sink, rt),
        CommandLine::Recover(options) => recover(alloc, options, world, sink),
        CommandLine::Compact(options) => compact(alloc, options, world, sink, rt),
        CommandLine::Follow(options) => follow(alloc, options, world, sink, rt),
        CommandLine::Audit(options) => audit(alloc, options, world, source, sink),
        CommandLine::Make(options) => {
            let status = make(alloc, options, sink, rt);
            Outcome::without_world(alloc, status.code())
        }
        CommandLine::Help(topic) => {
            let text = help_text(alloc, *topic);
            Outcome::without_world(alloc, show(text, sink).code())
        }
        CommandLine::Version => {
            let text = version_text(alloc);
            Outcome::without_world(alloc, show(text, sink).code())
        }
        CommandLine::Which => Outcome::without_world(alloc, run_which(alloc, source, sink)),
    }
}

// Writes the text, where there was memory for it.
fn show<K: Sink>(text: Result<Txt, AllocError>, sink: &mut K) -> Status
    ensures shows { Shows (K.written sink.old) (K.written sink.new) (code_of result) }
    ensures cause { RisesOnlyWhere (result ≡ NotWritten) (K.faults sink.old) (K.faults sink.new) }
{
    match text {
        Ok(text) => tell(Status::Done, text.as_bytes(), sink),
        Err(AllocError) => end_with(Status::Memory, sink),
    }
}
