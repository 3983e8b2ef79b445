//! The reports of a follower over HTTP.
ghost use Rattle.std.specs.Prelude.{◌≡◌, IfOk, MatchResult, false};
ghost use Rattle.follower.specs.Reading.{looked_at, report_asked};
ghost use Rattle.follower.specs.Reporting.{AsksFor};
ghost use Rattle.http_wire.specs.Answers.{IsWritable};

use crate::answers::{damaged_answer, report_answer, room_for_damage};
use crate::follower::Follower;
use address_keys::Keys;
use command_read::{CommandFault, message_has_one_reading, read_command};
use http_wire::{Answer, Message};
use journal_file::JournalFault;
use plain_exchange::{Act, Command, Look};
use rtb_disk::Disk;
use rtb_response::error_reply;
use session::{Given, Service};
use std::alloc::{AllocError, Global};

/// `GET /campaign/N` is answered with the report of campaign N behind all that the journal says by then, with the number
/// of its effects last. Another path is not found, and any other method is refused: a follower changes nothing.
impl<D: Disk> Service for Follower<D> {
    ghost use Rattle.follower.specs.Reporting.{IsAnswer};

    ghost answers = { λ old message given new. IsAnswer D.Disk old message given new };

    fn answer(&mut self, message: &Message) -> Given {
        if message.method.as_bytes() != b"GET".as_slice() {
            return given(error_reply(self.alloc, 409, b"read-only"));
        }
        match asked_for(self.alloc, message) {
            Ok(Some(n)) => self.report_to(n),
            Ok(None) => given(error_reply(self.alloc, 404, b"not-found")),
            Err(_) => Given::Memory,
        }
    }
}

// The campaign whose report the message asks for, where it does.
fn asked_for(alloc: Global, message: &Message) -> Result<Option<u64>, AllocError>
    ensures { IfOk result (AsksFor message.now) }
{
    let keys = Keys::none();
    message_has_one_reading(&keys, message);
    match read_command(alloc, &keys, message) {
        Ok(command) => {
            let asked = report_in(&command);
            drop(command);
            Ok(asked)
        }
        Err(CommandFault::Refused { refusal }) => {
            drop(refusal);
            Ok(None)
        }
        Err(CommandFault::Memory) => Err(AllocError),
    }
}

fn report_in(command: &Command) -> Option<u64>
    ensures { result ≡ report_asked command.now }
{
    match command {
        Command::Auction(_) => None,
        Command::Act(act) => report_looked_at(act),
    }
}

fn report_looked_at(act: &Act) -> Option<u64>
    ensures { result ≡ looked_at act.now }
{
    match act {
        Act::Look(Look::Report(n)) => Some(*n),
        _ => None,
    }
}

impl<D: Disk> Follower<D> {
    ghost use Rattle.std.specs.Prelude.{◌≡◌, ◌⊎◌, ◌≤◌, [], vec_capacity, vec_len, IfOk};
    ghost use Rattle.follower.specs.Following.{state_in};
    ghost use Rattle.follower.specs.Reporting.{IsReport, found_answer};
    ghost use Rattle.session.specs.Talk.{IsGivable};

    // The report of campaign `n` behind what the journal says now, or want of memory before anything was read.
    fn report_to(&mut self, n: u64) -> Given
        ensures reports { IsReport D.Disk n self.old self.new result ⊎ ((result ≡ Given.Memory) × (self.new ≡ self.old)) }
        ensures givable { IsGivable result }
    {
        match room_for_damage(self.alloc) {
            Ok(room) => self.report_with(n, room),
            Err(_) => Given::Memory,
        }
    }

    // The same, with room for the answer of damage.
    fn report_with(&mut self, n: u64, room: Vec<u8>) -> Given
        requires empty { room.items ≡ [] }
        requires len { vec_len room ≡ 0 }
        requires room { 80 ≤ vec_capacity room }
        ensures reports { IsReport D.Disk n self.old self.new result }
        ensures givable { IsGivable result }
    {
        match self.catch_up() {
            Ok(effects) => given(self.found(n, effects)),
            Err(JournalFault::DiskFailed) => Given::StoreFailed,
            Err(JournalFault::Damaged { at }) => given(Ok(damaged_answer(room, at))),
            Err(JournalFault::Memory) => Given::Memory,
        }
    }

    // The report of campaign `n` by what was carried out, so many effects.
    fn found(&self, n: u64, effects: u64) -> Result<Answer, AllocError>
        ensures { IfOk result (λ a. a ≡ found_answer (state_in self.now) n effects) }
    {
        match self.number(n) {
            Some(number) => {
                let report = self.report_at(number);
                report_answer(self.alloc, number, &report, effects)
            }
            None => error_reply(self.alloc, 404, b"no-such-campaign"),
        }
    }
}

// What is given for a message: the answer, where there was memory for it. It tells of no entry.
fn given(answer: Result<Answer, AllocError>) -> Given
    requires { IfOk answer IsWritable }
    ensures { MatchResult answer (λ a. result ≡ Given.Text a false) (λ _. result ≡ Given.Memory) }
{
    match answer {
        Ok(answer) => Given::Text {
            answer,
            entered: false,
        },
        Err(_) => Given::Memory,
    }
}
