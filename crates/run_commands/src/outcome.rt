//! How a run ended, and all that the world handed out to it.
ghost use Rattle.std.specs.Prelude.{◌≡◌, [], None, Some};
ghost use Rattle.rtb_io.specs.Statuses.{code_of};

use exchange_state::ExchangeState;
use hist_lock::Past;
use link_door::World;
use rtb_io::Status;
use rtb_num::List;
use std::alloc::Global;

/// How a run ended, and all that the world handed out to it.
#[derive(Drop)]
pub struct Outcome<W: World> {
    /// The status, which the program gives to the system.
    pub status: u8,
    /// The doors, in the order in which the world gave them.
    pub doors: List<W::Door>,
    /// The disk of the journal; of `compact`, of the one that is written.
    pub disk: Option<W::Disk>,
    /// The disk of the journal that `compact` reads.
    pub other: Option<W::Disk>,
    /// The same, once nobody else writes it, of `compact` beside a server.
    pub last: Option<W::Disk>,
    /// The history of the exchange, where `serve` opened one.
    pub past: Option<Past<ExchangeState<W::Disk>>>,
}

impl<W: World> Outcome<W> {
    /// A run that was handed out nothing.
    pub fn without_world(alloc: Global, status: u8) -> Outcome<W>
        ensures status { result.status ≡ status }
        ensures doors { result.doors ≡ [] }
        ensures disk { result.disk ≡ None }
        ensures other { result.other ≡ None }
        ensures last { result.last ≡ None }
        ensures past { result.past ≡ None }
    {
        Outcome {
            status,
            doors: List::new(alloc),
            disk: None,
            other: None,
            last: None,
            past: None,
        }
    }

    /// A run that was handed out a disk, and no door.
    pub fn with_disk(alloc: Global, status: Status, disk: W::Disk) -> Outcome<W>
        ensures status { result.status ≡ code_of status }
        ensures doors { result.doors ≡ [] }
        ensures disk { result.disk ≡ Some disk }
        ensures other { result.other ≡ None }
        ensures last { result.last ≡ None }
        ensures past { result.past ≡ None }
    {
        Outcome {
            status: status.code(),
            doors: List::new(alloc),
            disk: Some(disk),
            other: None,
            last: None,
            past: None,
        }
    }

    /// A run that was handed out the disk of a journal to read, and no more or one to write, and no door.
    pub fn with_other(
        alloc: Global,
        status: Status,
        other: W::Disk,
        disk: Option<W::Disk>,
    ) -> Outcome<W>
        ensures status { result.status ≡ code_of status }
        ensures doors { result.doors ≡ [] }
        ensures disk { result.disk ≡ disk }
        ensures other { result.other ≡ Some other }
        ensures last { result.last ≡ None }
        ensures past { result.past ≡ None }
    {
        Outcome {
            status: status.code(),
            doors: List::new(alloc),
            disk,
            other: Some(other),
            last: None,
            past: None,
        }
    }

    /// A run that was handed out the disk of a journal to read, one to write, and that of the journal once more or not, and
    /// no door.
    pub fn with_last(
        alloc: Global,
        status: Status,
        other: W::Disk,
        disk: W::Disk,
        last: Option<W::Disk>,
    ) -> Outcome<W>
        ensures status { result.status ≡ code_of status }
        ensures doors { result.doors ≡ [] }
        ensures disk { result.disk ≡ Some disk }
        ensures other { result.other ≡ Some other }
        ensures last { result.last ≡ last }
        ensures past { result.past ≡ None }
    {
        Outcome {
            status: status.code(),
            doors: List::new(alloc),
            disk: Some(disk),
            other: Some(other),
            last,
            past: None,
        }
    }

    /// A run that was handed out a disk and these doors, and opened no exchange.
    pub fn with_doors(status: Status, doors: List<W::Door>, disk: W::Disk) -> Outcome<W>
        ensures status { result.status ≡ code_of status }
        ensures doors { result.doors ≡ doors }
        ensures disk { result.disk ≡ Some disk }
        ensures other { result.other ≡ None }
        ensures last { result.last ≡ None }
        ensures past { result.past ≡ None }
    {
        Outcome {
            status: status.code(),
            doors,
            disk: Some(disk),
            other: None,
            last: None,
            past: None,
        }
    }

    /// A run that opened an exchange, with these doors or none.
    pub fn with_past(
        status: Status,
        doors: List<W::Door>,
        disk: W::Disk,
        past: Past<ExchangeState<W::Disk>>,
    ) -> Outcome<W>
        ensures status { result.status ≡ code_of status }
        ensures doors { result.doors ≡ doors }
        ensures disk { result.disk ≡ Some disk }
        ensures other { result.other ≡ None }
        ensures last { result.last ≡ None }
        ensures past { result.past ≡ Some past }
    {
        Outcome {
            status: status.code(),
            doors,
            disk: Some(disk),
            other: None,
            last: None,
            past: Some(past),
        }
    }
}
