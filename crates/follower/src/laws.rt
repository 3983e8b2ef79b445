//! The law that a journal may grow while it is followed.
ghost use Rattle.follower.specs.Growing.{SaysMore, StandsThen, WhereGrown};

/// The law of a journal that grows, with nothing to run: where whole blocks are appended to it, their gates last, what a
/// follower has carried out stays the first effects that it says, and all that it said is a front of what it says then.
pub fn what_was_carried_out_stays()
    ensures stands { WhereGrown StandsThen }
    ensures front { WhereGrown SaysMore }
{}
