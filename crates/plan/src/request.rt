// What is asked of a plan in a list, and what is answered.
use line::TurnRefusal;

// A request. Slips lie in slots: judging puts one into a slot, booking and withdrawing take one
// from a slot.
#[derive(Clone, Copy, PartialEq, Eq, Debug)]
pub enum Request {
    Word { designer: u8, word: u16 },
    Judge { designer: u8, slot: usize },
    Book { slot: usize },
    Withdraw { slot: usize },
    Clear { designer: u8 },
}

// What a request was answered.
#[derive(Clone, Copy, PartialEq, Eq, Debug)]
pub enum Reply {
    // the word was taken, with so many reductions
    Taken(u16),
    // the slip lies in the slot
    Judged,
    // the slip is spent; so many lines were booked since the opening
    Booked(u64),
    // the slip is spent
    Withdrawn,
    Cleared,
    // the turn was refused; a slip lies in its slot as before
    Refused(TurnRefusal),
    // no turn was made: there is no slot with this number
    NoSlot,
    // no turn was made: the slot has a slip, where one would be put
    FullSlot,
    // no turn was made: the slot has no slip, where one is wanted
    EmptySlot,
}

// A request with its reply, none before it is made.
#[derive(Clone, Copy, PartialEq, Eq, Debug)]
pub struct Asked {
    pub request: Request,
    pub reply: Option<Reply>,
}
