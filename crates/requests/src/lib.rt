// A request, as its six bytes say, and what a call tells: the answers that it may give, and the numbers beside them.
#![tactic(auto)]

ghost use Rattle.std.specs.Prelude.{◌≡◌, Some};
ghost use Rattle.requests.specs.Text.{told_text};
ghost use Rattle.requests.specs.Requests.{number, refusal, code_of, read_request};

use names::{Key, Localities, Locality, Name};
use std::fmt;

// What a call does, in the order of the codes' bytes.
#[derive(Clone, Copy, PartialEq, Eq)]
pub enum Code {
    Forward,
    Backward,
    // Of the named event.
    Rollback,
    // By the named live process.
    Roll,
}

impl Code {
    pub fn of_byte(b: u8) -> Option<Code>
        ensures { result ≡ code_of b }
    {
        match b {
            0 => Some(Code::Forward),
            1 => Some(Code::Backward),
            2 => Some(Code::Rollback),
            3 => Some(Code::Roll),
            _ => None,
        }
    }
}

// What a call is asked. The code is a byte, which may be any: most that takes a request doesn't look at it. A place that the code has no need for is
// none.
#[derive(Clone, Copy)]
pub struct Request {
    pub code: u8,
    pub key: Key,
    // The tuple that an in or a read meets.
    pub used: Key,
    // The fresh keys, and the fresh locality.
    pub first: Key,
    pub second: Key,
    pub place: Locality,
}

impl Request {
    pub const SIZE: usize = 6;

    pub const FORWARD: u8 = 0;

    pub const BACKWARD: u8 = 1;

    pub const ROLLBACK: u8 = 2;

    pub const ROLL: u8 = 3;
}

// Document 01's table, in its order.
#[derive(Clone, Copy, PartialEq, Eq)]
pub enum Answer {
    Done,
    // The script's length or form.
    BadScript,
    // The net is not accepted.
    BadNet,
    // The request's length or a range.
    BadRequest,
    // The key is no live process, or no past one.
    WrongProcess,
    // The process's node is of a kind that the code has nothing to do with.
    WrongNode,
    // A place that is not needed is given, or a needed one is none.
    WrongPlaces,
    // The target or an actual variable is unset, the target is no locality, or the roll's reference is none.
    Unset,
    // The target locality is absent.
    TargetAbsent,
    // The tuple key is no live tuple at the target.
    NoTuple,
    NoMatch,
    // A fresh key is not free, both are equal, or the fresh locality is below 8 or present.
    NotFresh,
    NotUndoable,
}

// What a call tells beside the net: its answer, how many events were undone, and the localities at which a slot became free. No Result: document 01
// gives both numbers with every answer.
#[derive(Clone, Copy)]
pub struct Told {
    pub answer: Answer,
    pub undone: u8,
    pub touched: Localities,
}

// Document 01's number of the answer.
impl From<Answer> for u8 {
    ghost from_gives = { λ a n. n ≡ number a };

    fn from(a: Answer) -> u8 {
        match a {
            Answer::Done => 0,
            Answer::BadScript => 1,
            Answer::BadNet => 2,
            Answer::BadRequest => 3,
            Answer::WrongProcess => 4,
            Answer::WrongNode => 5,
            Answer::WrongPlaces => 6,
            Answer::Unset => 7,
            Answer::TargetAbsent => 8,
            Answer::NoTuple => 9,
            Answer::NoMatch => 10,
            Answer::NotFresh => 11,
            Answer::NotUndoable => 12,
        }
    }
}

// The answer's number, undone in decimal and touched as 8 lower-case hex digits.
impl fmt::Display for Told {
    ghost output = { λ t. Some (told_text t) };

    fn fmt<W: fmt::Write>(&self, f: &mut fmt::Formatter<W>) -> fmt::Result {
        write!(
            f,
            "{} {} {:08x}",
            u8::from(self.answer),
            self.undone,
            self.touched.0
        )
    }
}

// A refusal: nothing is undone or touched.
pub fn refused(answer: Answer) -> Told
    ensures { result ≡ refusal answer }
{
    Told {
        answer,
        undone: 0,
        touched: Localities::EMPTY,
    }
}

// The request that a byte string is; none where it is not six bytes or a name is out of its range.
#[tactic(auto, unfolding(crate::specs::Requests::read_request, crate::specs::Answers::in_range))]
pub fn read_request(b: &[u8]) -> Option<Request>
    ensures { result ≡ read_request b.now }
{
    if b.len() != Request::SIZE {
        return None;
    }
    Code::of_byte(b[0])?;
    Some(Request {
        code: b[0],
        key: Key::of_byte(b[1])?,
        used: Key::or_none(b[2])?,
        first: Key::or_none(b[3])?,
        second: Key::or_none(b[4])?,
        place: Locality::or_none(b[5])?,
    })
}
