// Why a call declines: the numbers of document 01 and of the requests of document 02, each by a name. Nothing has number 9, which request
// 2.2 took out. In specs/, Numbers says that no two refusals have one number, and what an answer is by number.

#![tactic(auto)]

ghost use Rattle.std.specs.Prelude.{◌≡◌};

use std::fmt;

// A refusal.
#[derive(Clone, Copy)]
pub enum Refusal {
    // the description
    Bytes = 1,
    Sizes = 2,
    Length = 3,
    Range = 4,
    Bounds = 5,
    Instances = 6,
    PlaceRank = 7,
    StillIncrement = 8,
    Processes = 10,
    MapRank = 11,
    StillLine = 12,
    Move = 13,
    Hop = 14,
    Order = 15,
    Loading = 16,
    Untouched = 17,
    // what a call is lent
    Rows = 18,
    Pipe = 19,
    Values = 20,
    State = 21,
    Unsound = 22,
    NoStep = 23,
    NotReady = 24,
    NotOut = 25,
    Received = 26,
    Words = 27,
    Output = 28,
    // what it is told
    Seed = 29,
    Made = 30,
    Room = 31,
    Board = 33,
    Entries = 34,
}

impl Refusal {
    ghost use Rattle.refusals.specs.Numbers.{number_of};

    // Its number in the documents.
    pub fn number(self) -> u32
        ensures { result ≡ number_of self }
    {
        self as u32
    }
}

// Its number is what programs print of it.
impl fmt::Display for Refusal {
    fn fmt<W: fmt::Write>(&self, f: &mut fmt::Formatter<W>) -> fmt::Result {
        write!(f, "{}", self.number())
    }
}
