// What a call left beside what was recorded, and what else ends a replay.
ghost use Rattle.std.specs.Prelude.{◌↔◌, IsOk};
ghost use Rattle.replay.specs.Same.{Same};

use std::{fmt, io};

// In what a call differs from the record of it, or what is wrong with the list there.
#[derive(Clone, Copy, Debug, PartialEq, Eq)]
pub enum Fault {
    OtherNumber,
    OtherDetail,
    OtherWork,
    OtherAnswer,
    CutOff,
    TooLong,
    NotWhole,
}

impl fmt::Display for Fault {
    fn fmt<W: fmt::Write>(&self, f: &mut fmt::Formatter<W>) -> fmt::Result {
        f.write_str(match self {
            Fault::OtherNumber => "other number",
            Fault::OtherDetail => "other detail",
            Fault::OtherWork => "other work",
            Fault::OtherAnswer => "other answer",
            Fault::CutOff => "the list is cut off",
            Fault::TooLong => "an item too long",
            Fault::NotWhole => "an item that is not whole",
        })
    }
}

// What ends a replay before the list does.
#[derive(Debug, Drop)]
pub enum Stop {
    Fault(Fault),
    Stream(io::Error),
}

impl From<Fault> for Stop {
    fn from(fault: Fault) -> Stop {
        Stop::Fault(fault)
    }
}

impl From<io::Error> for Stop {
    fn from(error: io::Error) -> Stop {
        Stop::Stream(error)
    }
}

// What a call leaves: its number and detail, work, and the answer, marks or cards.
#[derive(Clone, Copy)]
pub struct Left<'a> {
    pub number: u32,
    pub detail: u64,
    pub work: &'a [u8],
    pub out: &'a [u8],
}

// Ok just where all is as it was recorded.
pub fn compare(left: &Left, want: &Left) -> Result<(), Fault>
    ensures { IsOk result
        ↔ Same left.now.number left.now.detail left.now.work.now left.now.out.now want.now.number
        want.now.detail want.now.work.now want.now.out.now }
{
    if left.number != want.number {
        return Err(Fault::OtherNumber);
    }
    if left.detail != want.detail {
        return Err(Fault::OtherDetail);
    }
    if left.work != want.work {
        return Err(Fault::OtherWork);
    }
    if left.out != want.out {
        return Err(Fault::OtherAnswer);
    }
    Ok(())
}
