// What was called, and what is printed of it.
ghost use Rattle.std.specs.Prelude.{◌≡◌, ◌+◌, ◌*◌, ◌<◌};
ghost use Rattle.replay.specs.Kinds.{call_byte};

use crate::calls::{Call, NUMBERS};
use std::io;

// The calls made, in all and by call and number.
#[derive(Drop)]
pub struct Counts {
    calls: u64,
    by_number: [u64; 132],
}

// The place of a call's count.
fn place(call: Call, number: u32) -> usize
    requires { number < 33 }
    ensures { (result ≡ call_byte call * 33 + number) × (result < 132) }
{
    call as usize * NUMBERS as usize + number as usize
}

impl Counts {
    pub fn none() -> Counts {
        Counts {
            calls: 0,
            by_number: [0; 132],
        }
    }

    // The number of the next call, from 1, as far as it goes.
    pub fn next(&self) -> u64
        ensures { self.now.calls < u64.MAX → result ≡ self.now.calls + 1 }
    {
        self.calls.saturating_add(1)
    }

    pub fn add(&mut self, call: Call, number: u32)
        requires { number < 33 }
        ensures { self.old.calls < u64.MAX → self.new.calls ≡ self.old.calls + 1 }
    {
        self.calls = self.next();
        let i = place(call, number);
        self.by_number[i] = self.by_number[i].saturating_add(1);
    }

    // The counts by call and number that aren't 0, after the last call.
    pub fn print(&self, rt: &impl Print) -> io::Result<()> {
        for call in [
            Call::Reduce,
            Call::ReduceByList,
            Call::Mark,
            Call::AreaCards,
        ] {
            for number in 0..NUMBERS {
                let n = self.by_number[place(call, number)];
                if n != 0 {
                    println!(rt; "{call} {number}: {n}")?;
                }
            }
        }
        let calls = self.calls;
        println!(rt; "all {calls} calls as recorded")
    }
}
