// Reads a recorded list of calls from standard input, makes each call, and says where one first
// leaves something else than was recorded; else the counts by call and number. tests/record makes
// the list, and tests/driver/record.rs says how it is laid out.
#![tactic(auto)]

mod calls;
mod compare;
mod input;
mod pieces;
mod reading;
mod summary;

ghost use Rattle.std.specs.Prelude.{◌≡◌, length};

use calls::replay_call;
use compare::{Fault, Stop};
use input::Held;
use reading::{Kind, read_item};
use std::io;
use std::io::Read;
use summary::Counts;

// Holds the input of an item, or makes its call and counts it.
fn act(item: &[u8], held: &mut Held, counts: &mut Counts) -> Result<(), Fault> {
    let kind = item.first().ok_or(Fault::NotWhole)?;
    match Kind::try_from(*kind)? {
        Kind::Input => held.read(item),
        Kind::Call(call) => {
            let number = replay_call(call, item, held.input())?;
            counts.add(call, number);
            Ok(())
        }
    }
}

// Nothing says that the input ends, so the items are counted, up to more than a list has.
fn replay(
    rt: &impl Print,
    list: &mut impl Read,
    item: &mut [u8],
    held: &mut Held,
    counts: &mut Counts,
) -> Result<(), Stop>
    ensures { length item.new ≡ length item.old }
{
    for _ in 0..u64::MAX {
        let Some(n) = read_item(list, item)? else {
            counts.print(rt)?;
            break;
        };
        act(&item[..n], held, counts)?;
    }
    Ok(())
}

// A read or a write that fails ends it with that error.
fn main(rt: HostRuntime) -> io::Result<()> {
    let mut item = [0; 65536];
    let mut held = Held::empty();
    let mut counts = Counts::none();
    match replay(&rt, &mut rt.reader(), &mut item, &mut held, &mut counts) {
        Ok(()) => Ok(()),
        Err(Stop::Fault(fault)) => {
            let call = counts.next();
            println!(rt; "call {call}: {fault}")
        }
        Err(Stop::Stream(error)) => Err(error),
    }
}
