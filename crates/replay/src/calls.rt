// A recorded call: slices filled with a byte are lent to it, and what it leaves is compared.
ghost use Rattle.std.specs.Prelude.{◌≡◌, ◌<◌, ◌≤◌, IfOk, IsOk};

use crate::compare::{Fault, Left, compare};
use crate::input::Input;
use crate::pieces::{expand, expand_all};
use analysis::ChokesResult;
use std::fmt;
use wire::{read_u32, read_u64};

// Numbers that a call may end with.
pub const NUMBERS: u32 = 33;

// The most bytes of work, and of the answer.
const MOST: usize = 65536;

// Bytes before those of work.
const FIELDS: usize = 22;

#[derive(Clone, Copy, Debug, PartialEq, Eq)]
pub enum Call {
    Reduce,
    ReduceByList,
    Mark,
    AreaCards,
}

impl fmt::Display for Call {
    fn fmt<W: fmt::Write>(&self, f: &mut fmt::Formatter<W>) -> fmt::Result {
        f.write_str(match self {
            Call::Reduce => "reduce",
            Call::ReduceByList => "reduce by list",
            Call::Mark => "mark",
            Call::AreaCards => "area cards",
        })
    }
}

impl Call {
    fn make(self, input: Input, work: &mut [u8], out: &mut [u8]) -> ChokesResult {
        let Input {
            job,
            list,
            thresholds,
        } = input;
        match self {
            Call::Reduce => chokes::chokes_reduce(job, thresholds, work, out),
            Call::ReduceByList => chokes::chokes_reduce_by_list(job, list, thresholds, work, out),
            Call::Mark => chokes::chokes_mark(job, work, out),
            Call::AreaCards => chokes::chokes_area_cards(job, work, out),
        }
    }
}

// The record of a call: how many bytes of work and of answer are lent to it, the byte that fills
// them, and what it must leave, of work and answer the pieces.
// `number` is one of the C interface, which the list records.
#[derive(Clone, Copy)]
struct Record<'a> {
    work: usize,
    out: usize,
    byte: u8,
    number: u32,
    detail: u64,
    pieces: &'a [u8],
}

fn read_record(item: &[u8]) -> Result<Record<'_>, Fault>
    ensures { IfOk result (λ r. (r.work ≤ 65536) × (r.out ≤ 65536) × (r.number < 33)) }
{
    if item.len() < FIELDS {
        return Err(Fault::NotWhole);
    }
    let work = read_u32(item, 1) as usize;
    let out = read_u32(item, 5) as usize;
    let number = read_u32(item, 10);
    if NUMBERS <= number || MOST < work || MOST < out {
        return Err(Fault::NotWhole);
    }
    Ok(Record {
        work,
        out,
        byte: item[9],
        number,
        detail: read_u64(item, 14),
        pieces: &item[FIELDS..],
    })
}

// Makes a call; an error where it doesn't leave what is wanted.
fn run(call: Call, input: Input, work: &mut [u8], out: &mut [u8], want: &Left) -> Result<(), Fault>
    ensures { IsOk result → (work.new ≡ want.now.work.now) × (out.new ≡ want.now.out.now) }
{
    let r = call.make(input, work, out);
    let left = Left {
        number: r.number,
        detail: r.detail,
        work,
        out,
    };
    compare(&left, want)
}

// Makes a call on slices of the lengths that were recorded, filled with the byte.
fn run_in(call: Call, input: Input, record: &Record, want: &Left) -> Result<(), Fault>
    requires { (record.now.work ≤ 65536) × (record.now.out ≤ 65536) }
{
    let mut work = [record.byte; MOST];
    let mut out = [record.byte; MOST];
    run(
        call,
        input,
        &mut work[..record.work],
        &mut out[..record.out],
        want,
    )
}

// Makes the call of an item and compares; gives the number that it ended with.
pub fn replay_call(call: Call, item: &[u8], input: Input) -> Result<u32, Fault>
    ensures { IfOk result (λ number. number < 33) }
{
    let record = read_record(item)?;
    let mut work = [0; MOST];
    let work = &mut work[..record.work];
    let mut out = [0; MOST];
    let out = &mut out[..record.out];
    let rest = expand(record.pieces, work)?;
    expand_all(rest, out)?;
    let want = Left {
        number: record.number,
        detail: record.detail,
        work,
        out,
    };
    run_in(call, input, &record, &want)?;
    Ok(record.number)
}
