// An input: the job, the list and the block of thresholds that the calls after it are made on.
ghost use Rattle.std.specs.Prelude.{◌≡◌, ◌+◌, ◌≤◌, IsOk, take, drop};
ghost use Rattle.wire.specs.Bytes.{u32_at};

use crate::compare::Fault;
use crate::pieces::expand_all;
use wire::read_u32;

// Bytes before those of the job.
const FIELDS: usize = 13;

// The most bytes of an input.
const MOST: usize = 65536;

#[derive(Clone, Copy)]
pub struct Input<'a> {
    pub job: &'a [u8],
    pub list: &'a [u8],
    pub thresholds: &'a [u8],
}

// The lengths of an input's parts.
#[derive(Clone, Copy)]
struct Lengths {
    job: usize,
    list: usize,
    thresholds: usize,
    ghost fits: { job + list + thresholds ≤ 65536 },
}

// The input that was read last: its parts, one behind another, and their lengths.
// An array of fixed length and lengths, not Vecs: there is no heap.
#[derive(Drop)]
pub struct Held {
    bytes: [u8; MOST],
    lengths: Lengths,
}

impl Held {
    pub fn empty() -> Held {
        Held {
            bytes: [0; MOST],
            lengths: Lengths {
                job: 0,
                list: 0,
                thresholds: 0,
            },
        }
    }

    // Reads an input; the lengths are the item's numbers.
    pub fn read(&mut self, item: &[u8]) -> Result<(), Fault>
        ensures { IsOk result → (self.new.lengths.job ≡ u32_at item.now 1) × (self.new.lengths.list ≡ u32_at item.now 5)
            × (self.new.lengths.thresholds ≡ u32_at item.now 9) }
    {
        if item.len() < FIELDS {
            return Err(Fault::NotWhole);
        }
        let job = read_u32(item, 1) as usize;
        let list = read_u32(item, 5) as usize;
        let thresholds = read_u32(item, 9) as usize;
        let all = job + list + thresholds;
        if MOST < all {
            return Err(Fault::NotWhole);
        }
        self.lengths = Lengths {
            job,
            list,
            thresholds,
        };
        expand_all(&item[FIELDS..], &mut self.bytes[..all])
    }

    pub fn input(&self) -> Input<'_>
        ensures { let l = self.now.lengths in (result.job.now ≡ take l.job self.now.bytes)
            × (result.list.now ≡ take l.list (drop l.job self.now.bytes))
            × (result.thresholds.now ≡ take l.thresholds (drop l.list (drop l.job self.now.bytes))) }
    {
        let (job, rest) = self.bytes.split_at(self.lengths.job);
        let (list, rest) = rest.split_at(self.lengths.list);
        Input {
            job,
            list,
            thresholds: &rest[..self.lengths.thresholds],
        }
    }
}
