// Joins the cells that the open bytes say are joined.
ghost use Rattle.std.specs.Prelude.{◌≡◌, true, List, ℕ, ◌+◌, ◌≤◌, ◌<◌, length, get_or};
ghost use Rattle.wire.specs.Bytes.{part};
ghost use Rattle.areas_components.specs.Joining.{WordsReady, JoinedFrom, Joinable, Joining, JoinedAll};

use crate::cells::CellBytes;
use crate::parents::join_if;

// Bit k of the byte of a cell: to the right; below to the left, below, below to the right.
fn join_bits(work: &mut [u8], width: usize, i: usize, byte: u8)
    requires { (0 < width) × (width < 4294967296) × (i < 1048576) × WordsReady width byte i work.old }
    ensures { JoinedFrom width byte i work.old work.new }
{
    join_if(work, byte % 2 == 1, i, i + 1);
    join_if(work, byte / 2 % 2 == 1, i, i + width - 1);
    join_if(work, byte / 4 % 2 == 1, i, i + width);
    join_if(work, byte / 8 % 2 == 1, i, i + width + 1);
}

fn join_cell(work: &mut [u8], width: usize, i: usize, byte: u8)
    requires { (0 < width) × (width < 4294967296) × (i < 1048576) × WordsReady width byte i work.old }
    ensures { JoinedFrom width byte i work.old work.new }
{
    if byte == 0 {
        return;
    }
    join_bits(work, width, i, byte);
}

// The 64 bytes from `at` on are 0.
fn clear(work: &[u8], at: usize) -> bool
    requires { at + 64 ≤ length work.now }
    ensures { result ≡ true → (k : ℕ) → k < 64 → get_or work.now (at + k) 0 ≡ 0 }
{
    let mut most: u8 = 0;
    for k in 0..64 {
        most = most.max(work[at + k]);
    }
    most == 0
}

impl CellBytes {
    // Joins the cells from `from` up to `to` to those that their bytes lead to.
    fn join_some(self, work: &mut [u8], from: usize, to: usize)
        requires { Joinable self.n self.width self.base work.old × (from ≤ to) × (to ≤ self.n) }
        ensures { (s : List ℕ) → Joining self.n self.width self.base from s work.old → Joining self.n self.width self.base to s work.new }
    {
        for i in from..to {
            let byte = work[self.base + i];
            join_cell(work, self.width, i, byte);
        }
    }

    // Joins 64 cells; there is nothing to do where their bytes are 0.
    fn join_block(self, work: &mut [u8], i: usize)
        requires { Joinable self.n self.width self.base work.old × (i + 64 ≤ self.n) }
        ensures { (s : List ℕ) → Joining self.n self.width self.base i s work.old → Joining self.n self.width self.base (i + 64) s work.new }
    {
        if clear(work, self.base + i) {
            return;
        }
        self.join_some(work, i, i + 64);
    }

    pub(crate) fn join_all(self, work: &mut [u8])
        requires { Joinable self.n self.width self.base work.old }
        ensures { JoinedAll self.n self.width (part work.old self.base self.n) work.old work.new }
    {
        let blocks = self.n / 64;
        for k in 0..blocks {
            self.join_block(work, 64 * k);
        }
        self.join_some(work, 64 * blocks, self.n);
    }
}
