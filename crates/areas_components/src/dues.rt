// The due bytes: what of the open bytes is left to join once the runs are, in products of 0 and 1.
ghost use Rattle.std.specs.Prelude.{◌≡◌, Bool, not, ◌&&◌, List, ℕ, ◌+◌, ◌*◌, ◌%◌, ◌≤◌, ◌<◌, eqb, length};
ghost use Rattle.areas.specs.Open.{bit_of};
ghost use Rattle.wire.specs.Bytes.{part, splice};
ghost use Rattle.areas_components.specs.Dues.{due_of, byte_in, before_in, due_byte, dues, DueTo};

use crate::cells::CellBytes;

fn bit(x: u8) -> u8
    ensures { (result ≡ bit_of (eqb (x % 2) 1)) × (result ≤ 1) }
{
    x % 2
}

fn both(a: u8, b: u8) -> u8
    requires { (a ≤ 1) × (b ≤ 1) }
    ensures { ((s t : Bool) → a ≡ bit_of s → b ≡ bit_of t → result ≡ bit_of (s && t)) × (result ≤ 1) }
{
    a * b
}

fn but_not(a: u8, b: u8) -> u8
    requires { (a ≤ 1) × (b ≤ 1) }
    ensures { ((s t : Bool) → a ≡ bit_of s → b ≡ bit_of t → result ≡ bit_of (s && not t)) × (result ≤ 1) }
{
    a * (1 - b)
}

// The due byte of a cell of byte v; l is the byte of the cell before, d that of the cell below, and e that of the one before it.
fn due_of(v: u8, l: u8, e: u8, d: u8) -> u8
    ensures { result ≡ due_of v l e d }
{
    let below = bit(v / 4);
    let under = bit(e);
    let round = both(bit(l), bit(l / 4));
    let left = but_not(but_not(bit(v / 2), round), both(below, under));
    let down = but_not(below, both(round, under));
    let right = but_not(bit(v / 8), both(below, bit(d)));
    2 * left + 4 * down + 8 * right
}

impl CellBytes {
    // The open byte of cell k, and of the one before it; 0 where there is none.
    fn byte_at(self, work: &[u8], k: usize) -> u8
        requires { self.base + self.n ≤ length work.now }
        ensures { result ≡ byte_in (part work.now self.base self.n) k }
    {
        if k < self.n {
            return work[self.base + k];
        }
        0
    }

    fn byte_before(self, work: &[u8], k: usize) -> u8
        requires { self.base + self.n ≤ length work.now }
        ensures { result ≡ before_in (part work.now self.base self.n) k }
    {
        if k == 0 {
            return 0;
        }
        self.byte_at(work, k - 1)
    }

    // The due byte of any cell, and of one that is not the first and has a cell below it. Two, not one: the second has no tests, and most cells are such.
    fn due_any(self, work: &[u8], i: usize) -> u8
        requires { (self.base + self.n ≤ length work.now) × (i + self.width < 4294967296) }
        ensures { result ≡ due_byte self.width (part work.now self.base self.n) i }
    {
        let v = self.byte_at(work, i);
        let l = self.byte_before(work, i);
        let e = self.byte_before(work, i + self.width);
        due_of(v, l, e, self.byte_at(work, i + self.width))
    }

    fn due_inner(self, work: &[u8], i: usize) -> u8
        requires { (self.base + self.n ≤ length work.now) × (0 < i) × (i + self.width < self.n) }
        ensures { result ≡ due_byte self.width (part work.now self.base self.n) i }
    {
        let at = self.base + i;
        due_of(
            work[at],
            work[at - 1],
            work[at + self.width - 1],
            work[at + self.width],
        )
    }

    // Writes the due bytes of the cells from `from` up to `to`, each as the closure gives it.
    fn write_some<F: Fn(&[u8], usize) -> u8>(self, work: &mut [u8], from: usize, to: usize, due: F)
        requires in_bounds { (self.base + 2 * self.n ≤ length work.old) × (from ≤ to) × (to ≤ self.n) }
        requires callable { (w : _) (i : ℕ) → self.base + self.n ≤ length w.now → from ≤ i → i < to → F.pre due w i }
        requires gives_due { (w : _) (i b : ℕ) → self.base + self.n ≤ length w.now → from ≤ i → i < to → F.post due w i b
            → b ≡ due_byte self.width (part w.now self.base self.n) i }
        ensures { (s : List ℕ) → DueTo self.n self.width self.base from s work.old → DueTo self.n self.width self.base to s work.new }
    {
        for i in from..to {
            let byte = due(work, i);
            work[self.base + self.n + i] = byte;
        }
    }
}

// Writes the due bytes of n cells after their open bytes, which stand from `base` on.
pub fn write_dues(work: &mut [u8], base: usize, n: usize, width: usize)
    requires { (base + 2 * n ≤ length work.old) × (n + width < 4294967296) }
    ensures { work.new ≡ splice work.old (base + n) (dues width (part work.old base n)) }
{
    let cells = CellBytes { base, n, width };
    let any = |bytes: &[u8], i: usize| cells.due_any(bytes, i);
    let inner = |bytes: &[u8], i: usize| cells.due_inner(bytes, i);
    if n <= width {
        cells.write_some(work, 0, n, any);
        return;
    }
    cells.write_some(work, 0, 1, any);
    cells.write_some(work, 1, n - width, inner);
    cells.write_some(work, n - width, n, any);
}
