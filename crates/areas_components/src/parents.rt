// A parent for each cell, no later than the cell itself: a cell that is its own parent is the first of its component.
ghost use Rattle.std.specs.Prelude.{◌≡◌, true, ℕ, ◌+◌, ◌*◌, ◌≤◌, ◌<◌, eqb, length};
ghost use Rattle.areas.specs.Words.{word};
ghost use Rattle.wire.specs.Bytes.{splice, u32_bytes};
ghost use Rattle.areas_components.specs.Forests.{Usable, Kept, Found};
ghost use Rattle.areas_components.specs.Joining.{Joined};

use wire::{read_u32, write_u32};

fn parent(work: &[u8], i: usize) -> usize
    requires { 4 * i + 4 ≤ length work.now }
    ensures { (result ≡ word work.now i) × (result < 4294967296) }
{
    read_u32(work, 4 * i) as usize
}

pub fn set_parent(work: &mut [u8], i: usize, p: usize)
    requires { (4 * i + 4 ≤ length work.old) × (p < 4294967296) }
    ensures { work.new ≡ splice work.old (4 * i) (u32_bytes p) }
{
    write_u32(work, 4 * i, p as u32);
}

// The first cell of the component of a cell. The parents on the way become those of their parents.
pub fn find(work: &mut [u8], i: usize) -> usize
    requires { Usable i work.old }
    ensures { Found i result work.old work.new }
{
    let mut at = i;
    let mut p = parent(work, at);
    while p < at {
        let q = parent(work, p);
        if q == p {
            return p;
        }
        set_parent(work, at, q);
        at = q;
        p = parent(work, at);
    }
    at
}

// Makes the components of two cells one: the smaller of their first cells becomes the parent of the larger.
fn link(work: &mut [u8], i: usize, j: usize)
    requires { Usable i work.old × Usable j work.old }
    ensures { Joined true i j work.old work.new }
{
    let a = find(work, i);
    let b = find(work, j);
    if a < b {
        set_parent(work, b, a);
        return;
    }
    if b < a {
        set_parent(work, a, b);
    }
}

fn same_parent(work: &[u8], i: usize, j: usize) -> bool
    requires { (4 * i + 4 ≤ length work.now) × (4 * j + 4 ≤ length work.now) }
    ensures { result ≡ eqb (word work.now i) (word work.now j) }
{
    parent(work, i) == parent(work, j)
}

// Makes the components of two cells one; cells of one parent are in one component.
pub fn join(work: &mut [u8], i: usize, j: usize)
    requires { Usable i work.old × Usable j work.old }
    ensures { Joined true i j work.old work.new }
{
    if same_parent(work, i, j) {
        return;
    }
    link(work, i, j);
}

// The test comes in: with four `if`s join_bits would have sixteen cases.
pub fn join_if(work: &mut [u8], on: bool, i: usize, j: usize)
    requires { Usable i work.old × (on ≡ true → Usable j work.old) }
    ensures { Joined on i j work.old work.new }
{
    if on {
        join(work, i, j);
    }
}
