// A run is cells one after another, each joined to the next by an open step to the right: its first cell becomes the parent of each.
ghost use Rattle.std.specs.Prelude.{◌≡◌, cond, ℕ, ◌+◌, ◌*◌, ◌≤◌, ◌<◌, length};
ghost use Rattle.areas.specs.Words.{word};
ghost use Rattle.wire.specs.Bytes.{part};
ghost use Rattle.areas_components.specs.Dues.{run_start};
ghost use Rattle.areas_components.specs.Forests.{Kept};

use crate::parents::set_parent;

// A function, not an `if` in place: the loop has one case, by `cond`.
fn pick(t: bool, a: usize, b: usize) -> usize
    ensures { result ≡ cond t a b }
{
    if t { a } else { b }
}

// The open bytes stand from `base` on.
pub fn run_parents(work: &mut [u8], base: usize, n: usize)
    requires { (4 * n ≤ base) × (base + n ≤ length work.old) × (n ≤ 1048576) }
    ensures { Kept n work.old work.new
        × ((i : ℕ) → i < n → word work.new i ≡ run_start (part work.old base n) i) }
{
    let mut first: usize = 0;
    let mut joined = false;
    for i in 0..n {
        first = pick(joined, first, i);
        set_parent(work, i, first);
        joined = work[base + i] % 2 == 1;
    }
}
