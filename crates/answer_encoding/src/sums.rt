// How many there are of several.
ghost use Rattle.std.specs.Prelude.{◌≡◌, ◌*◌, ◌≤◌, length};
ghost use Rattle.answer_sources.specs.Laying.{sum_below, elements};
ghost use Rattle.answer_encoding.specs.Pieces.{cited_total};

use crate::reads::read_or;
use crate::runs::run_length;
use answer_gathering::observations::Observations;

pub fn sum_first(xs: &[u32], n: usize) -> usize
    requires { n ≤ 256 }
    ensures { result ≡ sum_below (elements xs.now) n }
{
    let mut t: usize = 0;
    for i in 0..n {
        t += read_or(xs, i, 0) as usize;
    }
    t
}

// The sources of the first n observations.
pub fn sum_runs(seen: &[u32], n: usize, o: Observations) -> usize
    requires { (n ≤ 1280) × (length o.keys.now ≤ 4096) }
    ensures { (result ≡ cited_total seen.now o.entry.starts.now o.entry.counts.now o.entry.keys.now n) × (result ≤ n * 4096) }
{
    let mut t: usize = 0;
    for i in 0..n {
        let p = read_or(seen, i, 0) as usize;
        t += run_length(o, p) as usize;
    }
    t
}
