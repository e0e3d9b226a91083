// Each one's sources, sorted and each once, where they stand.
ghost use Rattle.std.specs.Prelude.{◌+◌};
ghost use Rattle.answer_sources.specs.Squeezed.{PartsRoom, Squeezed};

use sorting::numbers::sort_unique;

pub fn sort_parts(keys: &mut [u64], spare: &mut [u64], starts: &[u32], counts: &mut [u32], n: usize)
    requires { PartsRoom keys.old spare.old starts.now counts.old n }
    ensures { Squeezed starts.now keys.old counts.old keys.new counts.new n }
{
    for q in 0..n {
        let a = starts[q] as usize;
        let e = sort_unique(keys, spare, a, a + counts[q] as usize);
        counts[q] = (e - a) as u32;
    }
}
