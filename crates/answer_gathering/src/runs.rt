// Numbers written after those that are there.
ghost use Rattle.std.specs.Prelude.{◌+◌, ◌≤◌, length};
ghost use Rattle.order.specs.Lists.{up_from};
ghost use Rattle.answer_gathering.specs.Runs.{Appended};

// The m places from p on, after the first `to` of `seen`: where they end.
pub fn append_places(p: usize, m: usize, seen: &mut [u32], to: usize) -> usize
    requires { (p + m ≤ 1280) × (to + m ≤ length seen.old) }
    ensures { Appended seen.old to (up_from p m) seen.new result }
{
    for k in 0..m {
        seen[to + k] = (p + k) as u32;
    }
    to + m
}
