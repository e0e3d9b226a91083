// What is read from labels, and zeros.
ghost use Rattle.std.specs.Prelude.{◌≡◌, ◌-◌, ◌*◌, ◌≤◌, length, replicate};
ghost use Rattle.wire.specs.Bytes.{splice};
ghost use Rattle.areas.specs.Areas.{cell_count};
ghost use Rattle.areas.specs.Words.{labels_in};

use wire::read_u32;

// How many of the first n words are the label.
pub fn count_cells(work: &[u8], n: usize, label: u32) -> u32
    requires { (n ≤ 1048576) × (4 * n ≤ length work.now) }
    ensures { result ≡ cell_count (labels_in work.now n) label }
{
    let mut count: u32 = 0;
    for i in 0..n {
        count += u32::from(label == read_u32(work, 4 * i));
    }
    count
}

// Sets the bytes from `from` up to `to` to 0.
pub fn zero_fill(work: &mut [u8], from: usize, to: usize)
    requires { (from ≤ to) × (to ≤ length work.old) }
    ensures { work.new ≡ splice work.old from (replicate (to - from) 0) }
{
    work[from..to].fill(0);
}
