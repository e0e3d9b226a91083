// A kept boundary's own sources, from their places among the job's.
ghost use Rattle.std.specs.Prelude.{◌≡◌};
ghost use mathlib.Core.List.{flat_map};
ghost use Rattle.wire.specs.Bytes.{splice};
ghost use Rattle.format.specs.Records.{source_bytes};
ghost use Rattle.answer_sorting.specs.Parts.{placed_sources};
ghost use Rattle.answer_encoding.specs.Pieces.{own_piece};
ghost use Rattle.answer_encoding.specs.Answered.{OwnPieceRoom};

use crate::reads::read_or;
use answer_sorting::sources::sort_sources;
use format::SOURCE_SIZE;
use wire::{read_u64, write_u64};

// The sources at n places, in the places' order.
fn write_places(s: &mut [u8], at: usize, job: &[u8], from: usize, owned: &[u16], a: usize, n: usize)
    requires { OwnPieceRoom job.now from owned.now a n at s.old }
    ensures { s.new ≡ splice s.old at (flat_map source_bytes (placed_sources job.now from owned.now a n)) }
{
    for i in 0..n {
        let p = from + read_or(owned, a + i, 0) as usize * SOURCE_SIZE;
        write_u64(s, at + i * SOURCE_SIZE, read_u64(job, p));
    }
}

// The same sources in order: they are sorted where they were written.
pub fn write_own(
    s: &mut [u8],
    at: usize,
    job: &[u8],
    from: usize,
    owned: &[u16],
    a: usize,
    n: usize,
)
    requires { OwnPieceRoom job.now from owned.now a n at s.old }
    ensures { s.new ≡ splice s.old at (own_piece job.now from owned.now a n) }
{
    write_places(s, at, job, from, owned, a, n);
    sort_sources(s, at, n);
}
