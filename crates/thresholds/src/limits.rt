// The limits that a block has, and the block of those of source document 000.
ghost use Rattle.std.specs.Prelude.{◌≡◌, false, ◌≤◌, length};
ghost use Rattle.wire.specs.Bytes.{splice};
ghost use Rattle.serial_links.specs.HeldLimits.{limits_of};
ghost use Rattle.thresholds.specs.Block.{block_size, block_fault, limits_in, numbers000, block000};

use crate::block::{Block, read_block, write_block};
use crate::{NUMBER_COUNT, NUMBER_OFFSET};
use serial_links::geometry::width_of;
use serial_links::limits::Limits;

pub fn read_limits(block: &[u8]) -> Limits
    requires { block_fault block.now ≡ false }
    ensures { limits_of result ≡ limits_in block.now }
{
    let b = read_block(block);
    Limits {
        least_spans: b.smallest,
        most_spans: b.largest,
        chain: width_of(b.chain),
        width: width_of(b.width),
        geometry: width_of(b.geometry),
        duplicate: width_of(b.duplicate),
        envelope: width_of(b.envelope),
        cosine: width_of(b.cosine),
    }
}

fn numbers_of_000() -> Block
    ensures { result ≡ numbers000 }
{
    let l = Limits::of_000();
    Block {
        count: NUMBER_COUNT,
        offset: NUMBER_OFFSET,
        smallest: l.least_spans,
        largest: l.most_spans,
        chain: f64::to_bits(l.chain),
        width: f64::to_bits(l.width),
        geometry: f64::to_bits(l.geometry),
        duplicate: f64::to_bits(l.duplicate),
        envelope: f64::to_bits(l.envelope),
        cosine: f64::to_bits(l.cosine),
    }
}

// Writes the block of source document 000 at the start of a slice.
pub fn write_000(block: &mut [u8])
    requires { block_size ≤ length block.old }
    ensures { block.new ≡ splice block.old 0 block000 }
{
    write_block(block, numbers_of_000());
}
