// A block of thresholds as numbers, read from its bytes and written to them.
ghost use Rattle.std.specs.Prelude.{◌≡◌, ◌+◌, ◌≤◌, length};
ghost use Rattle.wire.specs.Bytes.{splice};
ghost use Rattle.thresholds.specs.Block.{block_size, block_at, block_bytes, head_bytes, number_bytes};

use wire::{read_u32, read_u64, write_u32, write_u64};

// Two words, two group sizes, and the bits of six f64.
#[derive(Clone, Copy)]
pub struct Block {
    pub count: u32,
    pub offset: u32,
    pub smallest: u32,
    pub largest: u32,
    pub chain: u64,
    pub width: u64,
    pub geometry: u64,
    pub duplicate: u64,
    pub envelope: u64,
    pub cosine: u64,
}

pub fn read_block(block: &[u8]) -> Block
    requires { block_size ≤ length block.now }
    ensures { result ≡ block_at block.now }
{
    Block {
        count: read_u32(block, 0),
        offset: read_u32(block, 4),
        smallest: read_u32(block, 8),
        largest: read_u32(block, 12),
        chain: read_u64(block, 16),
        width: read_u64(block, 24),
        geometry: read_u64(block, 32),
        duplicate: read_u64(block, 40),
        envelope: read_u64(block, 48),
        cosine: read_u64(block, 56),
    }
}

// The two words and the group sizes.
fn write_head(block: &mut [u8], b: Block)
    requires { block_size ≤ length block.old }
    ensures { block.new ≡ splice block.old 0 (head_bytes b) }
{
    write_u32(block, 0, b.count);
    write_u32(block, 4, b.offset);
    write_u32(block, 8, b.smallest);
    write_u32(block, 12, b.largest);
}

// The six f64.
fn write_numbers(block: &mut [u8], b: Block)
    requires { block_size ≤ length block.old }
    ensures { block.new ≡ splice block.old 16 (number_bytes b) }
{
    write_u64(block, 16, b.chain);
    write_u64(block, 24, b.width);
    write_u64(block, 32, b.geometry);
    write_u64(block, 40, b.duplicate);
    write_u64(block, 48, b.envelope);
    write_u64(block, 56, b.cosine);
}

// Writes a block at the start of a slice.
pub fn write_block(block: &mut [u8], b: Block)
    requires { block_size ≤ length block.old }
    ensures { block.new ≡ splice block.old 0 (block_bytes b) }
{
    write_head(block, b);
    write_numbers(block, b);
}
