// The block of source document 000's thresholds, as choke-list lends it.
ghost use Rattle.std.specs.Prelude.{◌≡◌, length};
ghost use Rattle.thresholds.specs.Block.{block000};
ghost use Rattle.probe.specs.Probe.{put_first, length_where_fits};

use thresholds::{BLOCK_SIZE, write_000};

// The block at the start of a slice that has room for it, and its length; 0 where there is none.
pub fn probe_thresholds(block: &mut [u8]) -> u64
    ensures { (result ≡ length_where_fits block.old block000) × (block.new ≡ put_first block.old block000) }
{
    if block.len() < BLOCK_SIZE {
        return 0;
    }
    write_000(block);
    BLOCK_SIZE as u64
}
