// Refusal 32: what is wrong with a block.
ghost use Rattle.std.specs.Prelude.{◌≡◌, [], ◌∷◌};
ghost use Rattle.checks.specs.Checks.{first_refusal};
ghost use Rattle.checks.specs.Verdict.{meaning};
ghost use Rattle.thresholds.specs.Block.{head_fault, sizes_fault, ranges_fault, thresholds_check};

use crate::block::{Block, read_block};
use crate::{BLOCK_SIZE, LEAST_GROUP, MAX_COSINE_BITS, MOST_GROUP, NUMBER_COUNT, NUMBER_OFFSET};
use checks::Refused;
use format::MAX_WIDTH_BITS;

fn head_fault(b: Block) -> bool
    ensures { result ≡ head_fault b }
{
    if b.count != NUMBER_COUNT {
        return true;
    }
    if b.offset != NUMBER_OFFSET {
        return true;
    }
    false
}

fn sizes_fault(b: Block) -> bool
    ensures { result ≡ sizes_fault b }
{
    if b.smallest < LEAST_GROUP {
        return true;
    }
    if b.largest < b.smallest {
        return true;
    }
    if MOST_GROUP < b.largest {
        return true;
    }
    false
}

fn ranges_fault(b: Block) -> bool
    ensures { result ≡ ranges_fault b }
{
    if MAX_WIDTH_BITS < b.chain {
        return true;
    }
    if MAX_WIDTH_BITS < b.width {
        return true;
    }
    if MAX_WIDTH_BITS < b.geometry {
        return true;
    }
    if MAX_WIDTH_BITS < b.duplicate {
        return true;
    }
    if MAX_WIDTH_BITS < b.envelope {
        return true;
    }
    if MAX_COSINE_BITS < b.cosine {
        return true;
    }
    false
}

pub fn check_thresholds(block: &[u8]) -> Result<(), Refused>
    ensures { meaning result ≡ first_refusal (thresholds_check block.now ∷ []) }
{
    if block.len() != BLOCK_SIZE {
        return Err(Refused::BadThresholds);
    }
    let b = read_block(block);
    if head_fault(b) {
        return Err(Refused::BadThresholds);
    }
    if sizes_fault(b) {
        return Err(Refused::BadThresholds);
    }
    if ranges_fault(b) {
        return Err(Refused::BadThresholds);
    }
    Ok(())
}
