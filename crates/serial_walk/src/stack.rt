// The stack of the walk, in arrays, and the times at which regions were found.
ghost use Rattle.std.specs.Prelude.{◌≡◌, ◌<◌, min, length, set};
ghost use Rattle.lists.specs.Rows.{at};
ghost use Rattle.serial_walk.specs.Slices.{marking};

use crate::frame::Frame;

// When the region was found, 0 if it was not.
// 0, not an Option: the times stand in a lent array of numbers, and `Between` reads 0 there.
pub fn time_of(disc: &[u32], region: u32) -> u32
    requires { region < length disc.now }
    ensures { result ≡ at disc.now region }
{
    disc[region as usize]
}

// The frame at a place of the stack.
pub fn load(stack: &[u32], parents: &[u32], nexts: &[u32], lows: &[u32], top: usize) -> Frame
    requires { (top < length stack.now) × (top < length parents.now) × (top < length nexts.now) × (top < length lows.now) }
    ensures { (result.region ≡ at stack.now top) × (result.parent ≡ at parents.now top) × (result.next ≡ at nexts.now top)
        × (result.low ≡ at lows.now top) }
{
    Frame {
        region: stack[top],
        parent: parents[top],
        next: nexts[top],
        low: lows[top],
    }
}

// Puts a frame at place h of the stack, whose region is found at the time low.
pub fn enter(
    disc: &mut [u32],
    stack: &mut [u32],
    parents: &mut [u32],
    nexts: &mut [u32],
    lows: &mut [u32],
    h: usize,
    f: Frame,
)
    requires { (f.region < length disc.old) × (h < length stack.old) × (h < length parents.old) × (h < length nexts.old)
        × (h < length lows.old) }
    ensures { (disc.new ≡ set disc.old f.region f.low) × (stack.new ≡ set stack.old h f.region)
        × (parents.new ≡ set parents.old h f.parent) × (nexts.new ≡ set nexts.old h f.next)
        × (lows.new ≡ set lows.old h f.low) }
{
    let region = f.region as usize;
    disc[region] = f.low;
    stack[h] = f.region;
    parents[h] = f.parent;
    nexts[h] = f.next;
    lows[h] = f.low;
}

// Keeps what the frame at a place of the stack has come to.
pub fn save(nexts: &mut [u32], lows: &mut [u32], top: usize, f: Frame)
    requires { (top < length nexts.old) × (top < length lows.old) }
    ensures { (nexts.new ≡ set nexts.old top f.next) × (lows.new ≡ set lows.old top f.low) }
{
    nexts[top] = f.next;
    lows[top] = f.low;
}

// Leaves frame f for the one below it, at place up.
pub fn leave(
    disc: &[u32],
    stack: &[u32],
    lows: &mut [u32],
    owners: &[u32],
    marks: &mut [u8; 256],
    up: usize,
    f: Frame,
)
    requires { (up < length stack.now) × (at stack.now up < length disc.now) × (up < length lows.old) × (f.parent < length owners.now)
        × (at owners.now f.parent < 256) }
    ensures low { lows.new ≡ set lows.old up (min (at lows.old up) f.low) }
    ensures mark { marks.new ≡ marking (at disc.now (at stack.now up)) f.low marks.old
        (at owners.now f.parent) }
{
    let low = f.low;
    lows[up] = lows[up].min(low);
    if time_of(disc, stack[up]) < low {
        let parent = f.parent as usize;
        let owner = owners[parent] as usize;
        marks[owner] = 1;
    }
}
