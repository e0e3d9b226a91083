// The walk in depth, from every record.
ghost use Rattle.std.specs.Prelude.{◌≡◌, ℕ, ◌+◌, ◌≤◌, ◌<◌, length};
ghost use Rattle.lists.specs.Rows.{at};
ghost use Rattle.graph.specs.Records.{records_in};
ghost use Rattle.serial_walk.specs.Marks.{bridge_marks};
ghost use Rattle.graph.specs.Slices.{Graph, Owners};
ghost use Rattle.serial_walk.specs.Slices.{Sized, IncidenceLists, Between};

use crate::frame::{after, opened, other_end};
use crate::stack::{enter, leave, load, save, time_of};

// Walks all that is connected with root, an end of record r that was not found before, and marks the bridges there. Gives the time of the last region found.
fn walk(
    owners: &[u32],
    lefts: &[u32],
    rights: &[u32],
    count: u32,
    heads: &[u32],
    left_nexts: &[u32],
    right_nexts: &[u32],
    disc: &mut [u32],
    stack: &mut [u32],
    parents: &mut [u32],
    nexts: &mut [u32],
    lows: &mut [u32],
    marks: &mut [u8; 256],
    r: usize,
    root: u32,
    start: u32,
) -> u32
    requires { Between count (length heads.now) owners.now lefts.now rights.now disc.old stack.old parents.old nexts.old lows.old
        marks.old r start × IncidenceLists count (length heads.now) lefts.now rights.now heads.now left_nexts.now right_nexts.now 0
        × (root < length heads.now) × (at disc.old root ≡ 0) × (root ≡ at lefts.now r) }
    ensures { Between count (length heads.now) owners.now lefts.now rights.now disc.new
        stack.new parents.new nexts.new lows.new marks.new (r + 1) result }
{
    let mut time = start + 1;
    enter(
        disc,
        stack,
        parents,
        nexts,
        lows,
        0,
        opened(heads, root, count, time),
    );
    let mut h: usize = 1;
    'walk: while 0 < h {
        let top = h - 1;
        let mut f = load(stack, parents, nexts, lows, top);
        let mut w = root;
        // The record by break, or count behind the last: the form that document 01 asks for, not an Option.
        let j = loop {
            if count <= f.next {
                break count;
            }
            if f.next != f.parent {
                w = other_end(lefts, rights, f);
                let d = time_of(disc, w);
                if d == 0 {
                    break f.next;
                }
                f = f.lowered(d);
            }
            f = f.next_record(after(lefts, left_nexts, right_nexts, f));
        };
        if j < count {
            save(
                nexts,
                lows,
                top,
                f.next_record(after(lefts, left_nexts, right_nexts, f)),
            );
            time += 1;
            enter(
                disc,
                stack,
                parents,
                nexts,
                lows,
                h,
                opened(heads, w, j, time),
            );
            h += 1;
            continue 'walk;
        }
        if top == 0 {
            h = 0;
            continue 'walk;
        }
        leave(disc, stack, lows, owners, marks, top - 1, f);
        h = top;
    }
    time
}

// Walks from record r, where its end is not found yet.
fn visit(
    owners: &[u32],
    lefts: &[u32],
    rights: &[u32],
    count: u32,
    heads: &[u32],
    left_nexts: &[u32],
    right_nexts: &[u32],
    disc: &mut [u32],
    stack: &mut [u32],
    parents: &mut [u32],
    nexts: &mut [u32],
    lows: &mut [u32],
    marks: &mut [u8; 256],
    r: usize,
    time: u32,
) -> u32
    requires { Between count (length heads.now) owners.now lefts.now rights.now disc.old stack.old parents.old nexts.old lows.old
        marks.old r time × IncidenceLists count (length heads.now) lefts.now rights.now heads.now left_nexts.now right_nexts.now 0
        × (r < count) }
    ensures { Between count (length heads.now) owners.now lefts.now rights.now disc.new
        stack.new parents.new nexts.new lows.new marks.new (r + 1) result }
{
    let root = lefts[r];
    if time_of(disc, root) != 0 {
        return time;
    }
    walk(
        owners,
        lefts,
        rights,
        count,
        heads,
        left_nexts,
        right_nexts,
        disc,
        stack,
        parents,
        nexts,
        lows,
        marks,
        r,
        root,
        time,
    )
}

// Walks from every record, and marks the bridges, where no region is found yet.
pub fn walk_all(
    owners: &[u32],
    lefts: &[u32],
    rights: &[u32],
    count: u32,
    heads: &[u32],
    left_nexts: &[u32],
    right_nexts: &[u32],
    disc: &mut [u32],
    stack: &mut [u32],
    parents: &mut [u32],
    nexts: &mut [u32],
    lows: &mut [u32],
    marks: &mut [u8; 256],
)
    requires { Graph count (length heads.now) lefts.now rights.now × Owners count owners.now × (count ≤ length owners.now)
        × IncidenceLists count (length heads.now) lefts.now rights.now heads.now left_nexts.now right_nexts.now 0
        × Sized (length heads.now) disc.old stack.old parents.old nexts.old lows.old × ((x : ℕ) → at disc.old x ≡ 0) }
    ensures { marks.new ≡ bridge_marks (records_in owners.now lefts.now rights.now count) 256 }
{
    *marks = [0u8; 256];
    let mut time = 0;
    for r in 0..count as usize {
        time = visit(
            owners,
            lefts,
            rights,
            count,
            heads,
            left_nexts,
            right_nexts,
            disc,
            stack,
            parents,
            nexts,
            lows,
            marks,
            r,
            time,
        );
    }
}
