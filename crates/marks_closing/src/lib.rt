// Which boundaries are chokes: closing one, all its records at once, parts the two regions of one of them.
#![tactic(auto)]

mod forest; // the joined regions, with a log
mod ranges; // boundaries closed by halves

ghost use Rattle.std.specs.Prelude.{◌≡◌, ◌≤◌, length};
ghost use Rattle.graph.specs.Records.{records_in};
ghost use Rattle.graph.specs.Slices.{Owners};
ghost use Rattle.marks_closing.specs.Log.{forest_tables};
ghost use Rattle.marks_closing.specs.Marks.{choke_marks};
ghost use Rattle.marks_closing.specs.Ranges.{ListedRecords, ClearedForest, LentTables};

use forest::Forest;
use ranges::Records;

// The number of boundaries that a job can have.
const BOUNDARIES: usize = 256;

// Makes every region a root of height 0.
fn clear(parents: &mut [u32], heights: &mut [u32])
    requires { (length heights.old ≡ length parents.old) × (length parents.old ≤ 8192) }
    ensures { ClearedForest (length parents.old) (length parents.old) parents.new heights.new }
{
    for i in 0..parents.len() {
        parents[i] = i as u32;
        heights[i] = 0;
    }
}

// Marks each boundary that is a choke of the first count records with 1, and every other with 0, on arrays that are lent.
// One by one here: marks lends arrays that have other names in the walk.
pub fn close_boundaries(
    owners: &[u32],
    lefts: &[u32],
    rights: &[u32],
    count: usize,
    parents: &mut [u32],
    heights: &mut [u32],
    joined: &mut [u32],
    earlier: &mut [u32],
    marks: &mut [u8; 256],
)
    requires { Owners count owners.now × ListedRecords owners.now lefts.now rights.now count (length parents.old) × LentTables count
        (forest_tables parents.old heights.old joined.old earlier.old) }
    ensures { marks.new ≡ choke_marks (records_in owners.now lefts.now rights.now count) 256 }
{
    *marks = [0u8; 256];
    clear(parents, heights);
    let mut forest = Forest {
        parents,
        heights,
        joined,
        earlier,
    };
    let records = Records {
        owners,
        lefts,
        rights,
        count,
    };
    records.close_range(0, count, 0, BOUNDARIES, &mut forest, 0, marks);
}
