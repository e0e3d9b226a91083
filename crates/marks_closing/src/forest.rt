// Trees of joined regions in lent slices, the lower under the higher, with a log by which the last joins are taken back.
ghost use Rattle.std.specs.Prelude.{◌≡◌, ◌+◌, ◌-◌, ◌<◌, length, set};
ghost use Rattle.lists.specs.Rows.{at};
ghost use Rattle.marks_closing.specs.Forest.{HeightTrees, Root};
ghost use Rattle.marks_closing.specs.Tables.{tables, SameSlices};
ghost use Rattle.marks_closing.specs.Log.{forest_tables, raised_height, hung, undone, LogRoom, Undoable, GrownForest, joining};

// The tables of the trees, and the log: for each join the root that went under another, and the height that the other had.
#[derive(Drop)]
pub(crate) struct Forest<'a> {
    pub(crate) parents: &'a mut [u32],
    pub(crate) heights: &'a mut [u32],
    pub(crate) joined: &'a mut [u32],
    pub(crate) earlier: &'a mut [u32],
}

fn raised_over(low: u32, high: u32) -> u32
    requires { high < 4294967295 }
    ensures { result ≡ raised_height low high }
{
    if low == high { high + 1 } else { high }
}

impl Forest<'_> {
    fn parent(&self, x: u32) -> u32
        requires { x < length self.now.parents.now }
        ensures { result ≡ at self.now.parents.now x }
    {
        self.parents[x as usize]
    }

    // Up to the root. The heights only tell that the way ends.
    pub(crate) fn find(&self, x: u32) -> u32
        requires { HeightTrees self.now.parents.now self.now.heights.now × (x < length self.now.parents.now) }
        ensures { Root self.now.parents.now x result }
    {
        let mut here = x;
        let mut up = self.parent(here);
        while up != here {
            here = up;
            up = self.parent(here);
        }
        here
    }

    // Puts the root `low` under the root `high`, as join n of the log.
    fn hang(&mut self, n: usize, low: u32, high: u32)
        requires { LogRoom (tables self.old) n 1 × (low < length self.old.parents.now) × (high < length self.old.parents.now) }
        ensures same_slices { SameSlices self.old self.new }
        ensures hung { tables self.new ≡ hung (tables self.old) n low high }
    {
        let lower = self.heights[low as usize];
        let height = self.heights[high as usize];
        self.joined[n] = low;
        self.earlier[n] = height;
        self.parents[low as usize] = high;
        self.heights[high as usize] = raised_over(lower, height);
    }

    // Makes the trees of two regions one. How long the log is then.
    pub(crate) fn join(&mut self, n: usize, left: u32, right: u32) -> usize
        requires { LogRoom (tables self.old) n 1 × (left < length self.old.parents.now) × (right < length self.old.parents.now) }
        ensures same_slices { SameSlices self.old self.new }
        ensures grown { GrownForest (joining left right) 1 (tables self.old) n (tables self.new) result }
    {
        let a = self.find(left);
        let b = self.find(right);
        if a == b {
            return n;
        }
        if self.heights[a as usize] < self.heights[b as usize] {
            self.hang(n, a, b);
            return n + 1;
        }
        self.hang(n, b, a);
        n + 1
    }

    // Takes one join back: `low` is a root again, and what was its parent has its height of before.
    fn part_again(&mut self, low: u32, height: u32)
        requires { (low < length self.old.parents.now) × (at self.old.parents.now low < length self.old.heights.now) }
        ensures same_slices { SameSlices self.old self.new }
        ensures taken_back { tables self.new ≡ forest_tables (set self.old.parents.now low low) (set self.old.heights.now (at self.old.parents.now low) height)
            self.old.joined.now self.old.earlier.now }
    {
        let high = self.parent(low);
        self.heights[high as usize] = height;
        self.parents[low as usize] = low;
    }

    // Takes joins back, last first, until n are left of m. The loop has the fields in a local forest, and so in registers; behind `self` each
    // would be read anew after every write.
    pub(crate) fn undo(&mut self, n: usize, m: usize)
        requires { Undoable (tables self.old) n m }
        ensures { tables self.new ≡ undone (tables self.old) n (m - n) }
    {
        let mut lent = Forest {
            parents: &mut *self.parents,
            heights: &mut *self.heights,
            joined: &mut *self.joined,
            earlier: &mut *self.earlier,
        };
        for k in (n..m).rev() {
            let low = lent.joined[k];
            let height = lent.earlier[k];
            lent.part_again(low, height);
        }
    }
}
