// Boundaries closed one at a time, by halves: the records of all the others are joined, and no join is made for one boundary alone.
ghost use Rattle.std.specs.Prelude.{◌≡◌, List, ◌+◌, ◌-◌, ◌≤◌, ◌<◌, length, set};
ghost use Rattle.lists.specs.Rows.{at};
ghost use Rattle.graph.specs.Path.{Edge};
ghost use Rattle.graph.specs.Slices.{Graph};
ghost use Rattle.marks_closing.specs.Forest.{HeightTrees, RootedForest};
ghost use Rattle.marks_closing.specs.Log.{LogRoom, GrownForest, adding};
ghost use Rattle.marks_closing.specs.Tables.{tables};
ghost use Rattle.marks_closing.specs.Marks.{bit};
ghost use Rattle.marks_closing.specs.Ranges.{RisingOwners, OwnersSplit, some_parted, OpenRange, ClosedRange};

use crate::forest::Forest;

// Records in the order of their owners: the first `count` places of three slices.
#[derive(Clone, Copy)]
pub(crate) struct Records<'a> {
    pub(crate) owners: &'a [u32],
    pub(crate) lefts: &'a [u32],
    pub(crate) rights: &'a [u32],
    pub(crate) count: usize,
}

impl Records<'_> {
    // Joins the ends of the records from `from` up to `to`. How long the log is then. The fields are in locals, as in `undo`.
    fn join_records(&self, from: usize, to: usize, forest: &mut Forest, n: usize) -> usize
        requires { (from ≤ to) × Graph to (length forest.old.parents.now) self.now.lefts.now self.now.rights.now
            × LogRoom (tables forest.old) n (to - from) }
        ensures { GrownForest (adding self.now.lefts.now self.now.rights.now from (to - from)) (to - from) (tables forest.old) n (tables forest.new) result }
    {
        let lefts = self.lefts;
        let rights = self.rights;
        let mut lent = Forest {
            parents: &mut *forest.parents,
            heights: &mut *forest.heights,
            joined: &mut *forest.joined,
            earlier: &mut *forest.earlier,
        };
        let mut m = n;
        for k in from..to {
            m = lent.join(m, lefts[k], rights[k]);
        }
        m
    }

    // The ends of one of the records from `from` up to `to` have two roots.
    fn parted(&self, from: usize, to: usize, forest: &Forest) -> bool
        requires { (from ≤ to) × Graph to (length forest.now.parents.now) self.now.lefts.now self.now.rights.now
            × HeightTrees forest.now.parents.now forest.now.heights.now }
        ensures { (es : List Edge) → RootedForest es forest.now.parents.now →
            result ≡ some_parted es self.now.lefts.now self.now.rights.now from (to - from) }
    {
        for k in from..to {
            let left = forest.find(self.lefts[k]);
            let right = forest.find(self.rights[k]);
            if left != right {
                return true;
            }
        }
        false
    }

    // The mark of a boundary whose records are those from `from` up to `to`.
    fn mark_one(&self, from: usize, to: usize, forest: &Forest, b: usize, marks: &mut [u8; 256])
        requires { (from ≤ to) × Graph to (length forest.now.parents.now) self.now.lefts.now self.now.rights.now
            × HeightTrees forest.now.parents.now forest.now.heights.now × (b < 256) }
        ensures { (es : List Edge) → RootedForest es forest.now.parents.now →
            marks.new ≡ set marks.old b (bit (some_parted es self.now.lefts.now self.now.rights.now from (to - from))) }
    {
        marks[b] = u8::from(self.parted(from, to, forest));
    }

    // The first record from `from` on whose owner is not below b, or `to`.
    fn first_from(&self, from: usize, to: usize, b: usize) -> usize
        requires { (from ≤ to) × (to ≤ length self.now.owners.now) × RisingOwners to self.now.owners.now }
        ensures { OwnersSplit self.now.owners.now from to b result }
    {
        from + self.owners[from..to].partition_point(|&owner| (owner as usize) < b)
    }

    // Marks the boundaries lo, …, hi - 1, whose records are those from `from` up to `to`. The forest has all other records, and has them again at the end.
    pub(crate) fn close_range(
        &self,
        from: usize,
        to: usize,
        lo: usize,
        hi: usize,
        forest: &mut Forest,
        n: usize,
        marks: &mut [u8; 256],
    )
        requires { OpenRange self.now.owners.now self.now.lefts.now self.now.rights.now self.now.count from to lo hi (tables forest.old) n marks.old }
        ensures { ClosedRange self.now.owners.now self.now.lefts.now self.now.rights.now self.now.count lo hi (tables forest.old) (tables forest.new) n
            marks.old marks.new }
    {
        if from == to {
            return;
        }
        let mut a = from;
        let mut b = lo;
        let mut m = n;
        while 1 < hi - b {
            let mid = b + (hi - b) / 2;
            let cut = self.first_from(a, to, mid);
            // The first half is closed with the second joined, and is then joined itself.
            let k = self.join_records(cut, to, forest, m);
            self.close_range(a, cut, b, mid, forest, k, marks);
            forest.undo(m, k);
            m = self.join_records(a, cut, forest, m);
            a = cut;
            b = mid;
        }
        self.mark_one(a, to, forest, b, marks);
        forest.undo(n, m);
    }
}
