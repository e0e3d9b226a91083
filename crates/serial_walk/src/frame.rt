// A frame of the walk, and what it reads of the records.
ghost use Rattle.std.specs.Prelude.{◌≡◌, ◌<◌, min, length};
ghost use Rattle.lists.specs.Rows.{at};
ghost use Rattle.serial_walk.specs.Walk.{RecordJoins, RecordTouches};

// A region on the walk's stack: the record by which it was entered, the next record to look at, and the earliest region known behind it.
#[derive(Clone, Copy)]
pub struct Frame {
    pub region: u32,
    pub parent: u32,
    pub next: u32,
    pub low: u32,
}

impl Frame {
    // The frame, at another region.
    pub fn at_region(self, region: u32) -> Frame
        ensures { (result.region ≡ region) × (result.parent ≡ self.parent) × (result.next ≡ self.next) × (result.low ≡ self.low) }
    {
        Frame { region, ..self }
    }

    // The frame, entered by another record.
    pub fn parent_record(self, parent: u32) -> Frame
        ensures { (result.region ≡ self.region) × (result.parent ≡ parent) × (result.next ≡ self.next) × (result.low ≡ self.low) }
    {
        Frame { parent, ..self }
    }

    // The frame, to look at record j next.
    pub fn next_record(self, j: u32) -> Frame
        ensures { (result.region ≡ self.region) × (result.parent ≡ self.parent) × (result.next ≡ j) × (result.low ≡ self.low) }
    {
        Frame { next: j, ..self }
    }

    // The frame, with a region found at d behind it.
    pub fn lowered(self, d: u32) -> Frame
        ensures { (result.region ≡ self.region) × (result.parent ≡ self.parent) × (result.next ≡ self.next) × (result.low ≡ min self.low d) }
    {
        Frame {
            low: self.low.min(d),
            ..self
        }
    }
}

// A frame at a region that is found now, with all its records to look at.
pub fn opened(heads: &[u32], region: u32, parent: u32, time: u32) -> Frame
    requires { region < length heads.now }
    ensures { (result.region ≡ region) × (result.parent ≡ parent) × (result.next ≡ at heads.now region) × (result.low ≡ time) }
{
    let next = heads[region as usize];
    let f = Frame {
        region: 0,
        parent: 0,
        next: 0,
        low: time,
    };
    f.at_region(region).parent_record(parent).next_record(next)
}

// The region that the frame's next record joins with its own.
pub fn other_end(lefts: &[u32], rights: &[u32], f: Frame) -> u32
    requires { (f.next < length lefts.now) × (f.next < length rights.now) × RecordTouches (at lefts.now) (at rights.now) f.next f.region }
    ensures { RecordJoins (at lefts.now) (at rights.now) f.next f.region result }
{
    let j = f.next as usize;
    if lefts[j] == f.region {
        return rights[j];
    }
    lefts[j]
}

// What follows the frame's next record in the chain of its region.
pub fn after(lefts: &[u32], left_nexts: &[u32], right_nexts: &[u32], f: Frame) -> u32
    requires { (f.next < length lefts.now) × (f.next < length left_nexts.now) × (f.next < length right_nexts.now) }
    ensures left { at lefts.now f.next ≡ f.region → result ≡ at left_nexts.now f.next }
    ensures right { (at lefts.now f.next ≡ f.region → ⊥) → result ≡ at right_nexts.now f.next }
{
    let j = f.next as usize;
    if lefts[j] == f.region {
        return left_nexts[j];
    }
    right_nexts[j]
}
