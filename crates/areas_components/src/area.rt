// One area of a partition: its label, and how many cells have it (source document 002).
ghost use Rattle.std.specs.Prelude.{◌≡◌, ◌*◌, ◌≤◌, length};
ghost use Rattle.areas.specs.Words.{labels_in};
ghost use Rattle.areas_components.specs.PartitionAreas.{area_of};

use crate::counts::count_cells;

#[derive(Clone, Copy)]
pub struct PartitionArea {
    pub id: u32,
    pub cell_count: u32,
}

// The area with the label, of n labels in words.
pub fn partition_area(work: &[u8], n: usize, id: u32) -> PartitionArea
    requires { (n ≤ 1048576) × (4 * n ≤ length work.now) }
    ensures { result ≡ area_of (labels_in work.now n) id }
{
    let cell_count = count_cells(work, n, id);
    PartitionArea { id, cell_count }
}
