// Where the bytes of a map's cells stand in lent bytes: n of them from `base` on, `width` in a row.

// `work` is no field: it is lent as &mut beside it; and the public write_dues keeps its four parameters.
#[derive(Clone, Copy)]
pub(crate) struct CellBytes {
    pub(crate) base: usize,
    pub(crate) n: usize,
    pub(crate) width: usize,
}
