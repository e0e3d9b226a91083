// What observations are sorted by, at each place: both ends and the width, then their sources, whose numbers stand in `keys`.

#[derive(Clone, Copy)]
pub struct Observations<'a> {
    pub first: &'a [u64],
    pub second: &'a [u64],
    pub third: &'a [u64],
    pub starts: &'a [u32],
    pub counts: &'a [u32],
    pub keys: &'a [u64],
}
