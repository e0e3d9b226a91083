// What the groups are judged by, in arrays by rank and by link.

// n ranks with their spans, width bits and region pairs, and the links between them.
// No ghost field says what holds of them: each function asks for another part of it.
#[derive(Clone, Copy)]
pub struct Tables<'a> {
    pub n: usize,
    pub own: &'a [u32; 1024], // by rank: its span
    pub bits: &'a [u64; 256], // by rank: the bits of its width
    pub lowers: &'a [u32; 256], // by rank: the lower region of its pair
    pub highers: &'a [u32; 256], // by rank: the higher one
    pub links: usize,
    pub regions: &'a [u32; 256], // by link: its region
    pub firsts: &'a [u32; 256], // by link: the first rank that it joins
    pub seconds: &'a [u32; 256], // by link: the second one
}

// The chosen links, the ranks that they join, and the part of each rank.
// Bytes, not bool: is_on reads them as it reads the marks that other crates lend.
#[derive(Clone, Copy)]
pub struct Groups<'a> {
    pub chosen: &'a [u8; 256],
    pub joined: &'a [u8; 256],
    pub parts: &'a [u32; 256],
}
