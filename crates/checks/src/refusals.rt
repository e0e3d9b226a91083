// The numbers of the refusals, as include/chokes.h names them.
pub const JOB_TOO_SHORT: u32 = 1;

pub const BAD_SIDES: u32 = 2;

pub const TOO_MANY_RECORDS: u32 = 3;

pub const TOO_MANY_BOUNDARIES: u32 = 4;

pub const BAD_LAYOUT: u32 = 5;

pub const BAD_CELL: u32 = 6;

pub const ANCHOR_OFF_MAP: u32 = 7;

pub const BAD_SUMS: u32 = 8;

pub const BAD_RAMP: u32 = 9;

pub const BAD_WIDTH: u32 = 10;

pub const END_OFF_MAP: u32 = 11;

pub const ENDS_COINCIDE: u32 = 12;

pub const TOO_MANY_PAIRS: u32 = 13;

pub const BAD_LIST_LENGTH: u32 = 14;

pub const TOO_MANY_SPANS: u32 = 15;

pub const SPAN_OFF_MAP: u32 = 16;

pub const SPAN_ENDS_COINCIDE: u32 = 17;

pub const WORK_TOO_SHORT: u32 = 21;

pub const ANSWER_TOO_SHORT: u32 = 22;

pub const MARKS_TOO_SHORT: u32 = 23;

pub const SLICE_TOO_SHORT: u32 = 31;

pub const BAD_THRESHOLDS: u32 = 32;
