// The limits of document 01, each once. specs/Limits.antt has the same names.

// The least and the largest modulus.
pub const LEAST_MODULUS: u32 = 257;

pub const LARGEST_MODULUS: u32 = 2147483647;

// The highest degree of f.
pub const HIGHEST_DEGREE: usize = 12;

// The most weights that a list holds, and the largest size of a weight.
pub const CAPACITY: usize = 6;

pub const LARGEST_WEIGHT: i32 = 16;

// The most placements, so the highest degree of a resolvent.
pub const MOST_PLACEMENTS: usize = 1024;

// A row of work room has N + 1 words. The longest row, the rows, and the largest room.
pub const LONGEST_ROW: usize = MOST_PLACEMENTS + 1;

pub const WORK_ROWS: usize = 12;

pub const LARGEST_ROOM: usize = WORK_ROWS * LONGEST_ROW;

// The bytes of the longest text that is read, and of the longest that is written.
pub const LONGEST_TEXT: usize = 4096;

pub const LONGEST_ANSWER: usize = 11313;

// The most numbers in a line of a job, and the largest size of a weight that is written there.
pub const MOST_NUMBERS: usize = 64;

pub const LARGEST_WRITTEN: i32 = 999;
