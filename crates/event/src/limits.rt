// The numbers that bound everything else, each named here and nowhere else.

// How many jobs there are, and so how many rows.
pub const JOBS: usize = 64;

// The highest T, and the highest R.
pub const MOST: u32 = 64;

// The highest true time, and the highest turn: 2^63 - 1.
pub const HIGHEST: u64 = 9_223_372_036_854_775_807;
