// The numbers that choose between two ways to one result. Only speed and memory hang on them.

/// So many relvars at most have hashes, which are kept beside the database.
pub(crate) const MOST_HASHED_RELVARS: usize = 8;

/// The rows of a relvar are hashed where there are so many.
pub(crate) const FEWEST_HASHED_ROWS: usize = 256;

/// So many rows at most, of those that come and those that go together, are put in and taken out one by one with their hashes.
pub(crate) const MOST_ROWS_ONE_BY_ONE: usize = 16;

/// Rows are merged where so many come.
pub(crate) const FEWEST_MERGED_ROWS: usize = 64;

/// So many rows that are there, or fewer, for each one that comes are looked at all.
pub(crate) const ROWS_LOOKED_AT_FOR_ONE: usize = 32;

/// A part of the rows is small where it has at most one row of so many.
pub(crate) const SMALL_PART_DIVISOR: usize = 4;
