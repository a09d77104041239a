// The numbers that choose between two ways to one answer. Only speed hangs on them.

/// To seek one row costs about as much as to pass over so many.
pub const ROWS_PASSED_FOR_ONE_SOUGHT: usize = 16;

/// Rows that refer to others are few where there are so many others, or more, for each of them.
pub(crate) const ROWS_REFERRED_TO_BY_ONE: usize = 4;

/// To look for the key of one row that is beside others costs about as much as to make the hashes of so many.
pub(crate) const ROWS_HASHED_FOR_ONE_BESIDE: usize = 4;

/// So many hashes, or fewer, are sought by comparing each.
pub(crate) const FEW_SOUGHT: usize = 4;

/// So many marks are made for each hash that is sought: then few other hashes have a mark.
pub(crate) const MARKS_FOR_ONE: usize = 8;

/// So many marks are made at least, a power of two, so that few others have one where few hashes are sought.
pub(crate) const FEWEST_MARKS: usize = 512;

/// A hash times this number, without what leaves 64 bits, is unlike the hash: the number is odd, and 2 ^ 64 divided by the golden ratio.
pub(crate) const SPREAD: u64 = 0x9E37_79B9_7F4A_7C15;

/// So many low bits of such a product are left out, since each of them depends on few bits of the hash.
pub(crate) const BITS_LEFT_OUT: u32 = 32;

/// Of so many rows that come, or fewer, it is looked whether they have one key.
pub(crate) const FEW_ROWS_OF_ONE_KEY: usize = 16;
