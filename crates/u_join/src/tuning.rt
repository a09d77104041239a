// Numbers on which only speed hangs: by which the left rows are made fewer first or not, and rows are paired or not.

/// Of fewer left rows than these none is tried.
pub(crate) const FEWEST_TRIED: usize = 512;

/// So many left rows are tried, drawn at random.
pub(crate) const TRIED_ROWS: usize = 64;

/// So many different labels among the rows that are tried tell that there are hundreds.
pub(crate) const MANY_LABELS: usize = 60;

/// So many rights at most, for each left row that is tried, are few.
pub(crate) const FEW_RIGHTS: usize = 4;

/// So many pairs at most, for each row of the operands, are few.
pub(crate) const PAIRS_A_ROW: usize = 4;
