// The limits of the language. Definitions cite these constants too, by the names of specs/Limits.antt, so that each number stands
// once.

/// The most bytes of a name.
pub const MOST_NAME_BYTES: usize = 64;

/// The most bytes of a text.
pub const MOST_TEXT_BYTES: usize = 255;

/// The most attributes of a heading.
pub const MOST_ATTRIBUTES: usize = 16;

/// The most attributes that a list of USING, PACK, UNPACK or of a constraint names.
pub const MOST_LISTED: usize = 4;

/// The most rows of a relation.
pub const MOST_ROWS: usize = 100_000;

/// The most rows of all relvars together.
pub const MOST_ROWS_IN_ALL: usize = 200_000;

/// The most relvars and views.
pub const MOST_RELVARS: usize = 64;

/// The most ordinal types.
pub const MOST_ORDINAL_TYPES: usize = 16;

/// The most values of an ordinal type.
pub const MOST_ORDINAL_VALUES: usize = 1_000;

/// The most constraints of a relvar.
pub const MOST_CONSTRAINTS: usize = 32;

/// The most database constraints.
pub const MOST_RULES: usize = 32;

/// The most nodes of a view.
pub const MOST_NODES: usize = 1_000;

/// The most levels that are open at a place of a statement.
pub const MOST_LEVELS: usize = 64;

/// The most operators in force at a place of a statement.
pub const MOST_OPERATORS: usize = 256;

/// The most bytes of a statement, its `;` counted.
pub const MOST_STATEMENT_BYTES: usize = 1_048_576;

/// The most bytes of a script.
pub const MOST_SCRIPT_BYTES: u64 = 16_777_216;
