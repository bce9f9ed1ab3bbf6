//! Every limit of the product, with its reason. Code and definitions cite these constants.

/// Columns of a table, at most. A row is a short list, searched from its start.
pub const MAX_COLUMNS: usize = 16;

/// Declared indexes of a table, at most, beside the index `id`: a node has sixteen links, one for each index.
pub const MAX_INDEXES: usize = 15;

/// Parts of an index's key, at most: as many values of a record are compared at a step of a search.
pub const MAX_KEY_PARTS: usize = 4;

/// Tables of a catalog, at most. A table is found by its name, from the first on.
pub const MAX_TABLES: usize = 16;

/// Bytes of the name of a table, column or index, at most, so that every reply without a row is short.
pub const MAX_NAME: usize = 32;

/// Bytes of a text value, at most, so that a row of sixteen of them fits a line where few bytes are escaped.
pub const MAX_TEXT: usize = 1024;

/// The most that a schema may allow as its number of rows: 2^24.
pub const MAX_ROWS: u64 = 16_777_216;

/// The number of rows that a schema allows where it names none: with six indexes they take some 330 MB.
pub const DEFAULT_MAX_ROWS: u64 = 1_000_000;

/// Open sessions, at most. Each is a count in the undo journal, whose room can be asked for ahead of them all.
pub const MAX_SESSIONS: usize = 1024;

/// Attached connections, at most. Each reserves the room of a whole line, 4 MB for all, and is found from the first on.
pub const MAX_CONNECTIONS: usize = 64;

/// Bytes of a line before its newline, at most; a carriage return counts. Each connection reserves as much, so that the rest
/// of a line never takes memory.
pub const MAX_LINE: usize = 65_536;

/// Rows in one answer, at most, so that an answer has at most some 100 MB even where each text is long and escaped.
pub const MAX_PAGE: usize = 1000;

/// Changes that one `reserve` may ask room for, at most, so that one line can't ask for all the memory that there is.
pub const MAX_RESERVED_CHANGES: u64 = 1_000_000;

/// Sessions that one `reserve` may ask room for, at most: as many as can be open.
pub const MAX_RESERVED_SESSIONS: u64 = 1024;

/// The last value of a counter (next id, arrivals, revision): 2^63 - 1, the largest whole number of a value.
pub const LAST_COUNT: u64 = 9_223_372_036_854_775_807;

/// Bytes of a schema file, at most: it is read whole before anything in it is looked at.
pub const MAX_SCHEMA_FILE: usize = 65_536;

/// Reads of one serving call, at most: 2^40, so that serving any reader ends.
pub const MAX_READS: u64 = 1_099_511_627_776;

/// Bytes of one read, at most. The replies to them are gathered and go out before the next read.
pub const PIECE: usize = 4096;

/// Bytes that a reply without rows may have. The longest, with a name of 32 bytes and an id of 19 digits, has 110, and a newline.
pub const SHORT_REPLY: usize = 128;
