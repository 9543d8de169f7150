//! The limits of the language and of what crosses between the tiers, each in its own unit.

/// The bytes of an application and of a schedule.
pub const SOURCE_LIMIT: usize = 1_048_576;

/// The tokens of an application.
pub const TOKEN_LIMIT: usize = 200_000;

/// The levels of a program's tree, and of client code.
pub const DEPTH_LIMIT: u16 = 60;

/// The size of a number, with either sign.
pub const NUMBER_LIMIT: i64 = 9_007_199_254_740_991;

/// The units of UTF-16 of a text.
pub const TEXT_LIMIT: u64 = 1_048_576;

/// The steps of a job.
pub const STEP_LIMIT: u64 = 1_000_000;

/// The calls of functions in progress in a job.
pub const CALL_LIMIT: usize = 48;

/// The bytes of the text of an error.
pub const ERROR_LIMIT: usize = 4_096;

/// The levels of each of the data of one list that crosses.
pub const DATA_DEPTH_LIMIT: u32 = 40;

/// The nodes of all of them.
pub const DATA_NODE_LIMIT: u64 = 20_000;

/// The bytes of UTF-8 of their texts and names.
pub const DATA_BYTE_LIMIT: u64 = 262_144;

/// The levels of a page's elements.
pub const NESTING_LIMIT: u32 = 60;

/// The bytes of a page's text and of the body of a message.
pub const BODY_LIMIT: usize = 4_194_304;

/// The bytes of a message's head.
pub const HEAD_LIMIT: usize = 65_536;

/// The fields of a message's head.
pub const FIELD_LIMIT: usize = 64;

/// The bytes of a target.
pub const TARGET_LIMIT: usize = 8_192;

/// The lines of a schedule.
pub const LINE_LIMIT: u32 = 20_000;

/// The greatest number of a client.
pub const CLIENT_LIMIT: u32 = 64;
