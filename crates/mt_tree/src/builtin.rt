//! The names of the builtins.

/// Of both tiers: makes and reads objects.
pub const OBJECT: &str = "Object";

/// Of both tiers: tells arrays.
pub const ARRAY: &str = "Array";

/// Of both tiers: the text of a value.
pub const STRING: &str = "String";

/// Of both tiers: the number that a text spells.
pub const NUMBER: &str = "Number";

/// Of both tiers: makes an error.
pub const ERROR: &str = "Error";

/// Of the server alone: writes a line of its log.
pub const LOG: &str = "log";

/// Of the client alone: shows a value.
pub const ALERT: &str = "alert";

/// Of the client alone: the page.
pub const DOCUMENT: &str = "document";

/// Of the client alone: the event that is handled.
pub const EVENT: &str = "event";
