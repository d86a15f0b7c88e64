//! The tags of the messages: the number of a field times 8, and its wire type.

/// `preferences` of `PreferenceMap`: field 1, of which each is an entry that says how long it is.
pub const PREFERENCES: u8 = 0x0a;

/// The key of an entry: field 1, a text.
pub const KEY: u8 = 0x0a;

/// The value of an entry: field 2, a message.
pub const VALUE: u8 = 0x12;

/// `boolean` of `Value`: field 1, a varint.
pub const BOOLEAN: u8 = 0x08;

/// `float` of `Value`: field 2, four bytes.
pub const FLOAT: u8 = 0x15;

/// `integer` of `Value`: field 3, a varint.
pub const INTEGER: u8 = 0x18;

/// `long` of `Value`: field 4, a varint.
pub const LONG: u8 = 0x20;

/// `string` of `Value`: field 5, a text.
pub const TEXT: u8 = 0x2a;

/// `string_set` of `Value`: field 6, a message.
pub const TEXTS: u8 = 0x32;

/// `double` of `Value`: field 7, eight bytes.
pub const DOUBLE: u8 = 0x39;

/// `strings` of `StringSet`: field 1, of which each is a text.
pub const MEMBER: u8 = 0x0a;
