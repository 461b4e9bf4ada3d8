//! The kinds of values (BSON 1.1, `element`): the byte that an element begins with.

/// A double.
pub const DOUBLE: u8 = 0x01;

/// A string.
pub const STRING: u8 = 0x02;

/// A document.
pub const DOCUMENT: u8 = 0x03;

/// An array.
pub const ARRAY: u8 = 0x04;

/// Binary data.
pub const BINARY: u8 = 0x05;

/// Undefined.
pub const UNDEFINED: u8 = 0x06;

/// An object id.
pub const OBJECT_ID: u8 = 0x07;

/// A boolean.
pub const BOOLEAN: u8 = 0x08;

/// A UTC date and time.
pub const DATE_TIME: u8 = 0x09;

/// Null.
pub const NULL: u8 = 0x0A;

/// A regular expression.
pub const REGULAR_EXPRESSION: u8 = 0x0B;

/// A DBPointer.
pub const DB_POINTER: u8 = 0x0C;

/// JavaScript code.
pub const CODE: u8 = 0x0D;

/// A symbol.
pub const SYMBOL: u8 = 0x0E;

/// JavaScript code with its scope.
pub const CODE_WITH_SCOPE: u8 = 0x0F;

/// An int32.
pub const INT32: u8 = 0x10;

/// A timestamp.
pub const TIMESTAMP: u8 = 0x11;

/// An int64.
pub const INT64: u8 = 0x12;

/// A decimal128.
pub const DECIMAL128: u8 = 0x13;

/// The key above all keys.
pub const MAX_KEY: u8 = 0x7F;

/// The key below all keys.
pub const MIN_KEY: u8 = 0xFF;
