//! The codes of faults, as frames carry them. (This project's own; the code's name is the constant's name as
//! one word, as `NotRetained`.)

/// A serial was asked for that is not of this run or not retained.
pub const NOT_RETAINED: u32 = 101;
/// A connection key that no connection has.
pub const KEY_UNKNOWN: u32 = 102;
/// The service has as many channels as it may have.
pub const CHANNEL_LIMIT: u32 = 103;
/// Something is longer, or weighs more, than it may.
pub const TOO_LONG: u32 = 104;
/// A channel would have more members than it may have.
pub const MEMBER_LIMIT: u32 = 105;
/// An operation or a reference names an object that is not there.
pub const UNKNOWN_OBJECT: u32 = 106;
/// An object is made anew that is there.
pub const DUPLICATE_OBJECT: u32 = 107;
/// The moment in a new object's id is too far from the channel's clock.
pub const STALE_ID: u32 = 108;
/// A number lies outside its range.
pub const RANGE: u32 = 109;
/// An operation is for another kind of object.
pub const WRONG_KIND: u32 = 110;
/// An operation or a reference names a deleted object.
pub const TOMBSTONED: u32 = 111;
/// The objects of a channel would pass a limit.
pub const POOL_LIMIT: u32 = 112;
/// Some messages have an id and some have none.
pub const BAD_IDS: u32 = 113;
/// A presence item has no client id.
pub const NO_CLIENT_ID: u32 = 114;
/// A presence item's action is none that a client may give.
pub const BAD_ACTION: u32 = 115;
/// A channel's log has no place left.
pub const LOG_FULL: u32 = 116;
/// A frame cannot be read.
pub const BAD_FRAME: u32 = 120;
/// A message serial leaves others out.
pub const SERIAL_GAP: u32 = 121;
/// A message serial's outcome is not kept any more.
pub const SERIAL_OLD: u32 = 122;
/// Another transport took the connection up, or the connection is forgotten.
pub const SUPERSEDED: u32 = 123;
/// A session fell back past what the channel retains.
pub const LAGGED: u32 = 124;
/// The service has as many connections as it may have.
pub const CONNECTION_LIMIT: u32 = 125;
/// A session was idle too long.
pub const IDLE: u32 = 126;

/// The `statusCode` that is written with each code.
pub const STATUS_CODE: u32 = 400;
