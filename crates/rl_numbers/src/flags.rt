//! The flags of an ATTACHED frame (TR3), each as its bit's value.

/// Members are sent after it (TR3a).
pub const HAS_PRESENCE: u64 = 1;
/// Entries are sent that are earlier than it (TR3b).
pub const HAS_BACKLOG: u64 = 2;
/// The session goes on at the serial that was asked (TR3c).
pub const RESUMED: u64 = 4;
/// The channel was attached before (TR3f).
pub const ATTACH_RESUME: u64 = 32;
/// Objects are sent after it (TR3h).
pub const HAS_OBJECTS: u64 = 128;
