//! The numbers of actions: of frames (TR2), of presence items (TP2) and of operations on objects (this
//! project's own).

// FRAMES

pub const HEARTBEAT: u64 = 0;

pub const ACK: u64 = 1;

pub const NACK: u64 = 2;

pub const CONNECT: u64 = 3;

pub const CONNECTED: u64 = 4;

pub const DISCONNECT: u64 = 5;

pub const DISCONNECTED: u64 = 6;

pub const CLOSE: u64 = 7;

pub const CLOSED: u64 = 8;

pub const ERROR: u64 = 9;

pub const ATTACH: u64 = 10;

pub const ATTACHED: u64 = 11;

pub const DETACH: u64 = 12;

pub const DETACHED: u64 = 13;

pub const PRESENCE: u64 = 14;

pub const MESSAGE: u64 = 15;

pub const SYNC: u64 = 16;

pub const AUTH: u64 = 17;

pub const OBJECT: u64 = 19;

pub const OBJECT_SYNC: u64 = 20;

// PRESENCE ITEMS

pub const ABSENT: u64 = 0;

pub const PRESENT: u64 = 1;

pub const ENTER: u64 = 2;

pub const LEAVE: u64 = 3;

pub const UPDATE: u64 = 4;

// OPERATIONS

pub const MAP_CREATE: u64 = 0;

pub const MAP_SET: u64 = 1;

pub const MAP_REMOVE: u64 = 2;

pub const COUNTER_CREATE: u64 = 3;

pub const COUNTER_INC: u64 = 4;

pub const OBJECT_DELETE: u64 = 5;
