//! What is bounded, and by how much. Times are in milliseconds, sizes and weights in bytes. (All of them are
//! this project's own, but for those that name a point of the Ably specification.)

// NUMBERS IN FRAMES

/// The greatest whole number that every reader of JSON holds exactly: 2^53 - 1.
pub const MAX_SAFE_INTEGER: u64 = 9_007_199_254_740_991;

/// The greatest message serial (RTN7b).
pub const MAX_MESSAGE_SERIAL: u64 = MAX_SAFE_INTEGER;

/// The greatest moment that an object's id may name.
pub const MAX_OBJECT_MILLIS: u64 = MAX_SAFE_INTEGER;

/// A whole number, a count, an amount and a counter's value lie within plus or minus this.
pub const MAX_OBJECT_NUMBER: u64 = MAX_SAFE_INTEGER;

/// A counter's sum stays within plus or minus this: 2^100. A sum that would pass it is not made.
pub const MAX_COUNTER_SUM: i128 = 1_267_650_600_228_229_401_496_703_205_376;

/// The greatest index that an operation's serial spells by four digits.
pub const MAX_OPERATION_INDEX: u16 = 9_999;

/// The longest code of a site.
pub const MAX_SITE_CODE: usize = 16;

/// The longest hash in an object's id.
pub const MAX_OBJECT_HASH: usize = 64;

// FRAMES

/// The longest frame that is read.
pub const MAX_FRAME_SIZE: usize = 4_194_304;

/// `maxMessageSize` (CD2c): the greatest weight of what one Put brings.
pub const MAX_MESSAGE_SIZE: u64 = 65_536;

/// `connectionStateTtl` (CD2f): how long a lost connection may come back.
pub const CONNECTION_STATE_TTL: u64 = 120_000;

/// `maxIdleInterval` (CD2h): how long the service may send nothing.
pub const MAX_IDLE_INTERVAL: u64 = 15_000;

/// The longest name of a channel.
pub const MAX_CHANNEL_NAME: usize = 256;

/// The longest message id.
pub const MAX_MESSAGE_ID: usize = 256;

/// The longest client id of a presence item.
pub const MAX_CLIENT_ID: usize = 256;

/// The longest encoding of a presence item.
pub const MAX_PRESENCE_ENCODING: usize = 256;

/// The longest data of a presence item.
pub const MAX_PRESENCE_DATA: usize = 4_096;

// A CHANNEL

/// The most entries in a channel's window.
pub const MAX_WINDOW_ENTRIES: usize = 4_096;

/// The greatest weight of a channel's window.
pub const MAX_WINDOW_WEIGHT: u64 = 8_388_608;

/// The greatest age of an entry that a Tick leaves in the window.
pub const MAX_ENTRY_AGE: u64 = 120_000;

/// An id is remembered while its entry is among this many last ones.
pub const MAX_REMEMBERED: u64 = 8_192;

/// The last place of a log: 2^64 - 2.
pub const MAX_PLACE: u64 = 18_446_744_073_709_551_614;

/// The most members of a channel.
pub const MAX_MEMBERS: usize = 2_000;

/// The most channels of a service.
pub const MAX_CHANNELS: usize = 256;

// OBJECTS

/// The longest key, text or bytes value of an operation.
pub const MAX_VALUE_SIZE: usize = 1_024;

/// How far the moment in a new object's id may be from the channel's clock.
pub const MAX_ID_SKEW: u64 = 600_000;

/// How long a tombstone is kept (RTO10).
pub const TOMBSTONE_GRACE: u64 = 86_400_000;

/// The most objects of a pool, tombstones and the root included.
pub const MAX_OBJECTS: usize = 2_000;

/// The most cells of a pool's maps together, tombstones included.
pub const MAX_MAP_CELLS: usize = 10_000;

/// The greatest weight of one object.
pub const MAX_OBJECT_WEIGHT: u64 = 262_144;

/// The greatest weight of a pool.
pub const MAX_POOL_WEIGHT: u64 = 4_194_304;

// WEIGHTS

/// What a message, a presence item and an operation weigh beside their texts.
pub const ITEM_WEIGHT: u64 = 64;

/// What a whole number, a truth value, a count and an amount weigh.
pub const VALUE_WEIGHT: u64 = 8;

/// What an object weighs beside its cells.
pub const OBJECT_WEIGHT: u64 = 128;

/// What a map's cell weighs beside its key and its value.
pub const CELL_WEIGHT: u64 = 128;

// PAGES AND READS

/// The most members of a page.
pub const PAGE_MEMBERS: usize = 64;

/// The most objects of a page.
pub const PAGE_OBJECTS: usize = 4;

/// A page of objects ends with the one that brings its weight to this.
pub const PAGE_WEIGHT: u64 = 262_144;

/// The most entries that a session reads at once.
pub const READ_ENTRIES: usize = 16;

// CONNECTIONS

/// The most connections that the service knows at a time.
pub const MAX_CONNECTIONS: usize = 1_024;

/// The greatest connection number: 2^32 - 1. As many numbers are given at most.
pub const MAX_CONNECTION: u32 = 4_294_967_295;

/// The greatest generation that a resumed connection can come from is one below this: 2^64 - 2.
pub const MAX_RESUMED_GENERATION: u64 = 18_446_744_073_709_551_614;

/// The most outcomes that are kept of a connection: the latest ones.
pub const MAX_KEPT_OUTCOMES: usize = 1_024;

/// The most frames that wait in a session's outbox.
pub const MAX_OUTBOX: usize = 256;

/// A session does more work while at most so many frames wait.
pub const OUTBOX_ROOM: usize = 224;

/// A session without a channel ends where no frame came for so long.
pub const SESSION_IDLE: u64 = 600_000;

/// A session that put out no frame for so long puts out a HEARTBEAT.
pub const HEARTBEAT_INTERVAL: u64 = 10_000;

// A CLIENT

/// The most messages that wait for their acknowledgement.
pub const MAX_PENDING: usize = 1_000;

/// A client that got no frame for so long takes its link for down (RTN23a).
pub const MAX_SILENCE: u64 = 25_000;

/// An ATTACH that is not answered for so long is given up (RTL4f).
pub const ATTACH_TIMEOUT: u64 = 10_000;

// SCRIPTS

/// The longest script.
pub const MAX_SCRIPT_SIZE: usize = 16_777_216;

/// The most lines of a script.
pub const MAX_SCRIPT_LINES: usize = 100_000;

/// The greatest epoch and the greatest place that a script can give.
pub const MAX_GIVEN: u64 = 18_446_744_073_709_551_615;

/// The most clients of a script.
pub const MAX_CLIENTS: usize = 64;

/// The most transports of a client that a line can name.
pub const MAX_TRANSPORTS: u64 = 100_000;

/// The most entries that a script feeds, in all.
pub const MAX_FED: u64 = 100_000;

/// The most entries that a line feeds.
pub const MAX_COUNT: u64 = 10_000;

/// The most milliseconds of a `tick` line.
pub const MAX_TICK: u64 = 1_000_000_000_000;

/// The longest name of a client or a member in a script.
pub const MAX_NAME: usize = 16;

/// The longest channel name, key or id in a script.
pub const MAX_WORD: usize = 64;

/// The longest text that a line publishes.
pub const MAX_TEXT: usize = 4_096;

/// The longest text that a line feeds.
pub const MAX_FED_TEXT: usize = 64;

/// The most rounds of a `settle`.
pub const MAX_ROUNDS: u64 = 100_000;

/// How many frames a client may get in a round of `settle`.
pub const ROUND_GETS: usize = 64;

/// The most steps of a generated script.
pub const MAX_STEPS: u64 = 100_000;

// SCRIPTS, AS FAR AS THEY ARE BUILT

/// The most messages that a script publishes.
pub const MAX_PUBLISHED: u64 = 1_000;

/// The most messages that a script publishes and feeds together.
pub const MAX_PUT: u64 = 4_096;
