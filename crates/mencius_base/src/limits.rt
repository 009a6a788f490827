//! The limits of a cluster and of a run, as numbers. The definitions have the same numbers in `specs/Limits.antt` and
//! `specs/Members.antt`.

/// The greatest number of servers.
pub const MOST_SERVERS: u8 = 7;

/// The number of instances.
pub const INSTANCES: u32 = 4096;

/// The greatest front, and the greatest `stop` of a Skip. With seven servers, it is the front of the server that has
/// used instance 4,095.
pub const GREATEST_FRONT: u32 = 4102;

/// The greatest round of a ballot.
pub const GREATEST_ROUND: u32 = 65_535;

/// The greatest beta of a membership. Beta sets how far past its own front a server's suspicion looks.
pub const GREATEST_BETA: u32 = 4095;

/// The greatest number of messages that may be sent.
pub const MOST_MESSAGES: u32 = 262_144;

/// The greatest number of events that may be accepted.
pub const MOST_EVENTS: u32 = 262_144;

/// The greatest number of workers of a run.
pub const MOST_WORKERS: u8 = 8;

/// The greatest number of turns of a worker.
pub const MOST_TURNS: u32 = 100_000;

/// The greatest loss of a run. The loss is the number of choices, out of 64, that lose a message.
pub const GREATEST_LOSS: u8 = 32;

/// The greatest number of readers of a board.
pub const MOST_READERS: u8 = 16;

/// The greatest number of bytes of a key.
pub const MOST_KEY_BYTES: usize = 64;

/// The greatest number of bytes of a text.
pub const MOST_TEXT_BYTES: usize = 256;
