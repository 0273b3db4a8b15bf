//! Plain data of the plain reading of a script: its client, and what the client has sent.
use rl_ids::{List, Text};
use rl_runs::{Answer, Segment};
use rl_types::{Body, ChanState, ConnState, Given};

/// What a client has sent and the service has not served yet.
#[derive(Debug, Drop)]
pub enum Sent {
    /// An ATTACH (RTL4c), with the serial that the client holds.
    Asks(Option<Given>),
    /// The message with this serial (RTN7b).
    Sends(u64, Body),
}

/// The client of a script, as the plain reading has it.
#[derive(Debug, Drop)]
pub struct Client {
    pub name: Text,
    pub conn: ConnState,
    pub chan: ChanState,
    /// It was connected before, so it holds its connection's id.
    pub known: bool,
    /// The serial that it was told to attach with.
    pub asked: Option<Given>,
    /// The bodies that it published, in order: the serial of each is its index.
    pub published: List<Body>,
    /// The acknowledgements that it got, in order.
    pub answers: List<Answer>,
    /// The segments of its record, in order.
    pub segments: List<Segment>,
    pub sent: List<Sent>,
}
