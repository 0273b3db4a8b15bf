use rl_ids::Text;

/// What CONNECTED says of the connection (CD1).
#[derive(Debug, Drop)]
pub struct ConnectionDetails {
    /// The connection's key (CD2b).
    pub key: Text,
    /// How long the connection is kept once it is lost (CD2f), in milliseconds.
    pub ttl: u64,
    /// The longest silence (CD2h), in milliseconds.
    pub idle: u64,
    /// The greatest weight of a message (CD2c).
    pub size: u64,
}
