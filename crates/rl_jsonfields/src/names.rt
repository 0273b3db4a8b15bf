ghost use Rattle.std.specs.Prelude.{◌≡◌, ◌≤◌, length};
ghost use Rattle.rl_jsonfields.specs.Names.{spelled};

use rl_ids::Code64;

/// The name of a field of a frame's JSON text.
#[derive(Clone, Copy, Debug, Drop)]
pub enum Field {
    Ack,
    Action,
    Amount,
    Boolean,
    Bytes,
    Channel,
    ChannelSerial,
    ChannelSerials,
    ClientId,
    Code,
    ConnectionDetails,
    ConnectionId,
    ConnectionKey,
    ConnectionStateTtl,
    Count,
    Counter,
    CounterOp,
    Created,
    Data,
    Encoding,
    Entries,
    Error,
    Flags,
    From,
    Id,
    Key,
    Map,
    MapOp,
    MaxIdleInterval,
    MaxMessageSize,
    Message,
    Messages,
    MsgSerial,
    Name,
    Number,
    Object,
    ObjectId,
    Operation,
    Params,
    Presence,
    Semantics,
    Serial,
    SiteCode,
    SiteTimeserials,
    State,
    StatusCode,
    String,
    Timeserial,
    Timestamp,
    Tombstone,
}

impl Field {
    /// The name as it stands in the text.
    #[tactic(auto, unfolding(crate::specs::Names::spelled))]
    pub fn text(self) -> &'static str
        ensures value { result.now ≡ spelled self }
        ensures short { length result.now ≤ 64 }
    {
        match self {
            Field::Ack => "ack",
            Field::Action => "action",
            Field::Amount => "amount",
            Field::Boolean => "boolean",
            Field::Bytes => "bytes",
            Field::Channel => "channel",
            Field::ChannelSerial => "channelSerial",
            Field::ChannelSerials => "channelSerials",
            Field::ClientId => "clientId",
            Field::Code => "code",
            Field::ConnectionDetails => "connectionDetails",
            Field::ConnectionId => "connectionId",
            Field::ConnectionKey => "connectionKey",
            Field::ConnectionStateTtl => "connectionStateTtl",
            Field::Count => "count",
            Field::Counter => "counter",
            Field::CounterOp => "counterOp",
            Field::Created => "created",
            Field::Data => "data",
            Field::Encoding => "encoding",
            Field::Entries => "entries",
            Field::Error => "error",
            Field::Flags => "flags",
            Field::From => "from",
            Field::Id => "id",
            Field::Key => "key",
            Field::Map => "map",
            Field::MapOp => "mapOp",
            Field::MaxIdleInterval => "maxIdleInterval",
            Field::MaxMessageSize => "maxMessageSize",
            Field::Message => "message",
            Field::Messages => "messages",
            Field::MsgSerial => "msgSerial",
            Field::Name => "name",
            Field::Number => "number",
            Field::Object => "object",
            Field::ObjectId => "objectId",
            Field::Operation => "operation",
            Field::Params => "params",
            Field::Presence => "presence",
            Field::Semantics => "semantics",
            Field::Serial => "serial",
            Field::SiteCode => "siteCode",
            Field::SiteTimeserials => "siteTimeserials",
            Field::State => "state",
            Field::StatusCode => "statusCode",
            Field::String => "string",
            Field::Timeserial => "timeserial",
            Field::Timestamp => "timestamp",
            Field::Tombstone => "tombstone",
        }
    }

    /// The name as a fault tells it.
    pub fn code(self) -> Code64
        ensures { result ≡ spelled self }
    {
        Code64::from_text(self.text()).unwrap()
    }
}
