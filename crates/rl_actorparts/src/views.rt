// What a reply says to each question, and what a call concerns.
ghost use Rattle.std.specs.Prelude.{◌≡◌, ℕ};
ghost use Rattle.rl_events.specs.declared.calls.Reply.{Reply};
ghost use Rattle.rl_actormodel.specs.State.{State};
ghost use Rattle.rl_actormodel.specs.Reads.{answered};
ghost use Rattle.rl_actormodel.specs.Replies as replies;
ghost use Rattle.rl_actorparts.specs.Views.{standing_as, beginning_as, opening_as, resuming_as, numbering_as, joining_as, reading_as, answered_as};

use rl_actormodel::Holder;
use rl_events::{
    BookReply, Call, ChannelEvent, ChannelNo, ChannelReply, DirReply, Outcome, ReadReply, Reply,
    Verdict,
};
use rl_ids::{ChannelSerial, List, Place, Text};
use rl_types::Entry;

/// Whether the connection is still this actor's. (This project's own.)
#[derive(Clone, Copy)]
pub enum Standing {
    /// A later transport has it, under this generation.
    Passed(u64),
    /// The book has no record of it.
    Gone,
    Holds,
    /// The reply is one of another kind.
    Unsaid,
}

/// Whether a put may go on (RTN7b, RTN19a).
#[derive(Clone, Copy)]
pub enum Beginning {
    /// A later transport has the connection, under this generation.
    Overtaken(u64),
    /// The book has no record of the connection.
    Missing,
    /// It has ended so already.
    Knows(Outcome),
    /// Its serial leaves others out: the one that was got, and the one that was expected.
    Above(u64, u64),
    /// Its serial is past, and its outcome is not kept: the one that was got, and the one that was expected.
    Below(u64, u64),
    Goes,
    /// The reply is one of another kind.
    Unbegun,
}

/// Whether a connection was opened (RTN8, RTN9).
#[derive(Drop)]
pub enum Opening {
    /// The connection, with its key.
    Opens(Holder, Text),
    /// None was, since there are too many: so many stand, and the number given last. (The limit is this project's own.)
    Limited(usize, u32),
    /// The reply is one of another kind.
    Unopened,
}

/// Whether the connection came back (RTN15c).
#[derive(Clone, Copy)]
pub enum Resuming {
    /// It did: the connection, under its new generation.
    Back(Holder),
    /// Its key is not known.
    NotKnown,
    /// The reply is one of another kind.
    Unresumed,
}

/// Which number the channel has. (This project's own.)
#[derive(Clone, Copy)]
pub enum Numbering {
    Has(ChannelNo),
    /// It has none: the directory is full.
    HasNone,
    /// The reply is one of another kind.
    Unnumbered,
}

/// Whether the channel was joined (RTL4).
#[derive(Clone, Copy)]
pub enum Joining {
    /// It was: where the session begins, whether it goes on from the serial that was asked, and whether members and objects
    /// may be there.
    Joined(ChannelSerial, bool, bool, bool),
    /// The reply is one of another kind.
    Unjoined,
}

/// What was read of a channel (RTL7).
#[derive(Drop)]
pub enum Reading {
    /// The entries behind the session's position, in order.
    Came(List<Entry>),
    /// What follows the position is not retained any more: the first place that is.
    Behind(Place),
    /// The reply is one of another kind.
    Unread,
}

/// What a call concerns. (This project's own.)
#[derive(Clone, Copy)]
pub enum Concern {
    /// The entries of the session on the channel of this number.
    ReadOf(ChannelNo),
    /// A page of its sync.
    PageOf(ChannelNo),
    /// What the actor wanted.
    Wanted,
}

/// What a call concerns, and so what its reply leads to. (This project's own.)
pub fn concern_of(call: &Call) -> Concern
    ensures { (reply : Reply) → (now : ℕ) → (s : State) → answered call.now reply now s ≡ answered_as result reply now s }
{
    match call {
        Call::Chan(number, event) => match event {
            ChannelEvent::Read { .. } => Concern::ReadOf(*number),
            ChannelEvent::MemberPage { .. } => Concern::PageOf(*number),
            ChannelEvent::ObjectPage { .. } => Concern::PageOf(*number),
            ChannelEvent::Put { .. } => Concern::Wanted,
            ChannelEvent::Join { .. } => Concern::Wanted,
            ChannelEvent::Gone { .. } => Concern::Wanted,
            ChannelEvent::Tick { .. } => Concern::Wanted,
            ChannelEvent::Census => Concern::Wanted,
        },
        Call::Book(_) => Concern::Wanted,
        Call::Dir(_) => Concern::Wanted,
    }
}

/// What a reply says of whether the connection is still this actor's. (This project's own.)
pub fn standing_in(reply: &Reply) -> Standing
    ensures { standing_as result ≡ replies.standing reply.now }
{
    match reply {
        Reply::Book(reply) => match reply {
            BookReply::Superseded { newer } => Standing::Passed(*newer),
            BookReply::NoRecord => Standing::Gone,
            BookReply::Done => Standing::Holds,
            _ => Standing::Unsaid,
        },
        Reply::Dir(_) => Standing::Unsaid,
        Reply::Chan(_) => Standing::Unsaid,
    }
}

/// What a reply says of whether a put may go on (RTN7b, RTN19a).
pub fn beginning_in(reply: &Reply) -> Beginning
    ensures { beginning_as result ≡ replies.beginning reply.now }
{
    match reply {
        Reply::Book(reply) => match reply {
            BookReply::Superseded { newer } => Beginning::Overtaken(*newer),
            BookReply::NoRecord => Beginning::Missing,
            BookReply::Known(outcome) => Beginning::Knows(*outcome),
            BookReply::SerialGap { got, expected } => Beginning::Above(*got, *expected),
            BookReply::SerialOld { got, expected } => Beginning::Below(*got, *expected),
            BookReply::Go => Beginning::Goes,
            _ => Beginning::Unbegun,
        },
        Reply::Dir(_) => Beginning::Unbegun,
        Reply::Chan(_) => Beginning::Unbegun,
    }
}

/// What a reply says of whether a connection was opened (RTN8, RTN9). It takes no memory: the key is the reply's own.
pub fn opening_in(reply: Reply) -> Opening
    ensures { opening_as result ≡ replies.opening reply }
{
    match reply {
        Reply::Book(reply) => match reply {
            BookReply::Opened {
                conn,
                generation,
                key,
            } => Opening::Opens(Holder { conn, generation }, key),
            BookReply::Limit { count, given } => Opening::Limited(count, given),
            _ => Opening::Unopened,
        },
        Reply::Dir(_) => Opening::Unopened,
        Reply::Chan(_) => Opening::Unopened,
    }
}

/// What a reply says of whether the connection came back (RTN15c).
pub fn resuming_in(reply: &Reply) -> Resuming
    ensures { resuming_as result ≡ replies.resuming reply.now }
{
    match reply {
        Reply::Book(reply) => match reply {
            BookReply::Resumed { conn, generation } => Resuming::Back(Holder {
                conn: *conn,
                generation: *generation,
            }),
            BookReply::KeyUnknown => Resuming::NotKnown,
            _ => Resuming::Unresumed,
        },
        Reply::Dir(_) => Resuming::Unresumed,
        Reply::Chan(_) => Resuming::Unresumed,
    }
}

/// What a reply says of the number that the channel has. (This project's own.)
pub fn numbering_in(reply: &Reply) -> Numbering
    ensures { numbering_as result ≡ replies.numbering reply.now }
{
    match reply {
        Reply::Dir(reply) => match reply {
            DirReply::At(number) => Numbering::Has(*number),
            DirReply::Full(_) => Numbering::HasNone,
            DirReply::Names(_) => Numbering::Unnumbered,
        },
        Reply::Book(_) => Numbering::Unnumbered,
        Reply::Chan(_) => Numbering::Unnumbered,
    }
}

/// What a reply says of whether the channel was joined (RTL4).
pub fn joining_in(reply: &Reply) -> Joining
    ensures { joining_as result ≡ replies.joining_in reply.now }
{
    match reply {
        Reply::Chan(reply) => match reply {
            ChannelReply::Joined {
                serial,
                resumed,
                presence,
                objects,
            } => Joining::Joined(*serial, *resumed, *presence, *objects),
            _ => Joining::Unjoined,
        },
        Reply::Book(_) => Joining::Unjoined,
        Reply::Dir(_) => Joining::Unjoined,
    }
}

/// The channel's verdict on a put (RTN7a). `None` exactly where the reply has none.
pub fn verdict_in(reply: &Reply) -> Option<Verdict>
    ensures { result ≡ replies.verdict_in reply.now }
{
    match reply {
        Reply::Chan(reply) => match reply {
            ChannelReply::Put(verdict) => Some(*verdict),
            _ => None,
        },
        Reply::Book(_) => None,
        Reply::Dir(_) => None,
    }
}

/// How a put ended, by the channel's verdict. `None` exactly where it was old. (This project's own.)
pub fn outcome_of(verdict: Verdict) -> Option<Outcome>
    ensures { result ≡ replies.outcome_of verdict }
{
    match verdict {
        Verdict::Done(outcome) => Some(outcome),
        Verdict::Old => None,
    }
}

/// What a reply says of what was read (RTL7). It takes no memory: the entries are the reply's own.
pub fn reading_in(reply: Reply) -> Reading
    ensures { reading_as result ≡ replies.reading reply }
{
    match reply {
        Reply::Chan(reply) => match reply {
            ChannelReply::Read(reply) => match reply {
                ReadReply::Run(entries) => Reading::Came(entries),
                ReadReply::NotRetained(first) => Reading::Behind(first),
            },
            _ => Reading::Unread,
        },
        Reply::Book(_) => Reading::Unread,
        Reply::Dir(_) => Reading::Unread,
    }
}
