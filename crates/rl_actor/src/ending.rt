// How an actor ends, and what it does at rest.
ghost use Rattle.std.specs.Prelude.{◌≡◌, None, Some, IfOk, OnErr};
ghost use Rattle.rl_types.specs.declared.frames.Frame.TheVariants as frames;
ghost use Rattle.rl_actormodel.specs.Ends as ends;
ghost use Rattle.rl_actormodel.specs.Rests as rests;

use crate::actor::Actor;
use rl_actormodel::{Holder, Wish};
use rl_events::End;
use rl_ids::{Moment, NoMemory};
use rl_numbers::codes::{
    BAD_FRAME, CONNECTION_LIMIT, IDLE, LAGGED, SERIAL_GAP, SERIAL_OLD, SUPERSEDED,
};
use rl_numbers::limits::{HEARTBEAT_INTERVAL, SESSION_IDLE};
use rl_types::Frame;

impl Actor {
    // The actor ends: what it wanted is given up, and the farewell waits behind all else.
    pub(crate) fn end(&mut self, why: End)
        requires { self.old.ended ≡ None }
        ensures { self.new ≡ ends.ended_by why self.old }
    {
        self.wish = last_wish(&why, self.holder);
        self.farewell = farewell(&why);
        self.ended = Some(why);
    }

    /// The link is over, or the service stops: the actor ends so, gives up what it wanted, and wants to tell the book of
    /// the loss of its connection where it has one. A DISCONNECTED waits behind all else where the end has one (RTN15h; the
    /// codes are this project's own). An actor that has ended is left as it is. It takes no memory.
    pub fn link_over(&mut self, why: End)
        ensures { self.new ≡ ends.over why self.old }
    {
        if self.ended.is_none() {
            self.end(why);
        }
    }

    /// No frame is there to be taken up, at this moment. An actor that has no session ends as idle where none came for
    /// [`SESSION_IDLE`]; else it puts out a HEARTBEAT where no frame waits and none was put out for [`HEARTBEAT_INTERVAL`]
    /// (RTN23). One that is ended or wants a call does nothing. Answers whether something was done.
    pub fn rest(&mut self, now: Moment) -> Result<bool, NoMemory>
        ensures ok { IfOk result (λ did. (did ≡ rests.does_rest now self.old) × (self.new ≡ rests.rested now self.old)) }
        ensures err { OnErr result (self.new ≡ self.old) }
    {
        if !self.is_free() {
            return Ok(false);
        }
        if self.is_idle(now) {
            let last = self.last_in;
            self.end(End::Idle { last, now });
            return Ok(true);
        }
        if self.is_quiet(now) {
            self.put(Frame::Heartbeat, now)?;
            return Ok(true);
        }
        Ok(false)
    }

    // No channel has a session, and no frame came for too long.
    fn is_idle(&self, now: Moment) -> bool
        ensures { result ≡ rests.is_idle now self.now }
    {
        self.sessions.is_empty() && now.0.saturating_sub(self.last_in.0) >= SESSION_IDLE
    }

    // No frame waits, and none was put out for too long.
    fn is_quiet(&self, now: Moment) -> bool
        ensures { result ≡ rests.is_quiet now self.now }
    {
        self.queue.is_empty()
            && self.farewell.is_none()
            && now.0.saturating_sub(self.last_out.0) >= HEARTBEAT_INTERVAL
    }
}

// The DISCONNECTED that tells of an end.
fn farewell(why: &End) -> Option<Frame>
    ensures { result ≡ ends.farewell why.now }
{
    match why {
        End::Closed => None,
        End::LinkEnded => None,
        End::LinkFault => None,
        End::Superseded { .. } => Some(disconnected(SUPERSEDED)),
        End::Forgotten => Some(disconnected(SUPERSEDED)),
        End::Lagged { .. } => Some(disconnected(LAGGED)),
        End::BadFrame(_) => Some(disconnected(BAD_FRAME)),
        End::SerialGap { .. } => Some(disconnected(SERIAL_GAP)),
        End::SerialOld { .. } => Some(disconnected(SERIAL_OLD)),
        End::Idle { .. } => Some(disconnected(IDLE)),
        End::Stopped => Some(Frame::Disconnected { code: None }),
        End::ConnectionLimit { .. } => Some(disconnected(CONNECTION_LIMIT)),
        End::NoMemory => None,
    }
}

fn disconnected(code: u32) -> Frame
    ensures { result ≡ frames.Disconnected (Some code) }
{
    Frame::Disconnected { code: Some(code) }
}

// What an actor wants once it has ended: to tell of the loss of its connection, where it still has it.
fn last_wish(why: &End, holder: Option<Holder>) -> Wish
    ensures { result ≡ ends.last_wish why.now holder }
{
    match why {
        End::Closed => Wish::Nothing,
        End::Superseded { .. } => Wish::Nothing,
        End::Forgotten => Wish::Nothing,
        End::ConnectionLimit { .. } => Wish::Nothing,
        _ => lost_wish(holder),
    }
}

fn lost_wish(holder: Option<Holder>) -> Wish
    ensures { result ≡ ends.lost_wish holder }
{
    match holder {
        Some(holder) => Wish::Lost(holder),
        None => Wish::Nothing,
    }
}
