// The connection: how it begins, comes back and is closed.
ghost use Rattle.std.specs.Prelude.{◌≡◌, None, OnOk, OnErr};
ghost use Rattle.rl_actormodel.specs.declared.parts.Wish.TheVariants as wishes;
ghost use Rattle.rl_actormodel.specs.Connects as connects;
ghost use Rattle.rl_actormodel.specs.Replies as replies;
ghost use Rattle.rl_actormodel.specs.State.{wishing};
ghost use Rattle.rl_actorparts.specs.Views.{standing_as};

use crate::actor::Actor;
use rl_actormodel::{Holder, Wish};
use rl_actorparts::{Opening, Resuming, Standing, opening_in, resuming_in, standing_in};
use rl_events::{End, Reply};
use rl_ids::{Copied, Moment, NoMemory, Text, write_conn};
use rl_numbers::codes::KEY_UNKNOWN;
use rl_numbers::limits::{CONNECTION_STATE_TTL, MAX_IDLE_INTERVAL, MAX_MESSAGE_SIZE};
use rl_types::Frame;
use std::alloc::Global;

impl Actor {
    // CONNECTED is put out (RTN4, RTN8, RTN9, CD2).
    fn connect(
        &mut self,
        alloc: Global,
        holder: Holder,
        key: &Text,
        now: Moment,
    ) -> Result<(), NoMemory>
        requires { self.old.ended ≡ None }
        ensures ok { OnOk result (self.new ≡ connects.connected holder key.now now self.old) }
        ensures err { OnErr result (self.new ≡ self.old) }
    {
        let frame = Frame::Connected {
            conn: write_conn(alloc, holder.conn)?,
            key: key.copy(alloc)?,
            ttl: CONNECTION_STATE_TTL,
            idle: MAX_IDLE_INTERVAL,
            size: MAX_MESSAGE_SIZE,
            code: unknown_code(self.unknown),
        };
        self.put(frame, now)?;
        self.holder = Some(holder);
        self.wish = Wish::Nothing;
        Ok(())
    }

    // The reply to a Resume (RTN15c).
    pub(crate) fn resumed(
        &mut self,
        alloc: Global,
        key: Text,
        reply: &Reply,
        now: Moment,
    ) -> Result<(), NoMemory>
        requires { self.old.ended ≡ None }
        ensures ok { OnOk result (self.new ≡ connects.resumed_by key (replies.resuming reply.now) now (wishing (wishes.Resume key) self.old)) }
        ensures err { OnErr result (self.new ≡ wishing (wishes.Resume key) self.old) }
    {
        match resuming_in(reply) {
            Resuming::Back(holder) => match self.connect(alloc, holder, &key, now) {
                Ok(()) => Ok(()),
                Err(fault) => {
                    self.wish = Wish::Resume(key);
                    Err(fault)
                }
            },
            Resuming::NotKnown => {
                self.wish = Wish::Open;
                self.unknown = true;
                Ok(())
            }
            Resuming::Unresumed => {
                self.wish = Wish::Resume(key);
                Ok(())
            }
        }
    }

    // The reply to an Open (RTN4).
    pub(crate) fn opened(
        &mut self,
        alloc: Global,
        reply: Reply,
        now: Moment,
    ) -> Result<(), NoMemory>
        requires { self.old.ended ≡ None }
        ensures ok { OnOk result (self.new ≡ connects.opened_by (replies.opening reply) now (wishing wishes.Open self.old)) }
        ensures err { OnErr result (self.new ≡ wishing wishes.Open self.old) }
    {
        match opening_in(reply) {
            Opening::Opens(holder, key) => match self.connect(alloc, holder, &key, now) {
                Ok(()) => Ok(()),
                Err(fault) => {
                    self.wish = Wish::Open;
                    Err(fault)
                }
            },
            Opening::Limited(count, given) => {
                self.end(End::ConnectionLimit { count, given });
                Ok(())
            }
            Opening::Unopened => {
                self.wish = Wish::Open;
                Ok(())
            }
        }
    }

    // The reply to a Close: CLOSED is put out (RTN12a).
    pub(crate) fn closed(
        &mut self,
        holder: Holder,
        reply: &Reply,
        now: Moment,
    ) -> Result<(), NoMemory>
        requires { self.old.ended ≡ None }
        ensures ok { OnOk result (self.new ≡ connects.if_held holder (replies.standing reply.now) (connects.closed now) (wishing (wishes.Close holder) self.old)) }
        ensures err { OnErr result (self.new ≡ wishing (wishes.Close holder) self.old) }
    {
        match standing_in(reply) {
            Standing::Holds => match self.put(Frame::Closed, now) {
                Ok(()) => {
                    self.end(End::Closed);
                    Ok(())
                }
                Err(fault) => {
                    self.wish = Wish::Close(holder);
                    Err(fault)
                }
            },
            Standing::Unsaid => {
                self.wish = Wish::Close(holder);
                Ok(())
            }
            lost => {
                self.let_go(holder, lost);
                Ok(())
            }
        }
    }

    // An actor whose connection is no longer its own ends. (This project's own.)
    pub(crate) fn let_go(&mut self, holder: Holder, found: Standing)
        requires { self.old.ended ≡ None }
        ensures { self.new ≡ connects.if_held holder (standing_as found) (λ s. s) self.old }
    {
        match found {
            Standing::Passed(newer) => {
                let mine = holder.generation;
                self.end(End::Superseded { mine, newer });
            }
            Standing::Gone => self.end(End::Forgotten),
            Standing::Holds => {}
            Standing::Unsaid => {}
        }
    }
}

// CONNECTED says that a key was brought which is not known (RTN15c7; the code is this project's own).
fn unknown_code(unknown: bool) -> Option<u32>
    ensures { result ≡ connects.unknown_code unknown }
{
    if unknown { Some(KEY_UNKNOWN) } else { None }
}
