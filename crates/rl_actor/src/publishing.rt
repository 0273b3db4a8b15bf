// A put, from Begin to ACK or NACK.
ghost use Rattle.std.specs.Prelude.{◌≡◌, None, OnOk, OnErr};
ghost use Rattle.rl_actormodel.specs.declared.parts.Wish.TheVariants as wishes;
ghost use Rattle.rl_actormodel.specs.Connects as connects;
ghost use Rattle.rl_actormodel.specs.Publishes as publishes;
ghost use Rattle.rl_actormodel.specs.Replies as replies;
ghost use Rattle.rl_actormodel.specs.State.{wishing};
ghost use Rattle.rl_actor.specs.Joins.{put_next};

use crate::actor::Actor;
use rl_actormodel::{Holder, Publish, Wish};
use rl_actorparts::{
    Beginning, Numbering, Standing, beginning_in, numbering_in, outcome_of, standing_in, verdict_in,
};
use rl_events::{ChannelNo, End, Outcome, Reply, Verdict};
use rl_ids::{Moment, NoMemory};
use rl_numbers::codes::CHANNEL_LIMIT;
use rl_types::Frame;
use std::alloc::Global;

impl Actor {
    // The put is acknowledged (RTN7a).
    fn settle(&mut self, p: &Publish, outcome: Option<Outcome>, now: Moment) -> Result<(), NoMemory>
        requires { self.old.ended ≡ None }
        ensures ok { OnOk result (self.new ≡ publishes.settled p.now outcome now self.old) }
        ensures err { OnErr result (self.new ≡ self.old) }
    {
        match outcome {
            None => {}
            Some(Outcome::Taken(_)) => {
                let serial = p.serial;
                self.put(Frame::Ack { serial, count: 1 }, now)?;
            }
            Some(Outcome::Refused(code)) => {
                let serial = p.serial;
                let count = 1;
                self.put(
                    Frame::Nack {
                        serial,
                        count,
                        code,
                    },
                    now,
                )?;
            }
        }
        self.wish = Wish::Nothing;
        Ok(())
    }

    // The reply to a Begin (RTN7b, RTN19a).
    pub(crate) fn begun(
        &mut self,
        p: Publish,
        holder: Holder,
        reply: &Reply,
        now: Moment,
    ) -> Result<(), NoMemory>
        requires { self.old.ended ≡ None }
        ensures ok { OnOk result (self.new ≡ publishes.begun_by p holder (replies.beginning reply.now) now (wishing (wishes.Begin p holder) self.old)) }
        ensures err { OnErr result (self.new ≡ wishing (wishes.Begin p holder) self.old) }
    {
        match beginning_in(reply) {
            Beginning::Overtaken(newer) => {
                self.end(End::Superseded {
                    mine: holder.generation,
                    newer,
                });
                Ok(())
            }
            Beginning::Missing => {
                self.end(End::Forgotten);
                Ok(())
            }
            Beginning::Knows(outcome) => match self.settle(&p, Some(outcome), now) {
                Ok(()) => Ok(()),
                Err(fault) => {
                    self.wish = Wish::Begin(p, holder);
                    Err(fault)
                }
            },
            Beginning::Above(got, expected) => {
                self.end(End::SerialGap { got, expected });
                Ok(())
            }
            Beginning::Below(got, expected) => {
                self.end(End::SerialOld { got, expected });
                Ok(())
            }
            Beginning::Goes => {
                let number = self.number(&p.channel);
                self.wish = put_wish(p, holder, number);
                Ok(())
            }
            Beginning::Unbegun => {
                self.wish = Wish::Begin(p, holder);
                Ok(())
            }
        }
    }

    // The directory's reply: the channel's number is known from now on; where it is full the put is refused.
    pub(crate) fn put_at(
        &mut self,
        alloc: Global,
        p: Publish,
        holder: Holder,
        reply: &Reply,
    ) -> Result<(), NoMemory>
        ensures ok { OnOk result (self.new ≡ publishes.put_at p holder (replies.numbering reply.now) (wishing (wishes.AskToPut p holder) self.old)) }
        ensures err { OnErr result (self.new ≡ wishing (wishes.AskToPut p holder) self.old) }
    {
        match numbering_in(reply) {
            Numbering::Has(number) => match self.know(alloc, &p.channel, number) {
                Ok(()) => {
                    self.wish = Wish::Put(p, holder, number);
                    Ok(())
                }
                Err(fault) => {
                    self.wish = Wish::AskToPut(p, holder);
                    Err(fault)
                }
            },
            Numbering::HasNone => {
                self.wish = Wish::Finish(p, holder, Some(Outcome::Refused(CHANNEL_LIMIT)));
                Ok(())
            }
            Numbering::Unnumbered => {
                self.wish = Wish::AskToPut(p, holder);
                Ok(())
            }
        }
    }

    // The channel's reply: the book is told (RTN7a).
    pub(crate) fn put_by(&mut self, p: Publish, holder: Holder, number: ChannelNo, reply: &Reply)
        ensures { self.new ≡ publishes.put_by p holder (replies.verdict_in reply.now) (wishing (wishes.Put p holder number) self.old) }
    {
        self.wish = finish_wish(p, holder, number, verdict_in(reply));
    }

    // The reply to an End: the put is acknowledged (RTN7a).
    pub(crate) fn finished(
        &mut self,
        p: Publish,
        holder: Holder,
        outcome: Option<Outcome>,
        reply: &Reply,
        now: Moment,
    ) -> Result<(), NoMemory>
        requires { self.old.ended ≡ None }
        ensures ok { OnOk result (self.new ≡ connects.if_held holder (replies.standing reply.now) (publishes.settled p outcome now) (wishing (wishes.Finish p holder outcome) self.old)) }
        ensures err { OnErr result (self.new ≡ wishing (wishes.Finish p holder outcome) self.old) }
    {
        let kept = outcome;
        match standing_in(reply) {
            Standing::Holds => match self.settle(&p, outcome, now) {
                Ok(()) => Ok(()),
                Err(fault) => {
                    self.wish = Wish::Finish(p, holder, kept);
                    Err(fault)
                }
            },
            Standing::Unsaid => {
                self.wish = Wish::Finish(p, holder, kept);
                Ok(())
            }
            lost => {
                self.let_go(holder, lost);
                Ok(())
            }
        }
    }
}

// The book is told of the put's outcome, where the channel replied.
fn finish_wish(p: Publish, holder: Holder, number: ChannelNo, verdict: Option<Verdict>) -> Wish
    ensures { result ≡ put_next p holder number verdict }
{
    match verdict {
        None => Wish::Put(p, holder, number),
        Some(verdict) => Wish::Finish(p, holder, outcome_of(verdict)),
    }
}

// The directory is asked for a channel's number, and is not asked again for one that is known.
fn put_wish(p: Publish, holder: Holder, number: Option<ChannelNo>) -> Wish
    ensures { result ≡ publishes.put_wish p holder number }
{
    match number {
        None => Wish::AskToPut(p, holder),
        Some(number) => Wish::Put(p, holder, number),
    }
}
