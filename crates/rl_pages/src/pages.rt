ghost use Rattle.std.specs.Prelude.{◌≡◌, IfOk, OnOk, OnErr, true, None, Some, map, []};
ghost use Rattle.std.specs.List.{last_or};
ghost use Rattle.rl_events.specs.declared.channel.ChannelReply.TheVariants as replies;
ghost use Rattle.rl_pages.specs.Frames as frames;
ghost use Rattle.rl_pages.specs.State as state;

use crate::frames::{end_at, page_at};
use crate::progress::Progress;
use rl_events::{ChannelEvent, ChannelReply};
use rl_ids::{Copied, List, MemberKey, NoMemory, ObjectId, Place, Text};
use rl_numbers::limits::{PAGE_MEMBERS, PAGE_OBJECTS};
use rl_types::{Frame, ObjectState, PresenceItem};
use std::alloc::Global;
use std::marker::Model;

/// The page sequences of one session: of the members and of the objects of its channel, each where it was asked for.
/// They are sent page by page, all pages of the members first (RTP18, RTO5), and end together, once the session has
/// sent all entries that stood in the log when the pages were made. (The rule of the end is this project's own.)
#[derive(Drop)]
pub struct Pages {
    channel: Text,
    sequence: u64,
    members: Progress,
    after_member: Option<MemberKey>,
    objects: Progress,
    after_object: Option<ObjectId>,
    ended: bool,
}

impl Model for Pages {
    ghost use Rattle.rl_pages.specs.State.{Sequences};

    ghost Value = { Sequences };

    ghost view = { λ p. record { channel = p.channel; sequence = p.sequence; members = p.members; after_member = p.after_member; objects = p.objects; after_object = p.after_object; ended = p.ended } };
}

impl Pages {
    /// The sequences of a session that begins on this channel, with the sync's number: of the members where
    /// `presence`, of the objects where `objects`. No page came yet. It takes no memory.
    pub fn new(channel: Text, sequence: u64, presence: bool, objects: bool) -> Pages
        ensures { result ≡ state.new_pages channel sequence presence objects }
    {
        Pages {
            channel,
            sequence,
            members: Progress::new(presence),
            after_member: None,
            objects: Progress::new(objects),
            after_object: None,
            ended: !(presence || objects),
        }
    }

    /// The event of the page that is wanted next: of at most [`PAGE_MEMBERS`] members or [`PAGE_OBJECTS`] objects,
    /// past the last one that came. The objects begin once the members are whole. `None` exactly where every page
    /// that was asked for was absorbed. (RTP18, RTO5; the sizes are this project's own.)
    pub fn next(&self, alloc: Global) -> Result<Option<ChannelEvent>, NoMemory>
        ensures { IfOk result (λ event. event ≡ state.next_event self.now) }
    {
        if !self.members.done {
            let after = self.after_member.copy(alloc)?;
            let max = PAGE_MEMBERS;
            return Ok(Some(ChannelEvent::MemberPage { after, max }));
        }
        if !self.objects.done {
            let after = self.after_object;
            let max = PAGE_OBJECTS;
            return Ok(Some(ChannelEvent::ObjectPage { after, max }));
        }
        Ok(None)
    }

    /// Takes the page that was wanted next, as a reply to the event that [`next`](Pages::next) gives, and answers the
    /// frame in which it is sent: its members or objects as they came, under `SEQUENCE:PAGE`, the pages of each kind
    /// numbered from 1 (RTP18a). The next page begins past the last key that came; an empty page leaves where it
    /// begins. All memory is taken before the first change: where there is none, the sequences are as before. (The
    /// spelling of both numbers, in decimal, is this project's own.)
    pub fn absorb(&mut self, alloc: Global, reply: &ChannelReply) -> Result<Frame, NoMemory>
        requires { state.is_wanted reply.now self.old ≡ true }
        ensures frame { IfOk result (λ frame. state.page_frame reply.now self.old ≡ Some frame) }
        ensures absorbed { OnOk result (self.new ≡ state.page_absorbed reply.now self.old) }
        ensures err { OnErr result (self.new ≡ self.old) }
    {
        match reply {
            ChannelReply::Members { items, last, head } => {
                self.absorb_members(alloc, items, *last, *head)
            }
            ChannelReply::Objects { states, last, head } => {
                self.absorb_objects(alloc, states, *last, *head)
            }
            _ => unreachable!(),
        }
    }

    /// Whether the sequences may end for a session that has sent the entries up to this place: some sequence that was
    /// asked for has not ended, every page that was asked for was absorbed, and the place is at least every head at
    /// which they were made. Where nothing was asked for there is nothing to end. It takes no memory. (This project's
    /// own.)
    pub fn may_end(&self, position: Place) -> bool
        ensures { result ≡ state.may_end position self.now }
    {
        self.is_complete() && self.members.head <= position && self.objects.head <= position
    }

    /// The end pages, each empty and with an empty cursor (RTP18b, RTO5a4): that of the members before that of the
    /// objects, each where it was asked for. After it every sequence has ended, and it gives no frames again. Where
    /// pages remain it gives none, and nothing ends. That the session's position allows the end is the caller's to
    /// see, by [`may_end`](Pages::may_end). All memory is taken before the first change: where there is none, the
    /// sequences are as before.
    pub fn end_frames(&mut self, alloc: Global) -> Result<List<Frame>, NoMemory>
        ensures frames { IfOk result (λ frames. frames ≡ state.end_frames self.old) }
        ensures ended { OnOk result (self.new ≡ state.ended self.old) }
        ensures err { OnErr result (self.new ≡ self.old) }
    {
        let frames = self.frames_at_end(alloc)?;
        self.end();
        Ok(frames)
    }

    /// What [`end_frames`](Pages::end_frames) gives. The sequences are unchanged: see [`end`](Pages::end).
    pub fn frames_at_end(&self, alloc: Global) -> Result<List<Frame>, NoMemory>
        ensures { IfOk result (λ frames. frames ≡ state.end_frames self.now) }
    {
        if self.is_complete() {
            self.end_pages(alloc)
        } else {
            Ok(List::new(alloc))
        }
    }

    /// Ends the sequences where every page that was asked for was absorbed; where pages remain nothing ends. It takes
    /// no memory.
    pub fn end(&mut self)
        ensures { self.new ≡ state.ended self.old }
    {
        self.ended = self.ended || self.is_complete();
    }
}

impl Pages {
    // Some sequence that was asked for has not ended, and every page that was asked for was absorbed.
    fn is_complete(&self) -> bool
        ensures { result ≡ state.is_complete self.now }
    {
        !self.ended && self.members.done && self.objects.done
    }

    #[tactic(auto, using(crate::proofs::Lasts::last_else))]
    fn absorb_members(
        &mut self,
        alloc: Global,
        items: &List<PresenceItem>,
        last: bool,
        head: Place,
    ) -> Result<Frame, NoMemory>
        ensures frame { IfOk result (λ frame. state.page_frame (replies.Members items.now last head) self.old ≡ Some frame) }
        ensures absorbed { OnOk result (self.new ≡ state.page_absorbed (replies.Members items.now last head) self.old) }
        ensures err { OnErr result (self.new ≡ self.old) }
    {
        let at = page_at(alloc, self.sequence, self.members.next_number())?;
        let channel = self.channel.copy(alloc)?;
        let frame_items = items.copy(alloc)?;
        let key = last_member(alloc, items)?;
        self.members.add_page(last, head);
        self.after_member = key.or(self.after_member.take());
        Ok(Frame::Sync {
            channel,
            at: Some(at),
            items: frame_items,
        })
    }

    #[tactic(auto, using(crate::proofs::Lasts::last_else))]
    fn absorb_objects(
        &mut self,
        alloc: Global,
        states: &List<ObjectState>,
        last: bool,
        head: Place,
    ) -> Result<Frame, NoMemory>
        ensures frame { IfOk result (λ frame. state.page_frame (replies.Objects states.now last head) self.old ≡ Some frame) }
        ensures absorbed { OnOk result (self.new ≡ state.page_absorbed (replies.Objects states.now last head) self.old) }
        ensures err { OnErr result (self.new ≡ self.old) }
    {
        let at = page_at(alloc, self.sequence, self.objects.next_number())?;
        let channel = self.channel.copy(alloc)?;
        let frame_states = states.copy(alloc)?;
        self.objects.add_page(last, head);
        self.after_object = last_object(states).or(self.after_object);
        Ok(Frame::ObjectSync {
            channel,
            at: Some(at),
            states: frame_states,
        })
    }

    fn end_pages(&self, alloc: Global) -> Result<List<Frame>, NoMemory>
        ensures { IfOk result (λ frames. frames ≡ state.end_pages self.now) }
    {
        let mut frames = List::new(alloc);
        if self.members.asked {
            frames.push(self.member_end(alloc)?)?;
        }
        if self.objects.asked {
            frames.push(self.object_end(alloc)?)?;
        }
        Ok(frames)
    }

    fn member_end(&self, alloc: Global) -> Result<Frame, NoMemory>
        ensures { IfOk result (λ frame. frame ≡ frames.member_frame self.now.channel (frames.end_at self.now.sequence) []) }
    {
        Ok(Frame::Sync {
            channel: self.channel.copy(alloc)?,
            at: Some(end_at(alloc, self.sequence)?),
            items: List::new(alloc),
        })
    }

    fn object_end(&self, alloc: Global) -> Result<Frame, NoMemory>
        ensures { IfOk result (λ frame. frame ≡ frames.object_frame self.now.channel (frames.end_at self.now.sequence) []) }
    {
        Ok(Frame::ObjectSync {
            channel: self.channel.copy(alloc)?,
            at: Some(end_at(alloc, self.sequence)?),
            states: List::new(alloc),
        })
    }
}

impl Copied for Pages {
    fn copy(&self, alloc: Global) -> Result<Pages, NoMemory> {
        Ok(Pages {
            channel: self.channel.copy(alloc)?,
            sequence: self.sequence,
            members: self.members,
            after_member: self.after_member.copy(alloc)?,
            objects: self.objects,
            after_object: self.after_object,
            ended: self.ended,
        })
    }
}

// The key of the last member, where there is one.
#[tactic(auto, using(crate::proofs::Lasts::last_mapped))]
fn last_member(alloc: Global, items: &List<PresenceItem>) -> Result<Option<MemberKey>, NoMemory>
    ensures { IfOk result (λ key. key ≡ last_or None (map state.member_key items.now)) }
{
    match items.last() {
        Some(item) => Ok(Some(member_key(alloc, item)?)),
        None => Ok(None),
    }
}

fn member_key(alloc: Global, item: &PresenceItem) -> Result<MemberKey, NoMemory>
    ensures { IfOk result (λ key. key ≡ state.member_key item.now) }
{
    Ok(MemberKey {
        conn: item.conn.copy(alloc)?,
        client: item.client.copy(alloc)?,
    })
}

// The id of the last object, where there is one.
#[tactic(auto, using(crate::proofs::Lasts::last_mapped))]
fn last_object(states: &List<ObjectState>) -> Option<ObjectId>
    ensures { result ≡ last_or None (map state.object_id states.now) }
{
    match states.last() {
        Some(one) => Some(one.id),
        None => None,
    }
}
