// A connection goes for good, and its members with it.
ghost use Rattle.std.specs.Prelude.{◌≡◌, ◌≤◌, IfOk, OnOk, OnErr, option_map};
ghost use Rattle.rl_types.specs.declared.messages.Entry as entries;
ghost use Rattle.rl_model.specs.Parts.{Parts};
ghost use Rattle.rl_chanlog.specs.Keeps.{Keeps};
ghost use Rattle.rl_channel.specs.State.{Loses, Stays};
ghost use Rattle.rl_channel.specs.Leaving.{LeaveWith, left_entry, with_left};

use crate::channel::Channel;
use crate::leaving::leaves_of;
use rl_ids::{ConnNo, List, Moment, NoMemory, Place, Text, write_conn};
use rl_numbers::limits::MAX_PLACE;
use rl_types::{Body, Entry};
use std::alloc::Global;

impl Channel {
    /// A connection is gone for good (this project's own): its last outcome is forgotten, and its members leave, told
    /// by one entry whose place is answered. Where it has none, or the log is full, none leaves and there is no entry.
    /// All memory is taken before the first change: after `NoMemory` the channel stands for what it stood for.
    pub fn gone(
        &mut self,
        alloc: Global,
        conn: ConnNo,
        now: Moment,
    ) -> Result<Option<Place>, NoMemory>
        ensures decided { IfOk result (λ place. Loses self.old self.new conn now place) }
        ensures err { OnErr result (Stays self.old self.new) }
        ensures setup { self.new.setup ≡ self.old.setup }
    {
        let stamp = self.clock_at(now);
        let id = write_conn(alloc, conn)?;
        let clients = self.members.on(alloc, id.as_str())?;
        let place = self.leave(alloc, conn, stamp, &id, clients)?;
        self.log.forget(conn);
        self.clock = stamp;
        Ok(place)
    }

    // These members of a connection leave in one entry, where there are some and the log is not full.
    fn leave(
        &mut self,
        alloc: Global,
        conn: ConnNo,
        stamp: Moment,
        id: &Text,
        clients: List<Text>,
    ) -> Result<Option<Place>, NoMemory>
        requires later { self.old.clock ≤ stamp }
        ensures place { IfOk result (λ place. place ≡ option_map (λ (e : entries.Entry). e.place) (left_entry self.old.log.head stamp conn id.now clients)) }
        ensures log { OnOk result ((parts : Parts) → Keeps self.old.log parts → Keeps self.new.log (with_left (left_entry self.old.log.head stamp conn id.now clients) parts)) }
        ensures members { OnOk result (LeaveWith (left_entry self.old.log.head stamp conn id.now clients) id.now clients self.old.members self.new.members) }
        ensures newest { self.new.log.newest ≤ stamp }
        ensures err { OnErr result ((parts : Parts) → Keeps self.old.log parts → Keeps self.new.log parts) }
        ensures same_members { OnErr result (self.new.members ≡ self.old.members) }
        ensures objects { self.new.objects ≡ self.old.objects }
        ensures same_clock { OnErr result (self.new.clock ≡ self.old.clock) }
        ensures setup { self.new.setup ≡ self.old.setup }
    {
        let head = self.log.head().0;
        if clients.is_empty() || head == MAX_PLACE {
            return Ok(None);
        }
        let place = Place(head + 1);
        let items = leaves_of(alloc, place, stamp, id, clients)?;
        let entry = Entry {
            place,
            stamp,
            conn,
            serial: None,
            body: Body::Presence(items),
        };
        self.log.reserve(alloc, &entry)?;
        self.members.gone(alloc, id.as_str())?;
        self.clock = stamp;
        self.log.add(entry, None);
        Ok(Some(place))
    }
}
