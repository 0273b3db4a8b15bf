// Entries as the frames in which they are put out.
ghost use Rattle.std.specs.Prelude.{◌≡◌, ◌++◌, ◌∷◌, [], OnOk, IfOk, map};
ghost use Rattle.rl_actormodel.specs.Reads as reads;
ghost use Rattle.rl_actorparts.specs.Runs.{head_of};

use rl_ids::{
    ChannelSerial, ConnNo, Copied, Epoch, List, Moment, NoMemory, Place, Text, write_conn,
};
use rl_types::{Body, Entry, Frame, Head};
use std::alloc::Global;
use std::collections::VecDeque;

// The entries as they are put out (RTL7).
pub(crate) fn entry_frames(
    alloc: Global,
    name: &Text,
    epoch: Epoch,
    entries: List<Entry>,
) -> Result<VecDeque<Frame>, NoMemory>
    ensures { IfOk result (λ frames. frames.items ≡ map (reads.entry_frame name.now epoch) entries) }
{
    let mut frames = VecDeque::new(alloc);
    for entry in entries.into_vec() {
        push_entry(alloc, &mut frames, name, epoch, entry)?;
    }
    Ok(frames)
}

fn push_entry(
    alloc: Global,
    frames: &mut VecDeque<Frame>,
    name: &Text,
    epoch: Epoch,
    entry: Entry,
) -> Result<(), NoMemory>
    ensures { OnOk result (frames.new.items ≡ frames.old.items ++ reads.entry_frame name.now epoch entry ∷ []) }
{
    let frame = entry_frame(alloc, name, epoch, entry)?;
    frames.push_back(frame)?;
    Ok(())
}

// An entry as it is put out: its channel serial, connection and stamp stand in the frame's head (RTL7, TR4).
fn entry_frame(alloc: Global, name: &Text, epoch: Epoch, entry: Entry) -> Result<Frame, NoMemory>
    ensures { IfOk result (λ frame. frame ≡ reads.entry_frame name.now epoch entry) }
{
    let Entry {
        place,
        stamp,
        conn,
        serial: _,
        body,
    } = entry;
    let head = entry_head(alloc, name, epoch, place, conn, stamp)?;
    Ok(body_frame(head, body))
}

fn entry_head(
    alloc: Global,
    name: &Text,
    epoch: Epoch,
    place: Place,
    conn: ConnNo,
    stamp: Moment,
) -> Result<Head, NoMemory>
    ensures { IfOk result (λ head. head ≡ head_of name.now epoch place conn stamp) }
{
    Ok(Head {
        channel: name.copy(alloc)?,
        msg: None,
        serial: Some(ChannelSerial { epoch, place }),
        conn: Some(write_conn(alloc, conn)?),
        id: None,
        stamp: Some(stamp),
    })
}

// Messages, presence items and operations each have their frame (TR2).
fn body_frame(head: Head, body: Body) -> Frame
    ensures { result ≡ reads.body_frame head body }
{
    match body {
        Body::Messages(items) => Frame::Message { head, items },
        Body::Presence(items) => Frame::Presence { head, items },
        Body::Objects(ops) => Frame::Object { head, ops },
    }
}
