//! Clients: their connections, their answers and what they know of their channels.
ghost use Rattle.std.specs.Prelude.{◌≡◌, ◌++◌, ◌∷◌, [], codes, decimal, flat_map, OnOk};
ghost use Rattle.rl_types.specs.States.{chan_word, conn_word};
ghost use Rattle.rl_model.specs.Report.{answer_line, client_lines, held_word, line, member_line, object_lines, spaced, text_or_dash, view_lines, yes_or_no};

use crate::lists::{Printed, push_all};
use crate::words::{
    push_number, push_quoted, push_quoted_or_dash, push_str, push_text_or_dash, push_word,
    push_yes_or_no,
};
use rl_ids::{Blob, ChannelSerial, Epoch, NoMemory};
use rl_runs::{Answer, ChannelView, ClientFindings};
use rl_types::{ObjectState, PresenceItem};

impl Printed for Answer {
    ghost text_of = { λ epoch. answer_line };

    fn push_to(&self, out: &mut Blob, _epoch: Epoch) -> Result<(), NoMemory> {
        match self {
            Answer::Ack { conn, serial } => {
                push_str(out, "ack")?;
                push_word(out, conn.as_str())?;
                push_number(out, *serial)?;
                push_str(out, "\n")
            }
            Answer::Nack { conn, serial, code } => {
                push_str(out, "nack")?;
                push_word(out, conn.as_str())?;
                push_number(out, *serial)?;
                push_number(out, u64::from(*code))?;
                push_str(out, "\n")
            }
        }
    }
}

// The place that is held, whatever its epoch.
fn push_held(out: &mut Blob, held: &Option<ChannelSerial>) -> Result<(), NoMemory>
    ensures { OnOk result (out.new ≡ out.old ++ 32 ∷ held_word held.now) }
{
    match held {
        Some(serial) => push_number(out, serial.place.0),
        None => push_word(out, "-"),
    }
}

// The line of the record itself.
fn push_record(out: &mut Blob, view: &ChannelView) -> Result<(), NoMemory>
    ensures { OnOk result (out.new ≡ out.old ++ line (codes "record") (view.now.name ∷ chan_word view.now.state ∷ held_word view.now.held ∷ [])) }
{
    push_str(out, "record")?;
    push_word(out, view.name.as_str())?;
    push_word(out, view.state.word())?;
    push_held(out, &view.held)?;
    push_str(out, "\n")
}

// Whether what the client knows of a channel is whole.
fn push_whole(out: &mut Blob, first: &str, name: &str, whole: bool) -> Result<(), NoMemory>
    ensures { OnOk result (out.new ≡ out.old ++ line first.now (name.now ∷ yes_or_no whole ∷ [])) }
{
    push_str(out, first)?;
    push_word(out, name)?;
    push_yes_or_no(out, whole)?;
    push_str(out, "\n")
}

// The line of a member.
fn push_member(out: &mut Blob, member: &PresenceItem) -> Result<(), NoMemory>
    ensures { OnOk result (out.new ≡ out.old ++ member_line member.now) }
{
    push_str(out, "member")?;
    push_word(out, member.conn.as_str())?;
    push_quoted(out, &member.client)?;
    push_quoted_or_dash(out, &member.payload)?;
    push_str(out, "\n")
}

// The lines of all members.
fn push_member_lines(out: &mut Blob, members: &[PresenceItem]) -> Result<(), NoMemory>
    ensures { OnOk result (out.new ≡ out.old ++ flat_map member_line members.now) }
{
    for member in members {
        push_member(out, member)?;
    }
    Ok(())
}

// The lines on members.
fn push_members(out: &mut Blob, view: &ChannelView) -> Result<(), NoMemory>
    ensures { OnOk result (out.new ≡ out.old
        ++ line (codes "members") (view.now.name ∷ yes_or_no view.now.members_whole ∷ [])
        ++ flat_map member_line view.now.members) }
{
    push_whole(out, "members", view.name.as_str(), view.members_whole)?;
    push_member_lines(out, view.members.as_slice())
}

// The lines of all objects.
fn push_object_lines(out: &mut Blob, epoch: Epoch, objects: &[ObjectState]) -> Result<(), NoMemory>
    ensures { OnOk result (out.new ≡ out.old ++ flat_map object_lines objects.now) }
{
    push_all(out, epoch, objects)
}

// The lines on objects.
fn push_objects(out: &mut Blob, epoch: Epoch, view: &ChannelView) -> Result<(), NoMemory>
    ensures { OnOk result (out.new ≡ out.old
        ++ line (codes "objects") (view.now.name ∷ yes_or_no view.now.objects_whole ∷ [])
        ++ flat_map object_lines view.now.objects) }
{
    push_whole(out, "objects", view.name.as_str(), view.objects_whole)?;
    push_object_lines(out, epoch, view.objects.as_slice())
}

impl Printed for ChannelView {
    ghost text_of = { view_lines };

    fn push_to(&self, out: &mut Blob, epoch: Epoch) -> Result<(), NoMemory> {
        push_record(out, self)?;
        push_all(out, epoch, self.runs.segments.as_slice())?;
        push_members(out, self)?;
        push_objects(out, epoch, self)
    }
}

// The words of a client's own line on its connection.
fn push_connection(out: &mut Blob, client: &ClientFindings) -> Result<(), NoMemory>
    ensures { OnOk result (out.new ≡ out.old ++ spaced (client.now.name ∷ conn_word client.now.state ∷ text_or_dash client.now.conn ∷ [])) }
{
    push_word(out, client.name.as_str())?;
    push_word(out, client.state.word())?;
    push_text_or_dash(out, &client.conn)
}

// A count with its name before it.
fn push_count(out: &mut Blob, name: &str, count: u64) -> Result<(), NoMemory>
    ensures { OnOk result (out.new ≡ out.old ++ spaced (name.now ∷ decimal count ∷ [])) }
{
    push_word(out, name)?;
    push_number(out, count)
}

// The client's own line.
fn push_client(out: &mut Blob, client: &ClientFindings) -> Result<(), NoMemory>
    ensures { OnOk result (out.new ≡ out.old ++ line (codes "client")
        (client.now.name ∷ conn_word client.now.state ∷ text_or_dash client.now.conn
        ∷ codes "pending" ∷ decimal client.now.pending ∷ codes "dropped" ∷ decimal client.now.dropped ∷ [])) }
{
    push_str(out, "client")?;
    push_connection(out, client)?;
    push_count(out, "pending", client.pending as u64)?;
    push_count(out, "dropped", client.dropped)?;
    push_str(out, "\n")
}

impl Printed for ClientFindings {
    ghost text_of = { client_lines };

    fn push_to(&self, out: &mut Blob, epoch: Epoch) -> Result<(), NoMemory> {
        push_client(out, self)?;
        push_all(out, epoch, self.answers.as_slice())?;
        push_all(out, epoch, self.views.as_slice())
    }
}
