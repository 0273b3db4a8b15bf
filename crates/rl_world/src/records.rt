ghost use Rattle.std.specs.Prelude.{◌≡◌, ◌-◌, ◌^◌, ◌<◌, ◌++◌, min, drop, map, length, OnOk, IfOk};
ghost use Rattle.rl_model.specs.Records.{got_of, segment_end, segments_after, caught_up, got_in, more_got, held_of, last_segment};
ghost use Rattle.rl_model.specs.Limits.{IsChannelName};
ghost use Rattle.rl_world.specs.Ends.{EndBy};
ghost use Rattle.rl_world.specs.Travels.{AreSmallEntries};

use crate::travel::entry_arrives;
use rl_ids::{ChannelSerial, Copied, Epoch, List, NoMemory, Place, Text};
use rl_model::Client;
use rl_runs::{Cause, Segment};
use rl_types::{ChanState, Entry, Given};
use std::alloc::Global;

/// The epoch in which every script runs.
pub const EPOCH: Epoch = Epoch(1);

// The segments go on, or a new one begins, where an ATTACH is answered.
pub fn begin_segment(
    alloc: Global,
    segments: &mut List<Segment>,
    asked: Option<Given>,
    resumed: bool,
    place: Place,
) -> Result<(), NoMemory>
    ensures { OnOk result (segments.new ≡ segments_after asked resumed place segments.old) }
{
    let cause = match asked {
        None => Cause::Opened,
        Some(asked) => {
            if !resumed {
                Cause::NotRetained(asked)
            } else if segments.is_empty() {
                Cause::Recovered(asked)
            } else {
                return Ok(());
            }
        }
    };
    segments.push(Segment {
        start: place,
        cause,
        got: List::new(alloc),
    })
}

// The place behind the last entry got. It stays at the greatest number where it would pass it.
fn segment_end(segment: &Segment) -> u64
    ensures { result ≡ min (segment_end segment.now) (2 ^ 64 - 1) }
{
    segment.start.0.saturating_add(segment.got.len() as u64)
}

// The entries behind a place.
fn rest_of(log: &[Entry], place: u64) -> &[Entry]
    ensures rest { result.now ≡ drop place log.now }
    ensures few { length log.now < 2 ^ 64 }
{
    match usize::try_from(place) {
        Ok(place) if place <= log.len() => &log[place..],
        _ => &log[log.len()..],
    }
}

// These entries arrive at the client, one after another.
fn get_all(
    alloc: Global,
    channel: &Text,
    segment: &mut Segment,
    entries: &[Entry],
) -> Result<(), NoMemory>
    ensures { OnOk result (IsChannelName channel.now → AreSmallEntries entries.now → segment.new ≡ record segment.old { got = segment.old.got ++ map got_of entries.now }) }
{
    for entry in entries {
        let Some(got) = entry_arrives(alloc, channel, entry)? else {
            return Ok(());
        };
        segment.got.push(got)?;
    }
    Ok(())
}

// The segment gets every entry of the log behind its end.
fn get_more(
    alloc: Global,
    channel: &Text,
    segment: &mut Segment,
    log: &[Entry],
) -> Result<(), NoMemory>
    ensures { OnOk result (IsChannelName channel.now → AreSmallEntries log.now → segment.new ≡ more_got log.now segment.old) }
{
    let end = segment_end(segment);
    get_all(alloc, channel, segment, rest_of(log, end))
}

// The last segment gets every entry of the log behind its end.
fn catch_up(
    alloc: Global,
    channel: &Text,
    segments: &mut List<Segment>,
    log: &[Entry],
) -> Result<(), NoMemory>
    ensures { OnOk result (IsChannelName channel.now → AreSmallEntries log.now → segments.new ≡ caught_up log.now segments.old) }
{
    let count = segments.len();
    if count == 0 {
        return Ok(());
    }
    let last = segments.at_mut(count - 1);
    get_more(alloc, channel, last, log)
}

// An attached client gets every entry of the log behind those that it got.
pub fn get_entries(
    alloc: Global,
    channel: &Text,
    client: &mut Client,
    log: &[Entry],
) -> Result<(), NoMemory>
    ensures { OnOk result (IsChannelName channel.now → AreSmallEntries log.now → client.new ≡ record client.old { segments = got_in client.old.chan log.now client.old.segments }) }
{
    if client.chan != ChanState::Attached {
        return Ok(());
    }
    catch_up(alloc, channel, &mut client.segments, log)
}

// The serial that a client holds, where no segment ends past the head.
pub fn held(
    alloc: Global,
    asked: &Option<Given>,
    segments: &List<Segment>,
    head: u64,
) -> Result<Option<Given>, NoMemory>
    ensures { IfOk result (λ serial. EndBy head segments.now → serial ≡ held_of asked.now (last_segment segments.now)) }
{
    match segments.last() {
        None => asked.copy(alloc),
        Some(last) => Ok(Some(Given::Ours(ChannelSerial {
            epoch: EPOCH,
            place: Place(segment_end(last).min(head)),
        }))),
    }
}
