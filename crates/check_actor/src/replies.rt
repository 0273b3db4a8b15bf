// What a machine replies, as lines say it.
use crate::words::{code, conn, members, messages, moment, number, place, serial, split_two};
use anyhow::{Context, Result, anyhow};
use rl_events::{BookReply, ChannelNo, ChannelReply, DirReply, Outcome, ReadReply, Reply, Verdict};
use rl_ids::{List, ObjectId, Text};
use rl_types::{Body, Entry, ObjectBody, ObjectState};
use std::alloc::Global;

// `taken PLACE` or `refused CODE`.
fn outcome(words: &str) -> Result<Outcome> {
    let (word, rest) = split_two(words)?;
    match word {
        "taken" => Ok(Outcome::Taken(place(rest)?)),
        "refused" => Ok(Outcome::Refused(code(rest)?)),
        _ => Err(anyhow!("no outcome: {word}")),
    }
}

fn opened(alloc: Global, rest: &str) -> Result<BookReply> {
    let (no, rest) = split_two(rest)?;
    let (generation, key) = split_two(rest)?;
    Ok(BookReply::Opened {
        conn: conn(no)?,
        generation: number(generation)?,
        key: Text::from_str(alloc, key)?,
    })
}

fn book(alloc: Global, word: &str, rest: &str) -> Result<BookReply> {
    match word {
        "opened" => opened(alloc, rest),
        "limit" => {
            let (count, given) = split_two(rest)?;
            Ok(BookReply::Limit {
                count: count.parse::<usize>()?,
                given: code(given)?,
            })
        }
        "resumed" => {
            let (no, generation) = split_two(rest)?;
            Ok(BookReply::Resumed {
                conn: conn(no)?,
                generation: number(generation)?,
            })
        }
        "keyunknown" => Ok(BookReply::KeyUnknown),
        "go" => Ok(BookReply::Go),
        "known" => Ok(BookReply::Known(outcome(rest)?)),
        "gap" => {
            let (got, expected) = split_two(rest)?;
            Ok(BookReply::SerialGap {
                got: number(got)?,
                expected: number(expected)?,
            })
        }
        "below" => {
            let (got, expected) = split_two(rest)?;
            Ok(BookReply::SerialOld {
                got: number(got)?,
                expected: number(expected)?,
            })
        }
        "superseded" => Ok(BookReply::Superseded {
            newer: number(rest)?,
        }),
        "norecord" => Ok(BookReply::NoRecord),
        "done" => Ok(BookReply::Done),
        "expired" => Ok(BookReply::Expired(List::new(alloc))),
        _ => Err(anyhow!("no reply: {word}")),
    }
}

// `SERIAL FLAGS`: r for resumed, p and o for members and objects that may be there.
fn joined(rest: &str) -> Result<ChannelReply> {
    let (at, flags) = split_two(rest)?;
    Ok(ChannelReply::Joined {
        serial: serial(at)?,
        resumed: flags.contains('r'),
        presence: flags.contains('p'),
        objects: flags.contains('o'),
    })
}

// `PLACE/STAMP/CONN/KIND/ITEMS`.
fn entry(alloc: Global, words: &str) -> Result<Entry> {
    let (at, rest) = words.split_once('/').context("no place")?;
    let (stamp, rest) = rest.split_once('/').context("no stamp")?;
    let (no, rest) = rest.split_once('/').context("no connection")?;
    let (kind, items) = rest.split_once('/').context("no kind")?;
    let body = match kind {
        "message" => Body::Messages(messages(alloc, items)?),
        "presence" => Body::Presence(members(alloc, items)?),
        _ => Body::Objects(List::new(alloc)),
    };
    Ok(Entry {
        place: place(at)?,
        stamp: moment(stamp)?,
        conn: conn(no)?,
        serial: Some(0),
        body,
    })
}

fn run(alloc: Global, words: &str) -> Result<ReadReply> {
    let mut entries = List::new(alloc);
    if words == "-" {
        return Ok(ReadReply::Run(entries));
    }
    for words in words.split(' ') {
        entries.push(entry(alloc, words)?)?;
    }
    Ok(ReadReply::Run(entries))
}

fn states(alloc: Global, count: &str) -> Result<List<ObjectState>> {
    let mut states = List::new(alloc);
    for _made in 0..count.parse::<u32>()? {
        states.push(ObjectState {
            id: ObjectId::Root,
            sites: List::new(alloc),
            tombstone: false,
            created: true,
            body: ObjectBody::Counter(0),
        })?;
    }
    Ok(states)
}

// `ITEMS last|more HEAD`.
fn page(alloc: Global, kind: &str, rest: &str) -> Result<ChannelReply> {
    let (items, rest) = split_two(rest)?;
    let (word, head) = split_two(rest)?;
    let last = word == "last";
    let head = place(head)?;
    match kind {
        "members" => Ok(ChannelReply::Members {
            items: members(alloc, items)?,
            last,
            head,
        }),
        _ => Ok(ChannelReply::Objects {
            states: states(alloc, items)?,
            last,
            head,
        }),
    }
}

fn verdict(rest: &str) -> Result<Verdict> {
    if rest == "old" {
        return Ok(Verdict::Old);
    }
    Ok(Verdict::Done(outcome(rest)?))
}

/// The reply that a line says.
pub fn reply_of(alloc: Global, words: &str) -> Result<Reply> {
    let (word, rest) = words.split_once(' ').unwrap_or((words, ""));
    match word {
        "at" => Ok(Reply::Dir(DirReply::At(ChannelNo(rest.parse::<u8>()?)))),
        "full" => Ok(Reply::Dir(DirReply::Full(256))),
        "names" => Ok(Reply::Dir(DirReply::Names(List::new(alloc)))),
        "joined" => Ok(Reply::Chan(joined(rest)?)),
        "put" => Ok(Reply::Chan(ChannelReply::Put(verdict(rest)?))),
        "run" => Ok(Reply::Chan(ChannelReply::Read(run(alloc, rest)?))),
        "notretained" => {
            let first = place(rest)?;
            Ok(Reply::Chan(ChannelReply::Read(ReadReply::NotRetained(first))))
        }
        "members" | "objects" => Ok(Reply::Chan(page(alloc, word, rest)?)),
        "ticked" => Ok(Reply::Chan(ChannelReply::Ticked)),
        _ => Ok(Reply::Book(book(alloc, word, rest)?)),
    }
}
