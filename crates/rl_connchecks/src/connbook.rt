// What no clause says: that calls succeed where memory lasts.
use rl_connbook::ConnBook;
use rl_events::{BookEvent, BookReply, Outcome};
use rl_ids::{ConnNo, List, Moment, NoMemory, Text};
use rl_turnlock::Machine;
use std::alloc::Global;
use std::test::Fail;

const KEY: &str = "c00000001!0000000000000007";

fn begin(generation: u64, serial: u64) -> BookEvent {
    BookEvent::Begin {
        conn: ConnNo(1),
        generation,
        serial,
    }
}

// One connection through all kinds of events.
fn events(alloc: Global) -> Result<Vec<BookEvent>, NoMemory> {
    let mut events = Vec::new(alloc);
    let now = Moment(0);
    events.push(BookEvent::Open { word: 7, now })?;
    events.push(begin(1, 5))?;
    events.push(begin(1, 7))?;
    events.push(BookEvent::End {
        conn: ConnNo(1),
        generation: 1,
        serial: 5,
        outcome: Some(Outcome::Taken(rl_ids::Place(1))),
    })?;
    events.push(begin(1, 5))?;
    events.push(BookEvent::Resume {
        key: Text::from_str(alloc, KEY)?,
        now,
    })?;
    events.push(begin(1, 6))?;
    events.push(begin(2, 3))?;
    events.push(BookEvent::Close {
        conn: ConnNo(1),
        generation: 2,
    })?;
    events.push(BookEvent::Expire { now })?;
    events.push(BookEvent::Lost {
        conn: ConnNo(1),
        generation: 3,
        now,
    })?;
    Ok(events)
}

// What they are answered.
fn wanted(alloc: Global) -> Result<Vec<BookReply>, NoMemory> {
    let mut replies = Vec::new(alloc);
    replies.push(BookReply::Opened {
        conn: ConnNo(1),
        generation: 1,
        key: Text::from_str(alloc, KEY)?,
    })?;
    replies.push(BookReply::Go)?;
    replies.push(BookReply::SerialGap {
        got: 7,
        expected: 0,
    })?;
    replies.push(BookReply::Done)?;
    replies.push(BookReply::Known(Outcome::Taken(rl_ids::Place(1))))?;
    replies.push(BookReply::Resumed {
        conn: ConnNo(1),
        generation: 2,
    })?;
    replies.push(BookReply::Superseded { newer: 2 })?;
    replies.push(BookReply::SerialOld {
        got: 3,
        expected: 6,
    })?;
    replies.push(BookReply::Done)?;
    let mut expired = List::new(alloc);
    expired.push(ConnNo(1))?;
    replies.push(BookReply::Expired(expired))?;
    replies.push(BookReply::NoRecord)?;
    Ok(replies)
}

fn replies(alloc: Global, events: Vec<BookEvent>) -> Result<Vec<BookReply>, NoMemory> {
    let mut book = ConnBook::new(alloc)?;
    let mut replies = Vec::new(alloc);
    for event in events {
        replies.push(book.take(alloc, event)?)?;
    }
    Ok(replies)
}

// Whether two answers are the same.
fn is_same(one: &BookReply, other: &BookReply) -> bool {
    match (one, other) {
        (
            BookReply::Opened {
                conn,
                generation,
                key,
            },
            BookReply::Opened {
                conn: other_conn,
                generation: other_generation,
                key: other_key,
            },
        ) => conn == other_conn && generation == other_generation && key == other_key,
        (
            BookReply::Resumed { conn, generation },
            BookReply::Resumed {
                conn: other_conn,
                generation: other_generation,
            },
        ) => conn == other_conn && generation == other_generation,
        (
            BookReply::SerialGap { got, expected },
            BookReply::SerialGap {
                got: other_got,
                expected: other_expected,
            },
        ) => got == other_got && expected == other_expected,
        (
            BookReply::SerialOld { got, expected },
            BookReply::SerialOld {
                got: other_got,
                expected: other_expected,
            },
        ) => got == other_got && expected == other_expected,
        (BookReply::Superseded { newer }, BookReply::Superseded { newer: other_newer }) => {
            newer == other_newer
        }
        (BookReply::Known(outcome), BookReply::Known(other_outcome)) => outcome == other_outcome,
        (BookReply::Expired(conns), BookReply::Expired(other_conns)) => {
            conns.as_slice() == other_conns.as_slice()
        }
        (BookReply::Go, BookReply::Go)
        | (BookReply::Done, BookReply::Done)
        | (BookReply::NoRecord, BookReply::NoRecord) => true,
        _ => false,
    }
}

#[test]
fn a_connection_goes_through_all_kinds_of_events(rt: HostRuntime) -> Result<(), Fail> {
    let alloc = rt.alloc();
    let got = replies(alloc, events(alloc)?)?;
    let wanted = wanted(alloc)?;
    assert_eq!(rt; got.len(), wanted.len());
    for (one, other) in got.iter().zip(wanted.iter()) {
        assert!(rt; is_same(one, other));
    }
    Ok(())
}

#[test]
fn a_book_gives_the_numbers_of_its_range(rt: HostRuntime) -> Result<(), Fail> {
    let alloc = rt.alloc();
    let mut book = ConnBook::between(alloc, 2_097_152, 4_194_303)?;
    let now = Moment(0);
    let got = book.take(alloc, BookEvent::Open { word: 7, now })?;
    let wanted = BookReply::Opened {
        conn: ConnNo(2_097_153),
        generation: 1,
        key: Text::from_str(alloc, "c00200001!0000000000000007")?,
    };
    assert!(rt; is_same(&got, &wanted));
    Ok(())
}
