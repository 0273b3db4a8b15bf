// What the events of a block work on, and what they answer.
use crate::channels::{channel_event, new_channel};
use crate::members::{map_text, member_event};
use crate::pools::{pool_event, pool_text};
use crate::sequences::page_event;
use crate::views::{view_event, view_text};
use anyhow::{Context, Result};
use rl_channel::Channel;
use rl_ids::Text;
use rl_objsync::ObjSync;
use rl_pages::Pages;
use rl_pool::Pool;
use rl_presmap::PresMap;
use std::alloc::Global;

/// A pool and another one, a channel, a presence map, an object sync, and page sequences.
#[derive(Drop)]
pub struct World {
    pool: Pool,
    other: Pool,
    channel: Channel,
    members: PresMap,
    view: ObjSync,
    pages: Pages,
}

// What an event is about.
#[derive(Clone, Copy)]
enum Subject {
    Pool,
    Channel,
    Members,
    View,
    Pages,
}

fn subject_of(word: &str) -> Subject {
    match word {
        "put" | "objectpage" | "join" | "pass" | "census" => Subject::Channel,
        "newer" | "item" | "start" | "sync" | "end" | "clear" => Subject::Members,
        "attached" | "page" | "ops" | "tick" => Subject::View,
        "begin" | "next" | "members" | "objects" | "mayend" | "ends" => Subject::Pages,
        _ => Subject::Pool,
    }
}

// Whether what stands after an event is shown: not of one that only asks.
fn is_shown(word: &str) -> bool {
    matches!(
        word,
        "apply"
            | "admit"
            | "replace"
            | "collect"
            | "swap"
            | "item"
            | "start"
            | "sync"
            | "end"
            | "clear"
            | "attached"
            | "page"
            | "ops"
            | "tick"
    )
}

impl World {
    pub fn new(alloc: Global) -> Result<World> {
        Ok(World {
            pool: Pool::new(alloc)?,
            other: Pool::new(alloc)?,
            channel: new_channel(alloc)?,
            members: PresMap::new(alloc),
            view: ObjSync::new(alloc)?,
            pages: Pages::new(Text::from_str(alloc, "room")?, 1, true, true),
        })
    }

    // What an event is answered.
    fn act(&mut self, alloc: Global, asked: &str) -> Result<String> {
        let (word, rest) = asked.split_once(' ').unwrap_or((asked, ""));
        match subject_of(word) {
            Subject::Pool => pool_event(alloc, &mut self.pool, &mut self.other, word, rest),
            Subject::Channel => channel_event(alloc, &mut self.channel, word, rest),
            Subject::Members => member_event(alloc, &mut self.members, word, rest),
            Subject::View => view_event(alloc, &mut self.view, word, rest),
            Subject::Pages => page_event(alloc, &mut self.pages, word, rest),
        }
    }

    // What stands of what an event is about.
    fn picture(&self, alloc: Global, word: &str) -> Result<String> {
        match subject_of(word) {
            Subject::Pool => pool_text(alloc, &self.pool),
            Subject::Members => map_text(alloc, &self.members),
            Subject::View => view_text(alloc, &self.view),
            Subject::Channel | Subject::Pages => Ok(String::new(alloc)),
        }
    }

    // An answer and what then stands, where that is shown.
    fn with_picture(&self, alloc: Global, asked: &str, answer: String) -> Result<String> {
        let (word, _) = asked.split_once(' ').unwrap_or((asked, ""));
        if !is_shown(word) {
            return Ok(answer);
        }
        let picture = self.picture(alloc, word)?;
        if answer.is_empty() {
            return Ok(picture);
        }
        Ok(format!(in alloc; "{} | {}", answer.as_str(), picture.as_str())?)
    }

    // The answer to an event that is asked for again and again, each time with the next number in the place of `%`.
    fn repeat(&mut self, alloc: Global, rest: &str) -> Result<String> {
        let (first, rest) = rest.split_once(' ').context("times without a number")?;
        let (last, asked) = rest.split_once(' ').context("times without an event")?;
        let mut answer = String::new(alloc);
        for turn in first.parse::<u32>()?..=last.parse::<u32>()? {
            let number = format!(in alloc; "{turn}")?;
            let one = asked.replace(alloc, '%', number.as_str())?;
            answer = self.act(alloc, one.as_str())?;
        }
        self.with_picture(alloc, asked, answer)
    }

    /// The answer to the event that a line asks for, with what then stands.
    pub fn answer(&mut self, alloc: Global, asked: &str) -> Result<String> {
        match asked.strip_prefix("times ") {
            Some(rest) => self.repeat(alloc, rest),
            None => {
                let answer = self.act(alloc, asked)?;
                self.with_picture(alloc, asked, answer)
            }
        }
    }
}
