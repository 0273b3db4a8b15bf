// The lines read so far, and what is kept of them.
ghost use Rattle.std.specs.Prelude.{◌≡◌, ◌≤◌, ◌++◌, ◌∷◌, [], ◌+◌, ◌<◌, ◌^◌, ◌&&◌, ◌||◌, not, nat_le, IsTrue, IfOk, OnOk, Some};
ghost use Rattle.std.specs.Option.{option_copied};
ghost use Rattle.rl_model.specs.Script.{name_declared, channel_named, fed_by, is_settle, is_cut, is_declared, may_declare, in_order, in_scope, is_first_client, is_only_channel, published, fed, ends_settled, placed, line_after, line_of};
ghost use Rattle.rl_scriptlang.specs.Grammar.{Gives};
ghost use Rattle.rl_scriptlang.specs.Seen.{lines_with, kept_after, put_by};

use crate::fault::LineFault;
use crate::lines::line_of;
use rl_ids::{Copied, List, NoMemory, Text};
use rl_numbers::limits::{MAX_PUBLISHED, MAX_PUT};
use rl_runs::{Command, Line, ScriptCause};
use std::alloc::Global;
use std::marker::Model;

// The lines that were read, beside the one client that they declare, the one channel that they name, how
// many messages they publish and feed, and whether the last one is a settle.
#[derive(Drop)]
pub struct Seen {
    lines: List<Line>,
    client: Option<Text>,
    channel: Option<Text>,
    published: u64,
    fed: u64,
    settled: bool,
}

impl Model for Seen {
    ghost use Rattle.std.specs.Prelude.{List};
    ghost use Rattle.rl_runs.specs.declared.script.Line.{Line};
    ghost use Rattle.rl_scriptlang.specs.Seen.{IsSeen};

    ghost Value = { List Line };

    ghost view = { λ s. s.lines };

    ghost invariant = { λ s. IsSeen s.lines s.client s.channel s.published s.fed s.settled };
}

// The channel that a line names.
fn channel_named(line: &Line) -> Option<&Text>
    ensures { option_copied result ≡ channel_named line.now }
{
    match line {
        Line::Act(_, Command::Attach(channel)) => Some(channel),
        Line::Act(_, Command::AttachAt(channel, _)) => Some(channel),
        Line::Act(_, Command::Publish(channel, _)) => Some(channel),
        Line::Feed(channel, _, _) => Some(channel),
        _ => None,
    }
}

// The client that a line declares.
fn name_declared(line: &Line) -> Option<&Text>
    ensures { option_copied result ≡ name_declared line.now }
{
    match line {
        Line::Client(name) => Some(name),
        _ => None,
    }
}

// How many messages a line publishes.
fn put_by(line: &Line) -> u64
    ensures { result ≡ put_by line.now }
{
    match line {
        Line::Act(_, Command::Publish(_, _)) => 1,
        _ => 0,
    }
}

// How many it feeds.
fn fed_by(line: &Line) -> u64
    ensures value { result ≡ fed_by line.now }
    ensures bound { result < 2 ^ 32 }
{
    match line {
        Line::Feed(_, count, _) => u64::from(*count),
        _ => 0,
    }
}

fn is_cut(line: &Line) -> bool
    ensures { result ≡ is_cut line.now }
{
    matches!(line, Line::Cut(_))
}

fn is_settle(line: &Line) -> bool
    ensures { result ≡ is_settle line.now }
{
    matches!(line, Line::Settle)
}

fn copied(alloc: Global, name: Option<&Text>) -> Result<Option<Text>, NoMemory>
    ensures { IfOk result (λ made. made ≡ option_copied name.entry) }
{
    match name {
        Some(name) => Ok(Some(name.copy(alloc)?)),
        None => Ok(None),
    }
}

// Keeps a name, where none is kept.
fn keep(kept: &mut Option<Text>, name: Option<Text>)
    ensures { kept.new ≡ kept_after kept.old name }
{
    if kept.is_none() {
        *kept = name;
    }
}

impl Seen {
    pub fn new(alloc: Global) -> Seen
        ensures { result ≡ [] }
    {
        Seen {
            lines: List::new(alloc),
            client: None,
            channel: None,
            published: 0,
            fed: 0,
            settled: false,
        }
    }

    fn is_declared(&self, name: &Text) -> bool
        ensures { result ≡ is_declared name.now self.now }
    {
        match &self.client {
            Some(client) => name == client,
            None => false,
        }
    }

    // Whether a line may declare this name: none is declared twice, and no more than one ever is.
    fn may_declare(&self, name: &Text) -> bool
        ensures { result ≡ may_declare (Some name.now) self.now }
    {
        match &self.client {
            Some(client) => name != client,
            None => true,
        }
    }

    fn in_order(&self, line: &Line) -> bool
        ensures { result ≡ in_order self.now line.now }
    {
        match line {
            Line::Client(name) => self.may_declare(name),
            Line::Open(name) => self.is_declared(name),
            Line::Cut(name) => self.is_declared(name),
            Line::Act(name, _) => self.is_declared(name),
            _ => true,
        }
    }

    fn is_first_client(&self, line: &Line) -> bool
        ensures { result ≡ is_first_client self.now line.now }
    {
        name_declared(line).is_none() || self.client.is_none()
    }

    fn is_only_channel(&self, line: &Line) -> bool
        ensures { result ≡ is_only_channel (channel_named line.now) self.now }
    {
        match (channel_named(line), &self.channel) {
            (Some(named), Some(channel)) => named == channel,
            _ => true,
        }
    }

    // A connection drops only right after a settle.
    fn may_cut(&self, line: &Line) -> bool
        ensures { result ≡ (not (is_cut line.now) || ends_settled self.now) }
    {
        !is_cut(line) || self.settled
    }

    // Whether so many messages may be published and fed.
    #[tactic(auto, using(crate::proofs::Kept::published_more, crate::proofs::Kept::fed_more))]
    fn has_room(&self, line: &Line) -> bool
        ensures { result ≡ (nat_le (published (self.now ++ line.now ∷ [])) MAX_PUBLISHED && nat_le (published (self.now ++ line.now ∷ []) + fed (self.now ++ line.now ∷ [])) MAX_PUT) }
    {
        let published = self.published + put_by(line);
        published <= MAX_PUBLISHED && published + (self.fed + fed_by(line)) <= MAX_PUT
    }

    fn in_scope(&self, line: &Line) -> bool
        ensures { result ≡ in_scope self.now line.now }
    {
        self.is_first_client(line)
            && self.is_only_channel(line)
            && self.may_cut(line)
            && self.has_room(line)
    }

    // Adds a line that is in order and in scope.
    fn add(&mut self, alloc: Global, line: Line) -> Result<(), NoMemory>
        requires order { IsTrue (in_order self.old line) }
        requires scope { IsTrue (in_scope self.old line) }
        ensures { OnOk result (self.new ≡ self.old ++ line ∷ []) }
    {
        let client = copied(alloc, name_declared(&line))?;
        let channel = copied(alloc, channel_named(&line))?;
        let published = self.published + put_by(&line);
        let fed = self.fed + fed_by(&line);
        let settled = is_settle(&line);
        self.lines.push(line)?;
        keep(&mut self.client, client);
        keep(&mut self.channel, channel);
        self.published = published;
        self.fed = fed;
        self.settled = settled;
        Ok(())
    }

    // Adds a line, where it may stand after the ones before it.
    fn place(&mut self, alloc: Global, line: Line) -> Result<(), LineFault>
        ensures { Gives (λ _. self.new) result (lines_with self.old (placed self.old (Some line))) }
    {
        if !self.in_order(&line) {
            return Err(LineFault::Cause(ScriptCause::Order));
        }
        if !self.in_scope(&line) {
            return Err(LineFault::Cause(ScriptCause::Word));
        }
        self.add(alloc, line)?;
        Ok(())
    }

    // Reads one more line.
    pub fn take_line(&mut self, alloc: Global, text: &[u8]) -> Result<(), LineFault>
        ensures { Gives (λ _. self.new) result (lines_with self.old (line_after self.old (line_of text.now))) }
    {
        match line_of(alloc, text)? {
            Some(line) => self.place(alloc, line),
            None => Ok(()),
        }
    }

    pub fn into_lines(self) -> List<Line>
        ensures lines { result ≡ self }
        ensures few { published result + fed result ≤ MAX_PUT }
    {
        let Seen {
            lines,
            client: _,
            channel: _,
            published: _,
            fed: _,
            settled: _,
        } = self;
        lines
    }
}
