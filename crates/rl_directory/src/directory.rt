ghost use Rattle.std.specs.Prelude.{◌≡◌, ◌++◌, ◌∷◌, [], None, length, IfOk, OnOk, OnErr};
ghost use Rattle.rl_events.specs.declared.calls.DirEvent.{DirEvent};
ghost use Rattle.rl_directory.specs.Directory.{after, is_full, names_after, number_of, told};

use rl_events::{ChannelNo, DirEvent, DirReply};
use rl_ids::{Copied, List, NoMemory, Text};
use rl_numbers::limits::MAX_CHANNELS;
use rl_turnlock::Machine;
use std::alloc::Global;
use std::collections::BTreeMap;
use std::marker::Model;

/// The directory of channels. (This project's own.)
///
/// It is a [`Machine`], and has no setup: what it answers is said by its events alone. A contract sees it as the names
/// that it has, in order of number; that it stands for a history says that these are what the definitions make of the
/// history.
///
/// - `Ask` answers the number of the name. A name that was not asked for before gets the next number, from 0; or `Full`
///   exactly where [`MAX_CHANNELS`] other names are there.
/// - `Names` answers all names, in order of number.
///
/// All memory is taken before the first change: after `NoMemory` the directory is as before. A name's number is found
/// by halves, and not by looking at all names.
#[derive(Drop)]
pub struct Directory {
    // in order of number
    names: Vec<Text>,
    // the number of each
    numbers: BTreeMap<Text, u8>,
}

impl Model for Directory {
    ghost use Rattle.std.specs.Prelude.{List, ℕ};
    ghost use Rattle.rl_directory.specs.Numbers.{AreNumbers};

    ghost Value = { List (List ℕ) };

    ghost view = { λ d. d.names.items };

    ghost invariant = { λ d. AreNumbers d.names.items d.numbers.entries };
}

impl Directory {
    /// A directory without names: it stands for no event. `NoMemory` comes where there is no memory.
    pub fn new(alloc: Global) -> Result<Directory, NoMemory>
        ensures { IfOk result (λ directory. directory ≡ names_after []) }
    {
        Ok(Directory {
            names: Vec::new(alloc),
            numbers: BTreeMap::new(alloc),
        })
    }

    // The number of a name, where it was given one.
    fn number_of(&self, name: &Text) -> Option<u8>
        ensures { result ≡ number_of name.now self.now }
    {
        self.numbers.get(name).copied()
    }

    // How many names are there.
    fn len(&self) -> usize
        ensures { result ≡ length self.now }
    {
        self.names.len()
    }

    // Gives a name that is not there the next number.
    fn add(&mut self, alloc: Global, name: Text, number: u8) -> Result<(), NoMemory>
        requires new { number_of name self.old ≡ None }
        requires next { number ≡ length self.old }
        ensures ok { OnOk result (self.new ≡ self.old ++ name ∷ []) }
        ensures err { OnErr result (self.new ≡ self.old) }
    {
        let key = name.copy(alloc)?;
        self.names.reserve(1)?;
        self.numbers.insert(key, number)?;
        self.names.push_reserved(name);
        Ok(())
    }

    fn ask(&mut self, alloc: Global, name: Text) -> Result<DirReply, NoMemory>
        ensures reply { IfOk result (λ reply. reply ≡ told self.old (DirEvent.Ask name)) }
        ensures new { OnOk result (self.new ≡ after self.old (DirEvent.Ask name)) }
        ensures err { OnErr result (self.new ≡ self.old) }
    {
        if let Some(number) = self.number_of(&name) {
            return Ok(DirReply::At(ChannelNo(number)));
        }
        let count = self.len();
        if count >= MAX_CHANNELS {
            return Ok(DirReply::Full(count));
        }
        let number = count as u8;
        self.add(alloc, name, number)?;
        Ok(DirReply::At(ChannelNo(number)))
    }

    fn all(&self, alloc: Global) -> Result<DirReply, NoMemory>
        ensures { IfOk result (λ reply. reply ≡ told self.now DirEvent.Names) }
    {
        Ok(DirReply::Names(copies(alloc, self.names.as_slice())?))
    }

    // Takes one event, by what the directory keeps alone.
    fn step(&mut self, alloc: Global, event: DirEvent) -> Result<DirReply, NoMemory>
        ensures reply { IfOk result (λ reply. reply ≡ told self.old event) }
        ensures new { OnOk result (self.new ≡ after self.old event) }
        ensures err { OnErr result (self.new ≡ self.old) }
    {
        match event {
            DirEvent::Ask(name) => self.ask(alloc, name),
            DirEvent::Names => self.all(alloc),
        }
    }
}

impl Machine for Directory {
    type Event = DirEvent;

    type Reply = DirReply;

    type Setup = ();

    ghost use Rattle.std.specs.Prelude.{◌≡◌, false};
    ghost use Rattle.rl_directory.specs.Directory.{names_after, reply_after};

    ghost stands = { λ directory past. directory ≡ names_after past };

    ghost setup = { λ directory. tt };

    ghost any_setup = { tt };

    ghost reply = { λ setup past event. reply_after past event };

    ghost is_spare = { λ event. false };

    #[tactic(auto, using(crate::proofs::History::stands_more))]
    fn take(&mut self, alloc: Global, event: DirEvent) -> Result<DirReply, NoMemory> {
        self.step(alloc, event)
    }
}

fn copies(alloc: Global, names: &[Text]) -> Result<List<Text>, NoMemory>
    ensures { IfOk result (λ copies. copies ≡ names.now) }
{
    let mut copies = List::new(alloc);
    for name in names {
        copies.push(name.copy(alloc)?)?;
    }
    Ok(copies)
}
