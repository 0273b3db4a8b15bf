ghost use Rattle.std.specs.Prelude.{◌≡◌, ◌∷◌, ◌-◌, [], true, false, length, map, reverse, take, IfOk, OnOk, OnErr};
ghost use Rattle.rl_clientmodel.specs.Keys.{is_empty};
ghost use Rattle.rl_clientmodel.specs.Runs.{answer_cause, cause_of, got_onto, runs_with, segment_of, start_of};
ghost use Rattle.rl_clientchannels.specs.Back.{got_back, runs_back};

use rl_clientmodel::{Beginning, Run};
use rl_ids::{ChannelSerial, Copied, List, NoMemory, Place};
use rl_runs::{Cause, Record, Segment};
use rl_types::{Body, Given};
use std::alloc::Global;
use std::marker::Model;

// The runs of a record. A contract sees the latest first.
#[derive(Drop)]
pub struct Runs {
    // the first one first
    runs: List<Run>,
}

impl Model for Runs {
    ghost use Rattle.std.specs.Prelude.{List};
    ghost use Rattle.rl_clientmodel.specs.declared.runs.Run.{Run};
    ghost use Rattle.rl_clientchannels.specs.Turned.{turned};

    ghost Value = { List Run };

    ghost view = { λ r. turned r.runs };
}

impl Runs {
    pub fn new(alloc: Global) -> Runs
        ensures { result ≡ [] }
    {
        Runs {
            runs: List::new(alloc),
        }
    }

    #[tactic(auto, using(crate::proofs::Turns::turned_empty))]
    pub fn is_empty(&self) -> bool
        ensures { result ≡ is_empty self.now }
    {
        self.runs.is_empty()
    }

    // A run begins.
    #[tactic(auto, using(crate::proofs::Turns::turned_push))]
    fn begin(&mut self, run: Run) -> Result<(), NoMemory>
        ensures ok { OnOk result (self.new ≡ run ∷ self.old) }
        ensures err { OnErr result (self.new ≡ self.old) }
    {
        self.runs.push(run)
    }

    // The latest run goes on, or a new one begins, in which nothing is got yet.
    pub fn go_on(
        &mut self,
        alloc: Global,
        goes_on: bool,
        beginning: Beginning,
    ) -> Result<(), NoMemory>
        ensures ok { OnOk result (self.new ≡ runs_with goes_on beginning self.old) }
        ensures err { OnErr result (self.new ≡ self.old) }
    {
        if goes_on {
            return Ok(());
        }
        self.begin(Run {
            beginning,
            got: List::new(alloc),
        })
    }

    // An entry is got, in the latest run.
    pub fn add(&mut self, place: Place, body: Body) -> Result<(), NoMemory>
        ensures ok { OnOk result (self.new ≡ got_onto (place, body) self.old) }
        ensures err { OnErr result (self.new ≡ self.old) }
    {
        let count = self.runs.len();
        if count == 0 {
            return Ok(());
        }
        self.runs.at_mut(count - 1).got.push((place, body))
    }

    // An entry is got, in the latest run or in one that begins with it.
    pub fn get(
        &mut self,
        alloc: Global,
        goes_on: bool,
        beginning: Beginning,
        place: Place,
        body: Body,
    ) -> Result<(), NoMemory>
        ensures ok { OnOk result (self.new ≡ got_onto (place, body) (runs_with goes_on beginning self.old)) }
        ensures err { OnErr result (self.new ≡ self.old) }
    {
        if goes_on {
            return self.add(place, body);
        }
        let mut got = List::new(alloc);
        got.push((place, body))?;
        self.begin(Run { beginning, got })
    }

    // The latest run is dropped.
    #[tactic(auto, using(crate::proofs::Turns::turned_drop))]
    fn drop_latest(&mut self)
        ensures { self.new ≡ runs_back false self.old }
    {
        let count = self.runs.len();
        if count > 0 {
            self.runs.remove(count - 1);
        }
    }

    // A run that began is taken back. It takes no memory.
    pub fn take_back(&mut self, goes_on: bool)
        ensures { self.new ≡ runs_back goes_on self.old }
    {
        if !goes_on {
            self.drop_latest();
        }
    }

    // The entry that was got last is dropped.
    fn drop_entry(&mut self)
        ensures { self.new ≡ got_back true self.old }
    {
        let count = self.runs.len();
        if count == 0 {
            return;
        }
        drop_last(&mut self.runs.at_mut(count - 1).got);
    }

    // The entry that was got last is taken back, and the run that began with it. It takes no memory.
    pub fn take_back_entry(&mut self, goes_on: bool)
        ensures { self.new ≡ got_back goes_on self.old }
    {
        if goes_on {
            self.drop_entry();
        } else {
            self.drop_latest();
        }
    }

    // The runs as segments, the first one first.
    #[tactic(auto, using(crate::proofs::Turns::turned_shown))]
    pub fn shown(&self, alloc: Global) -> Result<Record, NoMemory>
        ensures { IfOk result (λ shown. shown.segments ≡ reverse (map segment_of self.now)) }
    {
        Ok(Record {
            segments: segments(alloc, self.runs.as_slice())?,
        })
    }
}

// Drops the last of what was got.
fn drop_last(got: &mut List<(Place, Body)>)
    ensures { got.new ≡ take (length got.old - 1) got.old }
{
    let count = got.len();
    if count > 0 {
        got.remove(count - 1);
    }
}

// Where a run starts.
fn start_of(beginning: &Beginning) -> Place
    ensures { result ≡ start_of beginning.now }
{
    match beginning {
        Beginning::Answered { told, .. } => told.place,
        Beginning::Unasked { told, .. } => told.place,
        Beginning::Skipped { told, .. } => Place(told.place.0.saturating_sub(1)),
    }
}

// The cause of a run that an answer began.
fn answer_cause(asked: Option<ChannelSerial>, resumed: bool, told: ChannelSerial) -> Cause
    ensures { result ≡ answer_cause asked resumed told }
{
    let Some(asked) = asked else {
        return Cause::Opened;
    };
    if !resumed {
        return Cause::NotRetained(Given::Ours(asked));
    }
    if asked == told {
        Cause::Recovered(Given::Ours(asked))
    } else {
        Cause::Moved(Given::Ours(asked), told)
    }
}

fn cause_of(beginning: &Beginning) -> Cause
    ensures { result ≡ cause_of beginning.now }
{
    match beginning {
        Beginning::Answered {
            asked,
            resumed,
            told,
            ..
        } => answer_cause(*asked, *resumed, *told),
        Beginning::Unasked { held, told, .. } => Cause::Moved(Given::Ours(*held), *told),
        Beginning::Skipped { held, told } => Cause::Jump(*held, *told),
    }
}

// A run as it is shown.
fn segment_of(alloc: Global, run: &Run) -> Result<Segment, NoMemory>
    ensures { IfOk result (λ segment. segment ≡ segment_of run.now) }
{
    Ok(Segment {
        start: start_of(&run.beginning),
        cause: cause_of(&run.beginning),
        got: run.got.copy(alloc)?,
    })
}

fn segments(alloc: Global, runs: &[Run]) -> Result<List<Segment>, NoMemory>
    ensures { IfOk result (λ segments. segments ≡ map segment_of runs.now) }
{
    let mut segments = List::new(alloc);
    for run in runs {
        segments.push(segment_of(alloc, run)?)?;
    }
    Ok(segments)
}
