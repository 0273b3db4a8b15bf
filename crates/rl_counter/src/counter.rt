ghost use Rattle.std.specs.Prelude.{◌≡◌, true, IfOk, OnOk, OnErr, IsOk, IsSome};
ghost use Rattle.rl_objmodel.specs.Places.{at_text, IsRising};
ghost use Rattle.rl_objmodel.specs.Rules.{sum_held};
ghost use Rattle.rl_objmodel.specs.Steps.{added, is_counter_body, is_counter_create, is_counter_op, is_past_range, loaded_tally, sum_made, tally_after, tally_outcome, zero_tally};

use crate::sites::{is_newer, put, told};
use rl_ids::{Copied, List, NoMemory, OpSerial, SiteCode};
use rl_numbers::limits::MAX_COUNTER_SUM;
use rl_objmodel::Applied;
use rl_types::{ObjectBody, ObjectState, Op};
use std::alloc::Global;
use std::marker::Model;

/// A counter (RTLC). A contract sees it as a `Tally`: of each site the serial of its last operation, in order of site,
/// whether a create was applied, and the sum.
///
/// With n sites, an operation looks at about log n of them, and moves those behind its own where that is new. A
/// counter that was loaded may have a sum outside its range; then an operation that adds is `Range`, unless it brings
/// the sum back.
#[derive(Drop)]
pub struct Counter {
    // in order of site, each once
    sites: List<(SiteCode, OpSerial)>,
    created: bool,
    sum: i128,
}

impl Model for Counter {
    ghost use Rattle.rl_objmodel.specs.Places.{IsRising};
    ghost use Rattle.rl_objmodel.specs.Steps.{Tally};

    ghost Value = { Tally };

    ghost view = { λ c. record { sites = c.sites; created = c.created; sum = c.sum } };

    ghost invariant = { λ c. IsRising c.sites };
}

/// What an operation adds to a counter (RTLC7): a create its count, where none was applied before, an increment its
/// amount. An operation for maps, and a deletion, adds nothing. It takes no memory.
pub fn added(op: &Op, created: bool) -> Option<i64>
    ensures { result ≡ added op.now created }
{
    match op {
        Op::CounterCreate { id: _, count } => { if created { None } else { Some(*count) } }
        Op::CounterInc { id: _, amount } => Some(*amount),
        _ => None,
    }
}

// Whether a sum is past its range.
fn is_past_range(sum: i128) -> bool
    ensures { result ≡ is_past_range sum }
{
    MAX_COUNTER_SUM.unsigned_abs() < sum.unsigned_abs()
}

// The sum with an amount more, where it does not pass its range.
fn sum_with(sum: i128, amount: i64) -> Option<i128>
    ensures { result ≡ sum_made sum (Some amount) }
{
    let made = sum.checked_add(i128::from(amount))?;
    if is_past_range(made) {
        None
    } else {
        Some(made)
    }
}

/// The sum with what an operation adds, or nothing where the operation adds something and the sum would pass plus or
/// minus [`MAX_COUNTER_SUM`]. (The range is this project's own.) It takes no memory.
pub fn sum_after(sum: i128, more: Option<i64>) -> Option<i128>
    ensures { result ≡ sum_made sum more }
{
    match more {
        Some(amount) => sum_with(sum, amount),
        None => Some(sum),
    }
}

fn is_create(op: &Op) -> bool
    ensures { result ≡ is_counter_create op.now }
{
    matches!(op, Op::CounterCreate { .. })
}

impl Counter {
    /// A counter that no operation was applied to, and that is not created. It takes no memory.
    pub fn zero(alloc: Global) -> Counter
        ensures { result ≡ zero_tally }
    {
        Counter {
            sites: List::new(alloc),
            created: false,
            sum: 0,
        }
    }

    /// The counter that an object's state shows (RTLC6): its sites in order, its sum, and whether it is created. Of
    /// two serials of one site the greater stays. `NoMemory` comes where there is no memory.
    pub fn load_state(alloc: Global, state: &ObjectState) -> Result<Counter, NoMemory>
        requires { is_counter_body state.now.body ≡ true }
        ensures { IfOk result (λ counter. counter ≡ loaded_tally state.now) }
    {
        let sites = told(alloc, state.sites.as_slice())?;
        let sum = sum_in(&state.body);
        Ok(Counter {
            sites,
            created: state.created,
            sum,
        })
    }

    /// Applies a create or an increment of the site that its serial names.
    ///
    /// - `Skipped` comes exactly where the site has this serial or a greater one.
    /// - `Range` comes exactly where another operation would bring the sum past plus or minus [`MAX_COUNTER_SUM`].
    /// - Else the operation is `Applied`: its serial is the site's, and a create that is the first adds its count, an
    ///   increment its amount. Another create adds nothing.
    ///
    /// After `Skipped` and `Range`, and after `NoMemory`, the counter is as before. Memory is taken for a site that has
    /// no serial yet, and for nothing else.
    pub fn apply(&mut self, op: &Op, serial: &OpSerial) -> Result<Applied, NoMemory>
        requires { is_counter_op op.now ≡ true }
        ensures outcome { IfOk result (λ outcome. outcome ≡ tally_outcome serial.now op.now self.old) }
        ensures step { OnOk result (self.new ≡ tally_after serial.now op.now self.old) }
        ensures err { OnErr result (self.new ≡ self.old) }
        ensures spare { IsSome (at_text serial.now.site self.old.sites) → IsOk result }
    {
        if !is_newer(self.sites.as_slice(), serial) {
            return Ok(Applied::Skipped);
        }
        let Some(sum) = sum_after(self.sum, added(op, self.created)) else {
            return Ok(Applied::Range);
        };
        put(&mut self.sites, *serial)?;
        self.created = is_create(op) || self.created;
        self.sum = sum;
        Ok(Applied::Applied)
    }

    /// The sum: the count of the first create, and the amounts of all increments. It takes no memory.
    pub fn value(&self) -> i128
        ensures { result ≡ self.now.sum }
    {
        self.sum
    }

    /// Whether a create was applied.
    pub fn created(&self) -> bool
        ensures { result ≡ self.now.created }
    {
        self.created
    }

    /// Of each site the serial of its last operation, in order of site.
    pub fn sites(&self) -> &List<(SiteCode, OpSerial)>
        ensures value { result.now ≡ self.now.sites }
        ensures order { IsRising result.now }
    {
        &self.sites
    }
}

// A counter's sum; a map has none.
fn sum_in(body: &ObjectBody) -> i128
    ensures { result ≡ sum_held body.now }
{
    match body {
        ObjectBody::Counter(sum) => *sum,
        ObjectBody::Map(_) => 0,
    }
}

impl Copied for Counter {
    fn copy(&self, alloc: Global) -> Result<Counter, NoMemory> {
        Ok(Counter {
            sites: self.sites.copy(alloc)?,
            created: self.created,
            sum: self.sum,
        })
    }
}
