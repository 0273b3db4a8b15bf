// Pages of the objects of a channel.
ghost use Rattle.std.specs.Prelude.{◌≡◌, ◌≤◌, ◌==◌, ◌&&◌, IfOk, length, take};
ghost use Rattle.std.specs.Option.{option_copied};
ghost use Rattle.rl_model.specs.Objects.{cut_from, is_last_states, page_states};
ghost use Rattle.rl_objmodel.specs.Steps.{states};

use rl_ids::{List, NoMemory, ObjectId};
use rl_numbers::limits::PAGE_WEIGHT;
use rl_pool::Pool;
use rl_types::{ObjectState, state_weight};
use std::alloc::Global;

// How many of these states a page has: up to the one that brings its weight to its limit.
fn count_cut(states: &[ObjectState]) -> usize
    ensures within { result ≤ length states.now }
    ensures value { take result states.now ≡ cut_from 0 states.now }
{
    let mut count = 0usize;
    let mut weight = 0u64;
    for state in states {
        if weight >= PAGE_WEIGHT {
            return count;
        }
        weight = weight.saturating_add(state_weight(state));
        count += 1;
    }
    count
}

// The first of these states, so many.
fn first_of(states: List<ObjectState>, count: usize) -> List<ObjectState>
    ensures { result ≡ take count states }
{
    let mut kept = states.into_vec();
    kept.truncate(count);
    List::from_vec(kept)
}

// Whether none remain after a page that has so many of the states that none remain after.
fn is_whole(none_remain: bool, count: usize, whole: usize) -> bool
    ensures { result ≡ (none_remain && (count == whole)) }
{
    none_remain && count == whole
}

// The objects of a page, and whether none remain after them.
#[tactic(auto, using(crate::proofs::ObjectPages::page_is))]
pub fn states_after(
    alloc: Global,
    objects: &Pool,
    after: Option<&ObjectId>,
    max: usize,
) -> Result<(List<ObjectState>, bool), NoMemory>
    ensures states { IfOk result (λ page. page.0 ≡ page_states (option_copied after.entry) max (states objects.now)) }
    ensures last { IfOk result (λ page. page.1 ≡ is_last_states (option_copied after.entry) max (states objects.now)) }
{
    let (states, none_remain) = objects.after(alloc, after, max)?;
    let count = count_cut(states.as_slice());
    let last = is_whole(none_remain, count, states.len());
    Ok((first_of(states, count), last))
}
