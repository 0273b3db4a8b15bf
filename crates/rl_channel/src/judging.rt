// How a put is decided, rule by rule, up to the limit of members. An answer is given where a rule decides.
ghost use Rattle.std.specs.Prelude.{◌≡◌, ◌≢◌, ◌≤◌, None};
ghost use Rattle.std.specs.List.{list_all, list_any};
ghost use Rattle.rl_types.specs.Weight.{body_weight, option_len};
ghost use Rattle.rl_model.specs.Ids.{has_id, has_long, has_mixed_ids, is_long_id, is_long_presence};
ghost use Rattle.rl_model.specs.Verdict.{Adds, has_no_client, is_bad_action, judged_by_rules, own_rule};
ghost use Rattle.rl_channel.specs.Steps.{early, settled, settled_by_serial};

use rl_events::{Outcome, Verdict};
use rl_ids::{Place, Text};
use rl_numbers::codes::{BAD_ACTION, BAD_IDS, LOG_FULL, NO_CLIENT_ID, TOO_LONG};
use rl_numbers::limits::{
    MAX_CLIENT_ID, MAX_MESSAGE_ID, MAX_MESSAGE_SIZE, MAX_PLACE, MAX_PRESENCE_DATA,
    MAX_PRESENCE_ENCODING,
};
use rl_types::{Body, Item, PresenceAction, PresenceItem, weight};

// The answer to a serial that is not above the connection's last one.
fn judged_by_serial(last: Option<(u64, Outcome)>, serial: u64) -> Option<Verdict>
    ensures { result ≡ settled_by_serial serial last }
{
    let (before, outcome) = last?;
    if serial < before {
        Some(Verdict::Old)
    } else if serial == before {
        Some(Verdict::Done(outcome))
    } else {
        None
    }
}

fn is_long_id(item: &Item) -> bool
    ensures { result ≡ is_long_id item.now }
{
    match &item.id {
        Some(id) => id.len() > MAX_MESSAGE_ID,
        None => false,
    }
}

fn length_of(text: &Option<Text>) -> usize
    ensures { result ≡ option_len text.now }
{
    match text {
        Some(text) => text.len(),
        None => 0,
    }
}

fn is_long_presence(item: &PresenceItem) -> bool
    ensures { result ≡ is_long_presence item.now }
{
    item.client.len() > MAX_CLIENT_ID
        || length_of(&item.encoding) > MAX_PRESENCE_ENCODING
        || length_of(&item.payload) > MAX_PRESENCE_DATA
}

fn has_long_id(items: &[Item]) -> bool
    ensures { result ≡ list_any is_long_id items.now }
{
    items.iter().any(|item| is_long_id(item))
}

fn has_long_item(items: &[PresenceItem]) -> bool
    ensures { result ≡ list_any is_long_presence items.now }
{
    items.iter().any(|item| is_long_presence(item))
}

// Whether some id of the body, or another text of it, is too long.
fn has_long(body: &Body) -> bool
    ensures { result ≡ has_long body.now }
{
    match body {
        Body::Messages(items) => has_long_id(items.as_slice()),
        Body::Presence(items) => has_long_item(items.as_slice()),
        Body::Objects(_) => false,
    }
}

fn has_id(item: &Item) -> bool
    ensures { result ≡ has_id item.now }
{
    item.id.is_some()
}

fn some_have_ids(items: &[Item]) -> bool
    ensures { result ≡ list_any has_id items.now }
{
    items.iter().any(|item| has_id(item))
}

fn all_have_ids(items: &[Item]) -> bool
    ensures { result ≡ list_all has_id items.now }
{
    items.iter().all(|item| has_id(item))
}

fn has_mixed_ids(items: &[Item]) -> bool
    ensures { result ≡ has_mixed_ids items.now }
{
    some_have_ids(items) && !all_have_ids(items)
}

fn is_bad_action(item: &PresenceItem) -> bool
    ensures { result ≡ is_bad_action item.now }
{
    matches!(
        item.action,
        PresenceAction::Absent | PresenceAction::Present
    )
}

fn has_bad_action(items: &[PresenceItem]) -> bool
    ensures { result ≡ list_any is_bad_action items.now }
{
    items.iter().any(|item| is_bad_action(item))
}

fn has_no_client(item: &PresenceItem) -> bool
    ensures { result ≡ has_no_client item.now }
{
    item.client.len() == 0
}

fn lacks_client(items: &[PresenceItem]) -> bool
    ensures { result ≡ list_any has_no_client items.now }
{
    items.iter().any(|item| has_no_client(item))
}

// The code of the first rule that a body fails by itself.
fn own_rule(body: &Body) -> Option<u32>
    ensures { result ≡ own_rule body.now }
{
    match body {
        Body::Messages(items) => {
            if has_mixed_ids(items.as_slice()) {
                Some(BAD_IDS)
            } else {
                None
            }
        }
        Body::Presence(items) => {
            if has_bad_action(items.as_slice()) {
                Some(BAD_ACTION)
            } else if lacks_client(items.as_slice()) {
                Some(NO_CLIENT_ID)
            } else {
                None
            }
        }
        Body::Objects(_) => None,
    }
}

// The answer to a body that some rule refuses: the code of the first rule that it fails.
fn judged_by_rules(head: u64, body: &Body) -> Option<Verdict>
    ensures value { result ≡ settled head (judged_by_rules head body.now Adds) }
    ensures open { result ≡ None → head ≢ MAX_PLACE }
    ensures light { result ≡ None → body_weight body.now ≤ MAX_MESSAGE_SIZE }
{
    if weight(body) > MAX_MESSAGE_SIZE || has_long(body) {
        Some(Verdict::Done(Outcome::Refused(TOO_LONG)))
    } else if head == MAX_PLACE {
        Some(Verdict::Done(Outcome::Refused(LOG_FULL)))
    } else {
        own_rule(body).map(|code| Verdict::Done(Outcome::Refused(code)))
    }
}

// The answer to a put that a rule before the limit of members decides, by what its connection put last, by the
// place at which its id is remembered, and by the head.
pub fn judged_early(
    last: Option<(u64, Outcome)>,
    found: Option<Place>,
    head: u64,
    serial: u64,
    body: &Body,
) -> Option<Verdict>
    ensures value { result ≡ settled head (early serial last found head body.now Adds) }
    ensures open { result ≡ None → head ≢ MAX_PLACE }
    ensures light { result ≡ None → body_weight body.now ≤ MAX_MESSAGE_SIZE }
{
    let answer = judged_by_serial(last, serial);
    if answer.is_some() {
        return answer;
    }
    match found {
        Some(place) => Some(Verdict::Done(Outcome::Taken(place))),
        None => judged_by_rules(head, body),
    }
}
