//! Laws over the definitions alone. Each is a function that does nothing: its contract is the law.
ghost use Rattle.rl_ids.specs.declared.members.MemberKey.{MemberKey};
ghost use Rattle.rl_ids.specs.declared.objects.ObjectId.{ObjectId};
ghost use Rattle.rl_types.specs.declared.objects.ObjectState.{ObjectState};
ghost use Rattle.rl_types.specs.declared.presence.PresenceItem.{PresenceItem};
ghost use Rattle.rl_pages.specs.Examples.{ShowsBoth, ShowsLess};
ghost use Rattle.rl_pages.specs.Sending.{SendsInOrder, WantsMembersFirst};
ghost use Rattle.rl_pages.specs.History.{BeginsPastTheLast, EndsForGood, EndsOnce, StandsForPages};

/// After any pages and ends, what is kept asks for the page, numbers the frames and ends where the whole lists of
/// pages say so: all pages of the members before those of the objects, each past the last key that came, and the
/// end only past each head at which they were made (RTP18, RTO5).
#[tactic(auto, using(crate::proofs::Stands::stands_for_pages))]
pub fn stands_for_pages()
    ensures { StandsForPages }
{}

/// The first page has no cursor, and each other one begins past the last key of the page before. After an empty page
/// the next one begins where that one did.
#[tactic(auto, using(crate::proofs::Stands::begins_past_the_last))]
pub fn begins_past_the_last()
    ensures members { BeginsPastTheLast PresenceItem MemberKey }
    ensures objects { BeginsPastTheLast ObjectState ObjectId }
{}

/// A reply with members is wanted while a page of them is, one with objects once the members are whole and a page of
/// the objects is, and none where no page is.
#[tactic(auto, using(crate::proofs::Sent::wants_members_first))]
pub fn wants_members_first()
    ensures { WantsMembersFirst }
{}

/// Where each reply brought the page that was wanted next, all that is sent is the pages of the members, numbered in
/// order from 1, then those of the objects, numbered again from 1, and behind them the end pages, once they have ended.
#[tactic(auto, using(crate::proofs::Sent::sends_in_order))]
pub fn sends_in_order()
    ensures { SendsInOrder }
{}

/// The end pages are sent once, however often the end is asked for, and only after each page that was asked for came.
#[tactic(auto, using(crate::proofs::Ends::ends_once))]
pub fn ends_once()
    ensures { EndsOnce }
{}

/// Where the end may be, its pages are sent, and after it no position allows another.
#[tactic(auto, using(crate::proofs::Ends::ends_for_good))]
pub fn ends_for_good()
    ensures { EndsForGood }
{}

/// A session that asked for members and objects: its pages, their frames and its end.
#[tactic(auto, using(crate::proofs::Computed::both))]
pub fn both_kinds_shown()
    ensures { ShowsBoth }
{}

/// A session that asked for objects alone, and one that asked for nothing.
#[tactic(auto, using(crate::proofs::Computed::less))]
pub fn fewer_kinds_shown()
    ensures { ShowsLess }
{}
