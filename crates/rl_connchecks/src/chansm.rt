// The table of a channel, pair by pair, and what its states say.
use rl_chansm::{
    ChanEvent, after_connection, attach_at_refused, attaches, awaits_attached, awaits_detached,
    chan_step, clears_channel, comes_up, detach_refused, detaches, event_of, forgets_serial,
    is_attached, lowered, operate_refused, presence_refused, publish_refused, raised, sends_attach,
    sends_detach, takes_attached, takes_detached, takes_error, takes_unasked,
};
use rl_types::{ChanState, ConnState};

const STATES: [ChanState; 7] = [
    ChanState::Initialized,
    ChanState::Attaching,
    ChanState::Attached,
    ChanState::Detaching,
    ChanState::Detached,
    ChanState::Suspended,
    ChanState::Failed,
];

fn state_name(state: ChanState) -> &'static str {
    match state {
        ChanState::Initialized => "INITIALIZED",
        ChanState::Attaching => "ATTACHING",
        ChanState::Attached => "ATTACHED",
        ChanState::Detaching => "DETACHING",
        ChanState::Detached => "DETACHED",
        ChanState::Suspended => "SUSPENDED",
        ChanState::Failed => "FAILED",
    }
}

fn event_name(event: ChanEvent) -> &'static str {
    match event {
        ChanEvent::AttachAsked => "AttachAsked",
        ChanEvent::DetachAsked { connected: true } => "DetachAsked/connected",
        ChanEvent::DetachAsked { connected: false } => "DetachAsked/not",
        ChanEvent::AttachedTaken => "AttachedTaken",
        ChanEvent::DetachedTaken => "DetachedTaken",
        ChanEvent::ErrorTaken => "ErrorTaken",
        ChanEvent::DetachedUnasked => "DetachedUnasked",
        ChanEvent::ConnUp => "ConnUp",
        ChanEvent::LinkDown => "LinkDown",
        ChanEvent::Timeout => "Timeout",
        ChanEvent::ConnSuspended => "ConnSuspended",
        ChanEvent::ConnClosed => "ConnClosed",
        ChanEvent::ConnFailed => "ConnFailed",
    }
}

fn has_word(words: &str, word: &str) -> bool {
    words.split(' ').any(|one| one == word)
}

// The state that the table's rows give for a pair; what has no row leaves the state.
fn wanted(state: &'static str, event: &str) -> &'static str {
    for (states, events, new) in [
        (
            "INITIALIZED DETACHED SUSPENDED FAILED DETACHING",
            "AttachAsked",
            "ATTACHING",
        ),
        ("ATTACHING ATTACHED", "DetachAsked/connected", "DETACHING"),
        ("ATTACHING ATTACHED", "DetachAsked/not", "DETACHED"),
        (
            "SUSPENDED",
            "DetachAsked/connected DetachAsked/not",
            "DETACHED",
        ),
        ("ATTACHING", "AttachedTaken", "ATTACHED"),
        ("DETACHING", "DetachedTaken", "DETACHED"),
        ("ATTACHING ATTACHED DETACHING", "ErrorTaken", "FAILED"),
        ("ATTACHED", "DetachedUnasked", "ATTACHING"),
        ("ATTACHING ATTACHED SUSPENDED", "ConnUp", "ATTACHING"),
        ("DETACHING", "LinkDown", "DETACHED"),
        ("ATTACHING", "Timeout", "SUSPENDED"),
        ("ATTACHING ATTACHED", "ConnSuspended", "SUSPENDED"),
        (
            "ATTACHING ATTACHED DETACHING SUSPENDED",
            "ConnClosed",
            "DETACHED",
        ),
        (
            "ATTACHING ATTACHED DETACHING SUSPENDED",
            "ConnFailed",
            "FAILED",
        ),
    ] {
        if has_word(states, state) && has_word(events, event) {
            return new;
        }
    }
    state
}

#[test]
fn every_pair_of_state_and_event(rt: HostRuntime) {
    for state in STATES {
        for event in [
            ChanEvent::AttachAsked,
            ChanEvent::DetachAsked { connected: true },
            ChanEvent::DetachAsked { connected: false },
            ChanEvent::AttachedTaken,
            ChanEvent::DetachedTaken,
            ChanEvent::ErrorTaken,
            ChanEvent::DetachedUnasked,
            ChanEvent::ConnUp,
            ChanEvent::LinkDown,
            ChanEvent::Timeout,
            ChanEvent::ConnSuspended,
            ChanEvent::ConnClosed,
            ChanEvent::ConnFailed,
        ] {
            assert_eq!(rt;
                state_name(chan_step(state, event)),
                wanted(state_name(state), event_name(event))
            );
        }
    }
}

fn says(word: &str, state: ChanState) -> bool {
    let detach = ChanEvent::DetachAsked { connected: true };
    match word {
        "refuses AttachAt" => attach_at_refused(Some(state)) == Some(state),
        "refuses Detach" => detach_refused(state) == Some(state),
        "refuses to publish" => publish_refused(state) == Some(state),
        "refuses to operate" => operate_refused(state) == Some(state),
        "refuses to enter" => presence_refused(state) == Some(state),
        "attaches" => attaches(state),
        "detaches" => detaches(state),
        "gets entries" => is_attached(state),
        "comes up" => comes_up(state),
        "sends ATTACH" => sends_attach(true, state, ChanEvent::AttachAsked),
        "sends DETACH" => sends_detach(state, detach),
        "awaits ATTACHED" => awaits_attached(state),
        "awaits DETACHED" => awaits_detached(state),
        "takes ATTACHED" => takes_attached(1, state),
        "takes DETACHED" => takes_detached(1, state),
        "takes ERROR" => takes_error(0, state),
        "takes what is not owed" => takes_unasked(0, state),
        "forgets" => forgets_serial(state),
        _ => clears_channel(state),
    }
}

#[test]
fn what_each_state_says(rt: HostRuntime) {
    for (word, states) in [
        (
            "refuses AttachAt",
            "INITIALIZED ATTACHING ATTACHED DETACHING DETACHED SUSPENDED FAILED",
        ),
        ("refuses Detach", "FAILED"),
        ("refuses to publish", "SUSPENDED FAILED"),
        ("refuses to operate", "DETACHED SUSPENDED FAILED"),
        (
            "refuses to enter",
            "INITIALIZED ATTACHING DETACHING DETACHED SUSPENDED FAILED",
        ),
        (
            "attaches",
            "INITIALIZED DETACHING DETACHED SUSPENDED FAILED",
        ),
        ("detaches", "ATTACHING ATTACHED SUSPENDED"),
        ("gets entries", "ATTACHED"),
        ("comes up", "ATTACHING ATTACHED SUSPENDED"),
        (
            "sends ATTACH",
            "INITIALIZED DETACHING DETACHED SUSPENDED FAILED",
        ),
        ("sends DETACH", "ATTACHING ATTACHED"),
        ("awaits ATTACHED", "ATTACHING"),
        ("awaits DETACHED", "DETACHING"),
        ("takes ATTACHED", "ATTACHING"),
        ("takes DETACHED", "DETACHING"),
        ("takes ERROR", "ATTACHING ATTACHED DETACHING"),
        ("takes what is not owed", "ATTACHED"),
        ("forgets", "DETACHED SUSPENDED FAILED"),
        ("clears", "DETACHED FAILED"),
    ] {
        for state in STATES {
            assert_eq!(rt; says(word, state), has_word(states, state_name(state)));
        }
    }
}

#[test]
fn the_last_answer_that_is_owed_is_taken(rt: HostRuntime) {
    assert_eq!(rt; raised(0), 1);
    assert_eq!(rt; raised(u64::MAX), u64::MAX);
    assert_eq!(rt; lowered(2), 1);
    assert_eq!(rt; lowered(u64::MAX), u64::MAX);
    assert!(rt; !takes_attached(2, ChanState::Attaching));
    assert!(rt; !takes_attached(0, ChanState::Attaching));
}

#[test]
fn a_detaching_channel_fails_with_its_connection(rt: HostRuntime) {
    let (before, after) = (ConnState::Connected, ConnState::Failed);
    assert!(rt; event_of(before, after) == Some(ChanEvent::ConnFailed));
    assert_eq!(rt;
        state_name(after_connection(ChanState::Detaching, true, before, after)),
        "FAILED"
    );
    assert_eq!(rt;
        state_name(after_connection(ChanState::Detaching, true, before, ConnState::Disconnected)),
        "DETACHED"
    );
}
