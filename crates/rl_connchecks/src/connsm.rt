// The table of a connection, pair by pair, and what its states say.
use rl_connsm::{
    ConnEvent, attach_refused, awaits_connected, awaits_ttl, brings_key, closes, conn_step,
    connect_refused, drops_link, enqueue_refused, forgets_connection, from_suspended_after,
    gives_recovery_key, is_connected, leaves_connected, loses_link, may_connect, may_recover,
    opens_link, restarts_ttl, takes_acknowledgements,
};
use rl_types::ConnState;

const STATES: [ConnState; 8] = [
    ConnState::Initialized,
    ConnState::Connecting,
    ConnState::Connected,
    ConnState::Disconnected,
    ConnState::Suspended,
    ConnState::Closing,
    ConnState::Closed,
    ConnState::Failed,
];

fn state_name(state: ConnState) -> &'static str {
    match state {
        ConnState::Initialized => "INITIALIZED",
        ConnState::Connecting => "CONNECTING",
        ConnState::Connected => "CONNECTED",
        ConnState::Disconnected => "DISCONNECTED",
        ConnState::Suspended => "SUSPENDED",
        ConnState::Closing => "CLOSING",
        ConnState::Closed => "CLOSED",
        ConnState::Failed => "FAILED",
    }
}

fn event_name(event: ConnEvent) -> &'static str {
    match event {
        ConnEvent::Connect => "Connect",
        ConnEvent::Connected => "Connected",
        ConnEvent::Down => "Down",
        ConnEvent::Disconnected => "Disconnected",
        ConnEvent::Fatal => "Fatal",
        ConnEvent::Ttl => "Ttl",
        ConnEvent::CloseAsked => "CloseAsked",
        ConnEvent::ClosedGot => "ClosedGot",
        ConnEvent::Died => "Died",
    }
}

fn has_word(words: &str, word: &str) -> bool {
    words.split(' ').any(|one| one == word)
}

// The table's own words for the new state, where it has a row for the pair.
fn row(state: &str, event: &str) -> Option<&'static str> {
    for (states, events, new) in [
        (
            "INITIALIZED DISCONNECTED SUSPENDED CLOSED FAILED",
            "Connect",
            "CONNECTING",
        ),
        ("CONNECTING", "Connected", "CONNECTED"),
        (
            "CONNECTING",
            "Down Disconnected",
            "DISCONNECTED or SUSPENDED",
        ),
        ("CONNECTED", "Down Disconnected", "DISCONNECTED"),
        ("CONNECTING CONNECTED", "Fatal", "FAILED"),
        ("DISCONNECTED CONNECTING", "Ttl", "SUSPENDED"),
        ("CONNECTED", "CloseAsked", "CLOSING"),
        (
            "INITIALIZED CONNECTING DISCONNECTED SUSPENDED",
            "CloseAsked",
            "CLOSED",
        ),
        ("CLOSING", "ClosedGot Down", "CLOSED"),
        (
            "INITIALIZED CONNECTING CONNECTED DISCONNECTED SUSPENDED CLOSING CLOSED",
            "Died",
            "CLOSED",
        ),
    ] {
        if has_word(states, state) && has_word(events, event) {
            return Some(new);
        }
    }
    None
}

fn wanted(state: &'static str, from_suspended: bool, event: &str) -> &'static str {
    match row(state, event) {
        Some("DISCONNECTED or SUSPENDED") if from_suspended => "SUSPENDED",
        Some("DISCONNECTED or SUSPENDED") => "DISCONNECTED",
        Some(new) => new,
        None => state,
    }
}

#[test]
fn every_pair_of_state_and_event(rt: HostRuntime) {
    for state in STATES {
        for event in [
            ConnEvent::Connect,
            ConnEvent::Connected,
            ConnEvent::Down,
            ConnEvent::Disconnected,
            ConnEvent::Fatal,
            ConnEvent::Ttl,
            ConnEvent::CloseAsked,
            ConnEvent::ClosedGot,
            ConnEvent::Died,
        ] {
            for from_suspended in [false, true] {
                assert_eq!(rt;
                    state_name(conn_step(state, from_suspended, event)),
                    wanted(state_name(state), from_suspended, event_name(event))
                );
            }
        }
    }
}

fn says(word: &str, state: ConnState) -> bool {
    match word {
        "refuses Connect" => connect_refused(state) == Some(state),
        "refuses Attach" => attach_refused(state) == Some(state),
        "refuses to publish" => enqueue_refused(state) == Some(state),
        "closes" => closes(state),
        "recovers" => may_recover(state),
        "sends" => is_connected(state),
        "awaits CONNECTED" => awaits_connected(state),
        "takes ACK" => takes_acknowledgements(state),
        "forgets" => forgets_connection(state),
        "brings its key" => brings_key(state),
        "gives no key" => !gives_recovery_key(state),
        "awaits its end" => awaits_ttl(state),
        _ => restarts_ttl(state),
    }
}

#[test]
fn what_each_state_says(rt: HostRuntime) {
    for (word, states) in [
        ("refuses Connect", "CONNECTING CONNECTED CLOSING"),
        ("refuses Attach", "SUSPENDED CLOSING CLOSED FAILED"),
        ("refuses to publish", "SUSPENDED CLOSING CLOSED FAILED"),
        (
            "closes",
            "INITIALIZED CONNECTING CONNECTED DISCONNECTED SUSPENDED",
        ),
        ("recovers", "INITIALIZED"),
        ("sends", "CONNECTED"),
        ("awaits CONNECTED", "CONNECTING"),
        ("takes ACK", "CONNECTED CLOSING"),
        ("forgets", "SUSPENDED CLOSED FAILED"),
        ("brings its key", "INITIALIZED DISCONNECTED"),
        ("gives no key", "CLOSING"),
        ("awaits its end", "CONNECTING DISCONNECTED"),
        ("restarts", "INITIALIZED SUSPENDED CLOSED FAILED"),
    ] {
        for state in STATES {
            assert_eq!(rt; says(word, state), has_word(states, state_name(state)));
        }
    }
}

#[test]
fn a_suspended_connection_connects(rt: HostRuntime) {
    assert!(rt; may_connect(ConnState::Suspended));
    assert!(rt; from_suspended_after(ConnState::Suspended, false, ConnEvent::Connect));
    assert!(rt; opens_link(ConnState::Suspended, ConnState::Connecting));
    assert!(rt; drops_link(ConnState::Connecting, ConnState::Suspended));
    assert!(rt; loses_link(ConnEvent::Down, ConnState::Closing, ConnState::Closed));
    assert!(rt; !loses_link(ConnEvent::ClosedGot, ConnState::Closing, ConnState::Closed));
    assert!(rt; leaves_connected(ConnState::Connected, ConnState::Closing));
}
