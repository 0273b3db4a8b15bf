use rl_ids::{ChannelSerial, Epoch, List, NoMemory, Place, Text};
use rl_recovery::*;
use rl_runs::RecoveryKey;
use std::alloc::Global;
use std::test::*;

// A key with two channels, as a client gives it, and its text.
const KEY_TEXT: &str =
    "{\"channelSerials\":{\"Room\":\"00000000-0000-0000-0000-000000000001:0000000000000002\",\"room\":\"00000000-0000-0000-0000-000000000001:000000000000001f\"},\"connectionKey\":\"c00000001!0000000000000007\",\"msgSerial\":3}";

fn at(alloc: Global, name: &str, place: u64) -> Result<(Text, ChannelSerial), NoMemory> {
    let serial = ChannelSerial {
        epoch: Epoch(1),
        place: Place(place),
    };
    Ok((Text::from_str(alloc, name)?, serial))
}

fn key(alloc: Global) -> Result<RecoveryKey, NoMemory> {
    let mut serials = List::new(alloc);
    serials.push(at(alloc, "Room", 2)?)?;
    serials.push(at(alloc, "room", 31)?)?;
    Ok(RecoveryKey {
        key: Text::from_str(alloc, "c00000001!0000000000000007")?,
        next: 3,
        serials,
    })
}

// What a text is read as, written again; empty where it is no key.
fn again(alloc: Global, text: &str) -> Result<Text, NoMemory> {
    match read_recovery_key(alloc, text)? {
        Some(key) => write_recovery_key(alloc, &key),
        None => Ok(Text::new(alloc)),
    }
}

#[test]
fn a_key_is_written_and_read(rt: HostRuntime) -> Result<(), NoMemory> {
    let alloc = rt.alloc();
    let text = write_recovery_key(alloc, &key(alloc)?)?;
    assert!(rt; text.as_str() == KEY_TEXT);
    assert!(rt; again(alloc, KEY_TEXT)?.as_str() == KEY_TEXT);
    Ok(())
}

#[test]
fn another_text_is_no_key(rt: HostRuntime) -> Result<(), NoMemory> {
    let alloc = rt.alloc();
    assert!(rt; again(alloc, "[]")?.is_empty());
    assert!(rt; again(alloc, "{\"channelSerials\":{},\"msgSerial\":3}")?.is_empty());
    let spaced =
        " {\"msgSerial\":4, \"more\":[1.5], \"connectionKey\":\"k\", \"channelSerials\":{}}";
    let plain = "{\"channelSerials\":{},\"connectionKey\":\"k\",\"msgSerial\":4}";
    assert!(rt; again(alloc, spaced)?.as_str() == plain);
    Ok(())
}
