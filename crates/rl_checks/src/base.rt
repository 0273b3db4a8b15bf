// The small types, and ids.
use rl_base::RoomyList;
use rl_ids::{
    Blob, ChannelSerial, Code16, ConnNo, Copied, Epoch, List, MapValue, MemberKey, NoMemory,
    ObjectId, Place, Text, read_epoch, read_serial, read_site, write_conn, write_epoch,
    write_serial, write_site,
};
use std::alloc::Global;

// Whether a value is copied. What the copy stands for, the contract of `copy` says.
pub fn is_copied<T: Copied + Drop>(alloc: Global, value: &T) -> Result<bool, NoMemory> {
    value.copy(alloc)?;
    Ok(true)
}

#[test]
fn texts_grow(rt: HostRuntime) -> Result<(), NoMemory> {
    let mut text = Text::from_str(rt.alloc(), "a")?;
    text.push('é')?;
    text.push_ascii(b'-')?;
    text.push_str("bc")?;
    text.push_decimal(18_446_744_073_709_551_615)?;
    text.push_digits(rt.alloc(), 16, 4, 0x1_00af)?;
    text.push_digits(rt.alloc(), 10, 3, 7)?;
    assert_eq!(rt; text.as_str(), "aé-bc1844674407370955161500af007");
    assert!(rt; is_copied(rt.alloc(), &text)?);
    Ok(())
}

#[test]
fn blobs_grow(rt: HostRuntime) -> Result<(), NoMemory> {
    let mut blob = Blob::from_slice(rt.alloc(), b"ab")?;
    blob.push(0)?;
    blob.extend_from_slice(b"cd")?;
    assert_eq!(rt; blob.as_slice(), b"ab\0cd".as_slice());
    assert!(rt; is_copied(rt.alloc(), &blob)?);
    Ok(())
}

#[test]
fn lists_grow(rt: HostRuntime) -> Result<(), NoMemory> {
    let mut list = List::new(rt.alloc());
    list.push(5u64)?;
    list.insert(0, 9)?;
    let mut more = List::new(rt.alloc());
    more.push(7u64)?;
    list.append(more)?;
    assert_eq!(rt; list.as_slice(), [9, 5, 7].as_slice());
    list.sort()?;
    assert_eq!(rt; list.as_slice(), [5, 7, 9].as_slice());
    assert!(rt; is_copied(rt.alloc(), &list)?);
    Ok(())
}

#[test]
fn lists_with_room_grow(rt: HostRuntime) -> Result<(), NoMemory> {
    let mut list = List::new(rt.alloc());
    list.push(5u64)?;
    let mut roomy = RoomyList::from_list(list);
    roomy.reserve(1)?;
    roomy.push(7);
    assert_eq!(rt; roomy.into_list().as_slice(), [5, 7].as_slice());
    Ok(())
}

#[test]
fn plain_values_are_copied(rt: HostRuntime) -> Result<(), NoMemory> {
    assert!(rt; is_copied(rt.alloc(), &Some(7u8))?);
    assert!(rt; is_copied(rt.alloc(), &(7u32, true))?);
    assert!(rt; is_copied(rt.alloc(), &None::<u64>)?);
    assert!(rt; is_copied(rt.alloc(), &(-7i64, 7i128))?);
    assert!(rt; is_copied(rt.alloc(), &7usize)?);
    Ok(())
}

#[test]
fn codes_fit(rt: HostRuntime) -> Result<(), NoMemory> {
    let Some(code) = Code16::from_text("0123456789abcdef") else {
        assert!(rt; false);
        return Ok(());
    };
    assert_eq!(rt; code.as_str(), "0123456789abcdef");
    assert!(rt; is_copied(rt.alloc(), &code)?);
    assert!(rt; Code16::from_text("0123456789abcdefg").is_none());
    Ok(())
}

#[test]
fn connections_are_written(rt: HostRuntime) -> Result<(), NoMemory> {
    for (conn, id) in [
        (0u32, "c00000000"),
        (255, "c000000ff"),
        (0xdead_beef, "cdeadbeef"),
    ] {
        let text = write_conn(rt.alloc(), ConnNo(conn))?;
        assert_eq!(rt; text.as_str(), id);
    }
    Ok(())
}

#[test]
fn sites_are_read(rt: HostRuntime) {
    for (text, is) in [
        ("a", true),
        ("", false),
        ("abcdefghijklmnop", true),
        ("abcdefghijklmnopq", false),
        ("A", false),
        ("s1", true),
    ] {
        assert_eq!(rt; read_site(text).is_some(), is, "{text}");
    }
}

#[test]
fn ids_are_copied(rt: HostRuntime) -> Result<(), NoMemory> {
    let key = MemberKey {
        conn: Text::from_str(rt.alloc(), "c00000001")?,
        client: Text::from_str(rt.alloc(), "a")?,
    };
    assert!(rt; is_copied(rt.alloc(), &key)?);
    assert!(rt; is_copied(rt.alloc(), &MapValue::Text(key.client))?);
    assert!(rt;
        is_copied(
            rt.alloc(),
            &MapValue::Bytes(Blob::from_slice(rt.alloc(), b"x")?)
        )?
    );
    assert!(rt; is_copied(rt.alloc(), &MapValue::Ref(ObjectId::Root))?);
    Ok(())
}

#[test]
fn values_are_copied(rt: HostRuntime) -> Result<(), NoMemory> {
    assert!(rt; is_copied(rt.alloc(), &MapValue::Whole(-3))?);
    assert!(rt; is_copied(rt.alloc(), &MapValue::Bool(true))?);
    assert!(rt; is_copied(rt.alloc(), &ConnNo(3))?);
    Ok(())
}

#[test]
fn channel_serials_are_written_and_read(rt: HostRuntime) -> Result<(), NoMemory> {
    let serial = ChannelSerial {
        epoch: Epoch(1),
        place: Place(26),
    };
    let text = write_serial(rt.alloc(), &serial)?;
    assert_eq!(rt;
        text.as_str(),
        "00000000-0000-0000-0000-000000000001:000000000000001a"
    );
    assert!(rt; read_serial(text.as_str()) == Some(serial));
    assert!(rt; read_serial("00000000-0000-0000-0000-000000000001:000000000000001A").is_none());
    assert!(rt; read_serial("0000000000000000000000000000000000001:000000000000001a").is_none());
    let epoch = Epoch(0x67e5504410b1426f9247bb680e5fe0c8);
    let text = write_epoch(rt.alloc(), epoch)?;
    assert_eq!(rt; text.as_str(), "67e55044-10b1-426f-9247-bb680e5fe0c8");
    assert!(rt; read_epoch(text.as_str()) == Some(epoch));
    assert!(rt; read_epoch("67E55044-10b1-426f-9247-bb680e5fe0c8").is_none());
    assert!(rt; read_epoch("67e5504410b1426f9247bb680e5fe0c8").is_none());
    Ok(())
}

#[test]
fn site_codes_are_written(rt: HostRuntime) -> Result<(), NoMemory> {
    let Some(site) = read_site("s1") else {
        assert!(rt; false);
        return Ok(());
    };
    assert_eq!(rt; write_site(rt.alloc(), &site)?.as_str(), "s1");
    Ok(())
}
