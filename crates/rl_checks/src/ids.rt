// The texts of ids, with texts in and out of their forms.
use rl_base::{read_decimal, read_fixed, read_padded_decimal};
use rl_ids::{
    Blob, ChannelSerial, Code64, ConnNo, Epoch, NoMemory, ObjectId, ObjectKind, OpSerial, Place,
    Text, make_object_id, object_id_len, read_object_id, read_op_serial, read_site,
    write_object_id, write_op_serial,
};

#[test]
fn decimals_are_read(rt: HostRuntime) {
    for (text, number) in [
        ("0", Some(0)),
        ("01", None),
        ("", None),
        ("+1", None),
        ("1a", None),
        ("18446744073709551615", Some(18_446_744_073_709_551_615u64)),
        ("18446744073709551616", None),
        ("99999999999999999999", None),
        ("100000000000000000000", None),
    ] {
        assert!(rt; read_decimal(text.as_bytes()) == number, "{text}");
    }
}

#[test]
fn padded_decimals_are_read(rt: HostRuntime) {
    for (text, number) in [
        ("0", Some(0)),
        ("007", Some(7)),
        ("", None),
        ("7 ", None),
        ("00000000000000000000000000000000000001", Some(1)),
        (
            "99999999999999999999999999999999999999",
            Some(99_999_999_999_999_999_999_999_999_999_999_999_999u128),
        ),
        ("000000000000000000000000000000000000001", None),
    ] {
        assert!(rt; read_padded_decimal(text.as_bytes()) == number, "{text}");
    }
}

#[test]
fn fixed_digits_are_read(rt: HostRuntime) {
    for (text, number) in [
        ("00000000000000000007", Some(7)),
        ("18446744073709551615", Some(18_446_744_073_709_551_615u64)),
        ("18446744073709551616", None),
        ("7", None),
    ] {
        assert!(rt; read_fixed(text.as_bytes(), 10, 20) == number, "{text}");
    }
}

#[test]
fn numbers_are_appended(rt: HostRuntime) -> Result<(), NoMemory> {
    let mut blob = Blob::from_slice(rt.alloc(), b"c")?;
    blob.push_digits(16, 8, 0xdead_beef)?;
    blob.push_decimal(120)?;
    assert_eq!(rt; blob.as_slice(), b"cdeadbeef120".as_slice());
    let mut text = Text::new(rt.alloc());
    text.push_at_least(rt.alloc(), 10, 4, 7)?;
    text.push_at_least(rt.alloc(), 10, 4, 12_345)?;
    text.push_at_least(rt.alloc(), 16, 1, 255)?;
    assert_eq!(rt; text.as_str(), "000712345ff");
    Ok(())
}

#[test]
fn object_ids_are_read_and_written(rt: HostRuntime) -> Result<(), NoMemory> {
    for (text, is) in [
        ("root", true),
        ("Root", false),
        ("root:a@0", false),
        ("counter:a@0", true),
        ("counter:a@01", false),
        ("counter:a@", false),
        ("counter:a", false),
        ("counter:@0", false),
        ("counter:a@b@0", false),
        ("map:-_aZ9@9007199254740991", true),
        ("map:a@9007199254740992", false),
        ("map:a.b@0", false),
        ("list:a@0", false),
        (
            "map:0123456789012345678901234567890123456789012345678901234567890123@5",
            true,
        ),
        (
            "map:01234567890123456789012345678901234567890123456789012345678901234@5",
            false,
        ),
        ("", false),
    ] {
        match read_object_id(text) {
            None => assert!(rt; !is, "{text}"),
            Some(id) => {
                assert!(rt; is);
                assert_eq!(rt; write_object_id(rt.alloc(), &id)?.as_str(), text);
                assert_eq!(rt; object_id_len(&id), text.len() as u64);
                assert_eq!(rt; format!(in rt.alloc(); "{id}")?.as_str(), text);
            }
        }
    }
    Ok(())
}

#[test]
fn object_ids_are_in_the_order_of_their_texts(rt: HostRuntime) {
    let texts = [
        "counter:a@0",
        "counter:a@10",
        "counter:a@2",
        "counter:aa@0",
        "map:a-@0",
        "map:a0@0",
        "map:a@0",
        "root",
    ];
    for at in 1..texts.len() {
        assert!(rt; read_object_id(texts[at - 1]) < read_object_id(texts[at]));
    }
}

// The hashes are those of another implementation.
#[test]
fn object_ids_are_made(rt: HostRuntime) -> Result<(), NoMemory> {
    for (initial, nonce, text) in [
        ("", "", "map:56wHhmaOD_DwK2K9BPRf9jb9gttjsRBGAcl13ABfOmc@17"),
        (
            "{\"counter\":{\"count\":5}}",
            "0123456789abcdef",
            "map:1MD_3asjeNr2QW9Sd4EoMa_mz5UPyIirssrnY1hl0xY@17",
        ),
        (
            "a",
            "b:c",
            "map:sO4E-IDE_0JhR54ueCK3QQruTHFZ9Bha1bDYijErSV4@17",
        ),
    ] {
        let id = make_object_id(
            rt.alloc(),
            ObjectKind::Map,
            initial.as_bytes(),
            nonce.as_bytes(),
            17,
        )?;
        assert_eq!(rt; write_object_id(rt.alloc(), &id)?.as_str(), text);
    }
    Ok(())
}

#[test]
fn operation_serials_are_read_and_written(rt: HostRuntime) -> Result<(), NoMemory> {
    for (text, is) in [
        ("00000000000000000006-0000@s1", true),
        ("18446744073709551615-9999@abcdefghijklmnop", true),
        ("18446744073709551616-0000@s1", false),
        ("00000000000000000006-000@s1", false),
        ("00000000000000000006-10000@s1", false),
        ("0000000000000000006-0000@s1", false),
        ("00000000000000000006:0000@s1", false),
        ("00000000000000000006-0000@", false),
        ("00000000000000000006-0000@S1", false),
        ("00000000000000000006-0000@s1@s1", false),
        ("", false),
    ] {
        match read_op_serial(text) {
            None => assert!(rt; !is, "{text}"),
            Some(serial) => {
                assert!(rt; is, "{text}");
                assert_eq!(rt; write_op_serial(rt.alloc(), &serial)?.as_str(), text);
            }
        }
    }
    Ok(())
}

#[test]
fn a_long_index_is_written_all_the_same(rt: HostRuntime) -> Result<(), NoMemory> {
    let Some(site) = read_site("s1") else {
        assert!(rt; false);
        return Ok(());
    };
    let serial = OpSerial {
        place: Place(6),
        index: 12_345,
        site,
    };
    let text = write_op_serial(rt.alloc(), &serial)?;
    assert_eq!(rt; text.as_str(), "00000000000000000006-12345@s1");
    assert!(rt; read_op_serial(text.as_str()).is_none());
    Ok(())
}

#[test]
fn ids_are_shown_as_they_are_written(rt: HostRuntime) -> Result<(), NoMemory> {
    let serial = ChannelSerial {
        epoch: Epoch(1),
        place: Place(26),
    };
    let shown = format!(in rt.alloc(); "{} {} {serial}", ConnNo(1), Epoch(1))?;
    assert_eq!(rt;
        shown.as_str(),
        "c00000001 00000000-0000-0000-0000-000000000001 00000000-0000-0000-0000-000000000001:000000000000001a"
    );
    if let (Some(site), Some(hash)) = (read_site("s1"), Code64::from_text("a")) {
        let op = OpSerial {
            place: Place(6),
            index: 0,
            site,
        };
        let id = ObjectId::Made {
            kind: ObjectKind::Counter,
            hash,
            millis: 5,
        };
        let shown = format!(in rt.alloc(); "{site} {op} {id}")?;
        assert_eq!(rt;
            shown.as_str(),
            "s1 00000000000000000006-0000@s1 counter:a@5"
        );
    }
    Ok(())
}
