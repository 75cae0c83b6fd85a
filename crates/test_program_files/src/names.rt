// Names, their keys, and file control blocks.

use filenames::{Fcb, Key, Name};
use std::alloc::Global;
use std::test::Fail;

// Texts that are valid names, their keys, and what is printed for the keys.
const SAID: &[(&str, Key, &str)] = &[
    ("note.txt", *b"\0NOTE    TXT", "NOTE.TXT"),
    ("A.", *b"\0A          ", "A"),
    ("b:x.y", *b"\x01X       Y  ", "B:X.Y"),
    ("a:x", *b"\0X          ", "X"),
    ("D:#1", *b"\x03#1         ", "D:#1"),
    ("d:a1$#@-_z.q", *b"\x03A1$#@-_ZQ  ", "D:A1$#@-_Z.Q"),
];

fn is_said(alloc: Global, text: &str, key: &Key, printed: &str) -> Result<bool, Fail> {
    let name = Name::parse(text)?;
    let found = name.to_string(alloc)?;
    Ok(name.key() == *key && found.as_str() == printed)
}

#[test]
fn texts_say_keys_and_are_printed(rt: HostRuntime) -> Result<(), Fail> {
    for (text, key, printed) in SAID {
        assert!(rt; is_said(rt.alloc(), text, key, printed)?, "{text}");
    }
    Ok(())
}

// Texts that are no valid names, and the numbers of their refusals.
const REFUSED: &[(&str, u8)] = &[
    ("", 1),
    (".TXT", 1),
    ("B:", 1),
    ("C:.x", 1),
    ("abcdefghi", 2),
    ("abcdefgh*", 2),
    ("a.abcd", 2),
    ("a*", 3),
    ("a.b.c", 3),
    ("a b", 3),
    ("a:b:", 3),
    ("E:X", 4),
    ("::X", 4),
    ("1:abcdefghi", 4),
];

// Returns the number of a text's refusal, or 0 if it is a valid name.
fn refusal(text: &str) -> u8 {
    match Name::parse(text) {
        Ok(_) => 0,
        Err(refused) => refused.number(),
    }
}

#[test]
fn other_texts_are_refused(rt: HostRuntime) {
    for (text, number) in REFUSED {
        assert!(rt; refusal(text) == *number, "{text}");
    }
}

const SAYABLE: &[Key] = &[
    *b"\0NOTE    TXT",
    *b"\x03ABCDEFGHIJK",
    *b"\x01$          ",
    *b"\0A1      _  ",
];

// A drive past D; no byte of a name; a blank before a byte, in the name and in the type; `?`; a small letter; bit 7.
const UNSAYABLE: &[Key] = &[
    *b"\x04NOTE    TXT",
    *b"\0        TXT",
    *b"\0 A         ",
    *b"\0A B        ",
    *b"\0A        T ",
    *b"\0A???????   ",
    *b"\0a          ",
    *b"\0A        \xd4 ",
];

// Returns the key of the name that a key has, if it has one.
fn named(key: &Key) -> Option<Key> {
    Name::from_key(key).map(|name: Name| name.key())
}

#[test]
fn keys_of_names_give_names(rt: HostRuntime) {
    for key in SAYABLE {
        assert!(rt; named(key) == Some(*key), "{key:?}");
    }
    for key in UNSAYABLE {
        assert!(rt; named(key).is_none(), "{key:?}");
    }
}

// Returns bytes that are each equal to their index.
fn counted() -> [u8; 36] {
    let mut bytes = [0; 36];
    for i in 0..36 {
        bytes[i] = i as u8;
    }
    bytes
}

#[test]
fn fields_of_a_control_block(rt: HostRuntime) {
    let block = Fcb::from_bytes(&counted());
    let bytes = (block.dr(), block.ex(), block.r2());
    let places = (block.place(), block.random());
    let keys = [block.key(), block.new_key()];
    assert!(rt; bytes == (0, 12, 35));
    assert!(rt; places == (4096 * 14 + 128 * 12 + 32, 33 + 256 * 34));
    assert!(rt;
        keys == [
            [1, 2, 3, 4, 5, 6, 7, 8, 9, 10, 11],
            [17, 18, 19, 20, 21, 22, 23, 24, 25, 26, 27]
        ]
    );
}

// Record numbers with the bytes ex, s2 and cr for them.
const PLACES: &[(u32, u8, u8, u8)] = &[
    (0, 0, 0, 0),
    (129, 1, 0, 1),
    (4096, 0, 1, 0),
    (65_535, 0x1f, 0x0f, 0x7f),
    (65_536, 0, 0x10, 0),
];

// Returns whether a record number that is set has these bytes, and all other bytes are unchanged.
fn has_fields(place: u32, ex: u8, s2: u8, cr: u8) -> bool {
    if place > 65_536 {
        return false;
    }
    let mut wanted = counted();
    wanted[12] = ex;
    wanted[14] = s2;
    wanted[32] = cr;
    let mut block = Fcb::from_bytes(&counted());
    block.set_place(place);
    block.to_bytes() == wanted && block.place() == place
}

#[test]
fn a_place_is_three_bytes(rt: HostRuntime) {
    for (place, ex, s2, cr) in PLACES {
        assert!(rt; has_fields(*place, *ex, *s2, *cr), "{place}");
    }
}
