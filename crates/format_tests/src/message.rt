//! Settings as bytes: what other writers spell, what no map reads from, and the one text of each kind of value.
use crate::rows::{bytes_of, map_of};
use crate::wire::fault_words;
use prefs_proto::{DecodeError, PrefsCodec};
use std::alloc::{AllocError, Global};
use store_traits::{Codec, Decoded};

/// The name of a refusal with its place or its key.
fn refusal_words(alloc: Global, error: &DecodeError) -> Result<String, AllocError> {
    match error {
        DecodeError::Wire(e) => fault_words(alloc, *e),
        DecodeError::NotUtf8 { place } => format!(in alloc; "NotUtf8 {place}"),
        DecodeError::KeyTooLong { place } => format!(in alloc; "KeyTooLong {place}"),
        DecodeError::ValueNotSet { key } => format!(in alloc; "ValueNotSet {}", key.as_str()),
        DecodeError::NoMemory => String::from_str(alloc, "NoMemory"),
    }
}

/// What is answered of bytes: a refusal, or `read`.
fn answer_of(alloc: Global, bytes: &[u8]) -> Result<String, AllocError> {
    match PrefsCodec.decode_detail(alloc, bytes) {
        Ok(_) => String::from_str(alloc, "read"),
        Err(e) => refusal_words(alloc, &e),
    }
}

fn is_answered(alloc: Global, bytes: &[u8], told: &str) -> Option<bool> {
    Some(answer_of(alloc, bytes).ok()?.as_str() == told)
}

/// Whether the bytes read as the map with this text.
fn reads_as(alloc: Global, bytes: &[u8], text: &[u8]) -> Option<bool> {
    let map = PrefsCodec.decode_detail(alloc, bytes).ok()?;
    Some(PrefsCodec.encode(alloc, &map).ok()?.as_slice() == text)
}

fn holds(alloc: Global, row: &str) -> Option<bool> {
    let (bytes, told) = row.split_once('|')?;
    let bytes = bytes_of(alloc, bytes)?;
    match told.strip_prefix("map ") {
        Some(text) => reads_as(alloc, &bytes, &bytes_of(alloc, text)?),
        None => is_answered(alloc, &bytes, told),
    }
}

/// Bytes, and the text of the map that they read as or their refusal.
const ROWS: [&str; 46] = [
    // The key twice, an unknown group, and varints that are longer than they need be.
    "0a070a0161120218012b08012c0a88000a01611203188200|map 0a070a016112021802",
    // The last entry of a key counts, also where the one before it has no value.
    "0a070a0161120248010a070a016112021802|map 0a070a016112021802",
    // No key is the empty key, and the last key counts.
    "0a0412021805|map 0a060a0012021805",
    "0a0a0a01620a016112021801|map 0a070a016112021801",
    // The value before the key, in two parts; the last member counts.
    "0a0b120218050a016b12020807|map 0a070a016b12020801",
    // Entries in any order are written by their bytes, and not by their lengths.
    "0a070a0162120218010a080a02616112021802|map 0a080a026161120218020a070a016212021801",
    // A known number with another wire type is an unknown field.
    "0801|map ",
    "0a06080512021805|map 0a060a0012021805",
    "0a0a0a016112051d01000000|ValueNotSet a",
    // Of an int the low 32 bits count, and every varint but 0 is true.
    "0a0b0a01611206188180808010|map 0a070a016112021801",
    "0a080a01611203088001|map 0a070a016112020801",
    "0a080a01611203088000|map 0a070a016112020800",
    // String sets are joined, over the parts of a value and past unknown fields. Equal texts count once.
    "0a140a016b120f32030a016232030a016132030a0162|map 0a0d0a016b120832060a01610a0162",
    "0a110a016b120532030a0162120532030a0161|map 0a0d0a016b120832060a01610a0162",
    "0a110a016b120c32030a0162480132030a0161|map 0a0d0a016b120832060a01610a0162",
    // Another member parts them, and so does another entry.
    "0a110a016b120c32030a0162180132030a0161|map 0a0a0a016b120532030a0161",
    "0a0a0a016b120532030a01620a0a0a016b120532030a0161|map 0a0a0a016b120532030a0161",
    // Each fault of the wire format, in the file.
    "088080808080808080808000|VarintTooLong 1",
    "8080808010|TagTooLarge 0",
    "00|FieldZero 0",
    "0e|BadWireType 0",
    "0a050a|PastEnd 2",
    "0a|PastEnd 1",
    "0c|LoneEndGroup 0",
    "0b|GroupOpen 0",
    // In an entry, a value and a string set. A message ends before the file does.
    "0a0b8080808080808080808000|VarintTooLong 2",
    "0a010e|BadWireType 2",
    "0a020a056162636465|PastEnd 4",
    "0a0a0a016112058080808010|TagTooLarge 7",
    "0a060a016112010c|LoneEndGroup 7",
    "0a060a016112010b0c|GroupOpen 7",
    "0a080a01611203320100|FieldZero 9",
    "0a090a0161120432020a052a03616263|PastEnd 11",
    // Texts that are not UTF-8: a key, a text, one of a set, and such as later ones replace.
    "0a070a01ff12021801|NotUtf8 4",
    "0a0a0a01ff0a016112021801|NotUtf8 4",
    "0a0a0a016112052a01ff1801|NotUtf8 9",
    "0a0c0a0161120732030a01ff1801|NotUtf8 11",
    "0a080a016112032a01ff0a070a016112021801|NotUtf8 9",
    // The least place of two.
    "0a0812032a01ff0a01ff|NotUtf8 6",
    // Values that are not set: an unknown member, none behind a value, and an empty one behind it.
    "0a070a016112024801|ValueNotSet a",
    "0a070a0161120218010a030a0161|ValueNotSet a",
    "0a070a0161120218010a050a01611200|ValueNotSet a",
    // The least key of two, by bytes.
    "0a030a01620a040a026161|ValueNotSet aa",
    // Of two faults the wire format stands before a text, and both before a value.
    "0a070a01ff1202180100|FieldZero 9",
    "0a030a016100|FieldZero 5",
    "0a030a01610a070a01ff12021801|NotUtf8 9",
];

#[test]
fn answers(rt: HostRuntime) {
    for row in &ROWS {
        assert_eq!(rt; holds(rt.alloc(), row), Some(true), "{row}");
    }
}

fn repeated(alloc: Global, byte: &str, times: &str) -> Option<String> {
    byte.repeat(alloc, times.parse().ok()?).ok()
}

/// The bytes of these digits, joined.
fn long_file(alloc: Global, front: &str, middle: &str, behind: &str) -> Option<Vec<u8>> {
    let digits = format!(in alloc; "{front}{middle}{behind}").ok()?;
    bytes_of(alloc, digits.as_str())
}

fn long_file_is_answered(alloc: Global, row: &str) -> Option<bool> {
    let parts: Vec<&str> = row.split('|').collect(alloc).ok()?;
    let [front, byte, times, behind, told] = parts.as_slice() else {
        return None;
    };
    let middle = repeated(alloc, byte, times)?;
    is_answered(
        alloc,
        &long_file(alloc, front, middle.as_str(), behind)?,
        told,
    )
}

/// Long keys and deep groups: the front of a file, a byte, how often it comes, what is behind, and what is answered.
const LONG: [&str; 10] = [
    // A key of 1,024 bytes, and one that is longer. The place is that of the entry.
    "2b08012c0a87080a8008|6b|1024|12021801|read",
    "2b08012c0a88080a8108|6b|1025|12021801|KeyTooLong 4",
    // Only the last key of an entry counts.
    "2b08012c0a8b080a01610a8108|6b|1025|12021801|KeyTooLong 4",
    "2b08012c0a8b080a8108|6b|1025|0a016112021801|read",
    // A long key stands before a value that is not set, and behind a text and the wire format.
    "0a030a01610a88080a8108|6b|1025|12021801|KeyTooLong 5",
    "0a88080a8108|6b|1025|120218010a070a01ff12021801|NotUtf8 1039",
    "0a88080a8108|6b|1025|1202180100|FieldZero 1035",
    // Groups: at most a hundred are open, in a message of its own too.
    "|0b|101||TooDeep 100",
    "0a6c0a016112673265|0b|101||TooDeep 109",
    "0a6b0a016112663264|0b|100||GroupOpen 108",
];

#[test]
fn long_files(rt: HostRuntime) {
    for row in &LONG {
        assert_eq!(rt; long_file_is_answered(rt.alloc(), row), Some(true), "{row}");
    }
}

/// Whether the text is that of the value, is as long as is counted, and reads back as it.
fn has_text<C: Codec>(codec: &C, alloc: Global, value: &C::Value, text: &[u8]) -> Option<bool> {
    let is_same = codec.encode(alloc, value).ok()?.as_slice() == text;
    let is_counted = codec.encoded_len(value) == text.len() as u64;
    match codec.decode(alloc, text).ok()? {
        Decoded::Good(read) => Some(is_same && is_counted && codec.equal(&read, value)),
        Decoded::Corrupt => Some(false),
    }
}

fn is_written(alloc: Global, pair: &str, text: &str) -> Option<bool> {
    let map = map_of(alloc, &[pair])?;
    has_text(&PrefsCodec, alloc, &map, &bytes_of(alloc, text)?)
}

/// A key with its value, and the text of the map that has them alone.
const KINDS: [(&str, &str); 9] = [
    ("volume|int 5", "0a0c0a06766f6c756d6512021805"),
    ("m|int -1", "0a100a016d120b18ffffffffffffffffff01"),
    ("f|float 7fc00001", "0a0a0a01661205150100c07f"),
    (
        "m|long -9223372036854775808",
        "0a100a016d120b2080808080808080808001",
    ),
    (
        "d|double 0000000000000001",
        "0a0e0a01641209390100000000000000",
    ),
    ("t|bool true", "0a070a017412020801"),
    (r#"s|text "hi""#, "0a090a017312042a026869"),
    ("e|texts []", "0a070a016512023200"),
    (
        r#"e|texts ["b", "", "aa"]"#,
        "0a100a0165120b32090a000a0261610a0162",
    ),
];

#[test]
fn kinds(rt: HostRuntime) {
    for (pair, text) in &KINDS {
        assert_eq!(rt; is_written(rt.alloc(), pair, text), Some(true), "{pair}");
    }
}

fn no_settings_have_no_bytes<C: Codec>(codec: &C, alloc: Global) -> Option<bool> {
    let none = codec.default_value(alloc).ok()?;
    let copy = codec.copy(alloc, &none).ok()?;
    has_text(codec, alloc, &copy, b"")
}

/// An absent file is the empty map, which has no bytes.
#[test]
fn no_settings(rt: HostRuntime) {
    assert_eq!(rt;
        no_settings_have_no_bytes(&PrefsCodec, rt.alloc()),
        Some(true)
    );
}

fn is_shared_by_threads<T: Send + Sync>() {}

#[test]
fn the_codec_crosses_threads() {
    is_shared_by_threads::<PrefsCodec>();
}
