//! Outside values of the wire format: what the encoding guide says of these bytes.
use crate::rows::bytes_of;
use std::alloc::{AllocError, Global};
use store_traits::FileBytes;
use wire_codec::{Field, Payload, WireError, WireReader, WireWriter, count_fields};

/// The name of a fault and its place.
pub fn fault_words(alloc: Global, fault: WireError) -> Result<String, AllocError> {
    let (name, place) = match fault {
        WireError::VarintTooLong { place } => ("VarintTooLong", place),
        WireError::TagTooLarge { place } => ("TagTooLarge", place),
        WireError::FieldZero { place } => ("FieldZero", place),
        WireError::BadWireType { place } => ("BadWireType", place),
        WireError::PastEnd { place } => ("PastEnd", place),
        WireError::LoneEndGroup { place } => ("LoneEndGroup", place),
        WireError::GroupOpen { place } => ("GroupOpen", place),
        WireError::TooDeep { place } => ("TooDeep", place),
    };
    format!(in alloc; "{name} {place}")
}

/// Whether this is the first fault of the whole message.
fn is_fault(alloc: Global, message: &[u8], told: &str) -> Option<bool> {
    let fault = count_fields(message, 0).err()?;
    Some(fault_words(alloc, fault).ok()?.as_str() == told)
}

fn has_fault(alloc: Global, row: &str) -> Option<bool> {
    let (message, told) = row.split_once('|')?;
    is_fault(alloc, &bytes_of(alloc, message)?, told)
}

/// Each fault of a whole message, with its place.
const FAULTS: [&str; 19] = [
    // A varint of more than ten bytes, and one that is cut.
    "088080808080808080808000|VarintTooLong 1",
    "0a8080808080808080808000|VarintTooLong 1",
    "08|PastEnd 1",
    "0a|PastEnd 1",
    // A tag of 33 bits; one of 32 has a wire type that is none.
    "8080808010|TagTooLarge 0",
    "ffffffff0f|BadWireType 0",
    "0e|BadWireType 0",
    "00|FieldZero 0",
    "06|FieldZero 0",
    // A payload that passes the end.
    "0a050a|PastEnd 2",
    "0901020304050607|PastEnd 1",
    "0d010203|PastEnd 1",
    // Groups.
    "0c|LoneEndGroup 0",
    "0b14|LoneEndGroup 1",
    "0b130c|LoneEndGroup 2",
    "0b|GroupOpen 0",
    "0b13|GroupOpen 1",
    // Behind whole fields, and in a group.
    "08010b0c00|FieldZero 4",
    "0b08|PastEnd 2",
];

#[test]
fn faults_have_their_places(rt: HostRuntime) {
    for row in &FAULTS {
        assert_eq!(rt; has_fault(rt.alloc(), row), Some(true), "{row}");
    }
    let alloc = rt.alloc();
    assert_eq!(rt; is_fault(alloc, &[128; 10], "VarintTooLong 0"), Some(true));
    assert_eq!(rt; is_fault(alloc, &[128; 9], "PastEnd 0"), Some(true));
    assert_eq!(rt; is_fault(alloc, &[0x0b; 100], "GroupOpen 99"), Some(true));
    assert_eq!(rt; is_fault(alloc, &[0x0b; 101], "TooDeep 100"), Some(true));
}

const LONG_VARINT: [u8; 10] = [0x08, 128, 128, 128, 128, 128, 128, 128, 128, 128];

/// A varint that is cut at every length, in the place of a payload and of a tag.
#[test]
fn cut_varints(rt: HostRuntime) {
    for len in 1..11 {
        let found = count_fields(&LONG_VARINT[..len], 0);
        assert_eq!(rt; found, Err(WireError::PastEnd { place: 1 }), "{len}");
    }
    for len in 2..11 {
        let found = count_fields(&LONG_VARINT[1..len], 7);
        assert_eq!(rt; found, Err(WireError::PastEnd { place: 7 }), "{len}");
    }
}

fn payload_words(alloc: Global, payload: Payload<'_>) -> Result<String, AllocError> {
    match payload {
        Payload::Varint(number) => format!(in alloc; "varint {number}"),
        Payload::Eight(number) => format!(in alloc; "eight {number}"),
        Payload::Four(number) => format!(in alloc; "four {number}"),
        Payload::Bytes(bytes) => hex::encode(alloc, bytes),
        Payload::Group => String::from_str(alloc, "group"),
    }
}

/// The field's number, its place, that of its payload, and the payload.
fn field_words(alloc: Global, field: Field<'_>) -> Result<String, AllocError> {
    let payload = payload_words(alloc, field.payload)?;
    let (number, place) = (field.number, field.place);
    format!(in alloc; "{number} {place} {} {payload}", field.payload_place())
}

/// Whether a message, which begins at place 7, has this one field.
fn is_field(alloc: Global, message: &[u8], told: &str) -> Option<bool> {
    let mut reader = WireReader::new(message, 7);
    let field = reader.next_field().ok()??;
    let is_told = field_words(alloc, field).ok()?.as_str() == told;
    let is_at_end = reader.place() == 7 + message.len() as u64;
    Some(is_told && is_at_end && matches!(reader.next_field(), Ok(None)))
}

fn has_field(alloc: Global, row: &str) -> Option<bool> {
    let (message, told) = row.split_once('|')?;
    is_field(alloc, &bytes_of(alloc, message)?, told)
}

/// What fields read as. Varints may have zeros at their high end, and lose bits past 64.
const FIELDS: [&str; 9] = [
    "089601|1 7 8 varint 150",
    "088000|1 7 8 varint 0",
    "88800002|1 7 10 varint 2",
    "08ffffffffffffffffff7f|1 7 8 varint 18446744073709551615",
    "110100000000000080|2 7 8 eight 9223372036854775809",
    "1a026869|3 7 9 6869",
    "1a82006869|3 7 10 6869",
    "230801131424|4 7 8 group",
    "2d01000080|5 7 8 four 2147483649",
];

#[test]
fn fields_have_their_payloads(rt: HostRuntime) {
    for row in &FIELDS {
        assert_eq!(rt; has_field(rt.alloc(), row), Some(true), "{row}");
    }
}

fn groups() -> [u8; 200] {
    let mut message = [0x0b; 200];
    message[100..].fill(0x0c);
    message
}

/// A hundred groups in each other are one field.
#[test]
fn hundred_groups(rt: HostRuntime) {
    assert_eq!(rt; count_fields(&groups(), 0), Ok(1));
}

/// A file whose first field is a nested message, and behind it are three fields.
const NESTED: [u8; 11] = [0x0a, 3, 0x0a, 5, 255, 0x10, 1, 0x10, 1, 0x10, 1];

fn ends_at_four(reader: &mut WireReader<'_>) -> bool {
    let is_past_end = matches!(reader.next_field(), Err(WireError::PastEnd { place: 4 }));
    is_past_end && reader.place() == 2
}

fn nested_ends_first() -> Option<bool> {
    let entry = WireReader::new(&NESTED, 0).next_field().ok()??;
    let Payload::Bytes(inner) = entry.payload else {
        return None;
    };
    let mut reader = WireReader::new(inner, entry.payload_place());
    Some(ends_at_four(&mut reader) && ends_at_four(&mut reader))
}

/// A length that passes the end of a nested message, and not of the file; the reader repeats its error.
#[test]
fn nested_message_ends_first(rt: HostRuntime) {
    assert_eq!(rt; count_fields(&NESTED, 0), Ok(4));
    assert_eq!(rt; nested_ends_first(), Some(true));
}

fn volume_value(alloc: Global) -> Result<FileBytes, AllocError> {
    let mut value = WireWriter::new(alloc);
    value.varint_field(3, 5)?;
    Ok(value.finish())
}

fn volume_entry(alloc: Global, value: &[u8]) -> Result<FileBytes, AllocError> {
    let mut entry = WireWriter::new(alloc);
    entry.bytes_field(1, b"volume")?;
    entry.bytes_field(2, value)?;
    Ok(entry.finish())
}

fn volume_map(alloc: Global, entry: &[u8]) -> Result<FileBytes, AllocError> {
    let mut map = WireWriter::new(alloc);
    map.bytes_field(1, entry)?;
    Ok(map.finish())
}

fn is_volume(alloc: Global) -> Result<bool, AllocError> {
    let value = volume_value(alloc)?;
    let entry = volume_entry(alloc, value.as_slice())?;
    let map = volume_map(alloc, entry.as_slice())?;
    Ok(map.as_slice() == b"\x0a\x0c\x0a\x06volume\x12\x02\x18\x05".as_slice())
}

fn numbers(alloc: Global) -> Result<FileBytes, AllocError> {
    let mut numbers = WireWriter::new(alloc);
    numbers.varint_field(3, u64::MAX)?;
    numbers.four_field(2, 0x7fc0_0001)?;
    numbers.eight_field(7, 1)?;
    Ok(numbers.finish())
}

const NUMBERS: [u8; 25] = [
    0x18, 255, 255, 255, 255, 255, 255, 255, 255, 255, 1, 0x15, 1, 0, 0xc0, 0x7f, 0x39, 1, 0, 0, 0,
    0, 0, 0, 0,
];

fn are_numbers(alloc: Global) -> Result<bool, AllocError> {
    Ok(numbers(alloc)?.as_slice() == NUMBERS.as_slice())
}

/// `set volume int 5` and a negative number, as the encoding guide spells them.
#[test]
fn written_bytes(rt: HostRuntime) {
    assert_eq!(rt; is_volume(rt.alloc()), Ok(true));
    assert_eq!(rt; are_numbers(rt.alloc()), Ok(true));
}
