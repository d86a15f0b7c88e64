//! The wire format of Protocol Buffers: a message as a run of fields. It stands on std and on
//! `store_traits` for the bytes of a file. Its main contract is that of `WireReader::next_field`:
//! what comes is the field that the bytes begin with, or the first fault in them.
#![tactic(auto)]

mod cursor;
mod field;
mod laws;
mod message;
mod open_group;
mod open_groups;
mod payload;
mod reader;
mod tag;
mod varint;
mod wire_error;
mod wire_type;
mod writer;
mod writing;

pub use field::Field;
pub use laws::{
    group_holds_fields, one_first_fault, one_first_field, one_reading, shortest_varint,
    written_is_read,
};
pub use message::count_fields;
pub use payload::Payload;
pub use reader::WireReader;
pub use varint::{put_varint, varint_len};
pub use wire_error::WireError;
pub use writer::WireWriter;
