//! Devices in memory and real ones: what arrives, in which pieces, and what a failure leaves.
ghost use Rattle.std.specs.Prelude.{◌<◌, ◌^◌};

mod fakes;

use crate::{
    MemSink, MemSource, NeverFails, ReadAllError, Sink, Source, StdSink, StdSource, read_all,
    write_all,
};
use fakes::{Halting, Stubborn};
use std::alloc::{AllocError, Global};
use std::test::Fail;
use std::{fs, io};
use store_traits::{Failed, FileBytes};

fn bytes_of(alloc: Global, text: &str) -> Result<FileBytes, AllocError> {
    Ok(FileBytes::new(text.as_bytes().to_vec(alloc)?))
}

/// The bytes that a source gives up to the limit, as a text.
fn text_of<S: Source>(alloc: Global, mut source: S, limit: u64) -> Result<String, ReadAllError>
    requires { limit < 2 ^ 63 }
{
    let bytes = read_all(alloc, &mut source, limit)?;
    match std::str::from_utf8(bytes.as_slice()) {
        Ok(text) => String::from_str(alloc, text).map_err(|_| ReadAllError::NoMemory),
        Err(_) => Err(ReadAllError::ReadFault),
    }
}

#[test]
fn all_is_read_within_the_limit(rt: HostRuntime) -> Result<(), Fail> {
    let alloc = rt.alloc();
    for (text, limit, is_read) in [
        ("", 0, true),
        ("abc", 3, true),
        ("abc", 2, false),
        ("abc", 0, false),
    ] {
        let read = text_of(alloc, NeverFails::new(bytes_of(alloc, text)?), limit);
        match read {
            Ok(read) => assert_eq!(rt; (read.as_str(), is_read), (text, true)),
            Err(error) => assert_eq!(rt;
                (error, is_read),
                (ReadAllError::TooLong { limit }, false)
            ),
        }
    }
    Ok(())
}

#[test]
fn a_read_that_fails_is_a_fault(rt: HostRuntime) -> Result<(), Fail> {
    let alloc = rt.alloc();
    // The first read gives the text and the second finds the end.
    for (number, is_fault) in [(1, true), (2, true), (3, false)] {
        let source = MemSource::new(bytes_of(alloc, "abc")?, vec![in alloc; number]?);
        assert_eq!(rt;
            text_of(alloc, source, 10).is_err(),
            is_fault,
            "read {number}"
        );
    }
    Ok(())
}

#[test]
fn a_sink_takes_what_fits(rt: HostRuntime) -> Result<(), Fail> {
    let alloc = rt.alloc();
    let mut sink = MemSink::new(alloc, 5, vec![in alloc; 3]?)?;
    assert!(rt; write_all(&mut sink, b"abc").is_ok());
    assert_eq!(rt; sink.write(b"defg"), Ok(2));
    assert_eq!(rt; sink.write(b"g"), Err(Failed));
    assert!(rt; write_all(&mut sink, b"g").is_err());
    assert!(rt; write_all(&mut sink, b"").is_ok());
    assert_eq!(rt; sink.held(), b"abcde".as_slice());
    Ok(())
}

const FILE: &str = "byte_io_test_file";

#[test]
fn a_real_file_is_written_and_read(rt: HostRuntime) -> Result<(), Fail> {
    let alloc = rt.alloc();
    let mut sink = StdSink::new(fs::create(&rt, FILE)?);
    assert!(rt; write_all(&mut sink, b"settings").is_ok());
    drop(sink);
    let read = text_of(alloc, StdSource::new(fs::open(&rt, FILE)?), 100)?;
    fs::remove_file(&rt, FILE)?;
    assert_eq!(rt; read.as_str(), "settings");
    Ok(())
}

#[test]
fn a_reader_that_halts_is_a_fault(rt: HostRuntime) -> Result<(), Fail> {
    // It is interrupted, gives two bytes, and then fails or ends.
    for (is_broken, outcome) in [(true, Err(ReadAllError::ReadFault)), (false, Ok(2))] {
        let read = read_all(
            rt.alloc(),
            &mut StdSource::new(Halting::new(is_broken)),
            100,
        );
        assert_eq!(rt; read.map(|bytes| bytes.as_slice().len()), outcome);
    }
    Ok(())
}

#[test]
fn a_writer_that_takes_nothing_is_a_fault(rt: HostRuntime) {
    assert_eq!(rt; StdSink::new(Stubborn).write(b"a"), Err(Failed));
    assert_eq!(rt; StdSink::new(Stubborn).write(b""), Ok(0));
}

fn crosses_threads<T: Send>() {}

#[test]
fn the_devices_in_memory_cross_threads() {
    crosses_threads::<(MemSource, NeverFails, MemSink)>();
}
