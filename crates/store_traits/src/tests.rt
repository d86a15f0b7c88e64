//! Each trait is met by a small type and called through its bound, and the types that threads share may cross.
ghost use Rattle.std.specs.Prelude.{◌≡◌, ◌+◌, ◌-◌, ◌^◌, ◌<◌, IfOk, IsTrue};

mod percent;

use crate::{
    Applied, CallId, ClientId, Codec, Decoded, Failed, FileBytes, Given, Handler, NodeId,
    PlainWord, ReadError, Step, Transform, UpdateError, Word,
};
use percent::{Fixed, OneByte, Percent, Raise};
use std::alloc::{AllocError, Global};
use std::test::Fail;

/// Writes the value, reads it back and compares. That it is the same follows from the laws.
fn is_read_back<C: Codec>(alloc: Global, codec: &C, value: &C::Value) -> Result<bool, AllocError>
    ensures { IfOk result (λ same. IsTrue same) }
{
    codec.known(value);
    let bytes = codec.encode(alloc, value)?;
    match codec.decode(alloc, bytes.as_slice())? {
        Decoded::Good(read) => Ok(codec.equal(&read, value)),
        Decoded::Corrupt => Ok(false),
    }
}

/// The value after the transform twice, or the code of the first refusal.
fn applied_twice<T: Transform>(
    alloc: Global,
    transform: &T,
    value: &T::Value,
) -> Result<Applied<T::Value>, AllocError> {
    match transform.apply(alloc, value)? {
        Applied::Changed(once) => transform.apply(alloc, &once),
        Applied::Refused(code) => Ok(Applied::Refused(code)),
    }
}

fn is_handled<H: Handler>(alloc: Global, handler: &H) -> Result<bool, AllocError> {
    Ok(handler.replacement(alloc)?.is_some() == handler.has_value())
}

#[test]
fn a_codec_reads_back_what_it_writes(rt: HostRuntime) -> Result<(), Fail> {
    let alloc = rt.alloc();
    for value in [0u8, 7, 100] {
        let value = Percent::new(value);
        assert!(rt; is_read_back(alloc, &OneByte, &value)?);
        assert_eq!(rt; OneByte.encoded_len(&OneByte.copy(alloc, &value)?), 1);
    }
    assert!(rt; matches!(OneByte.decode(alloc, &[101])?, Decoded::Corrupt));
    assert!(rt; OneByte.equal(&OneByte.default_value(alloc)?, &Percent::new(0)));
    Ok(())
}

#[test]
fn a_transform_changes_or_refuses(rt: HostRuntime) -> Result<(), Fail> {
    let alloc = rt.alloc();
    let twice = applied_twice(alloc, &Raise { by: 40 }, &Percent::new(20))?;
    assert!(rt; matches!(twice, Applied::Changed(value) if value.get() == 100));
    let refused = applied_twice(alloc, &Raise { by: 40 }, &Percent::new(21))?;
    assert!(rt; matches!(refused, Applied::Refused(2)));
    assert_eq!(rt; Raise { by: 40 }.weight(), 40);
    Ok(())
}

#[test]
fn a_handler_has_its_value(rt: HostRuntime) -> Result<(), Fail> {
    for value in [None, Some(3)] {
        assert!(rt; is_handled(rt.alloc(), &Fixed { value })?);
    }
    Ok(())
}

/// The number after two raises.
fn raised_twice<W: Word>(word: &mut W) -> u64
    requires ready { W.ready (W.made word.old) }
    requires low { W.number word.old + 1 < 2 ^ 64 - 1 }
    ensures { result ≡ W.number word.old + 2 }
{
    word.raise();
    word.raise();
    word.load()
}

#[test]
fn a_word_is_raised(rt: HostRuntime) {
    assert_eq!(rt; raised_twice(&mut PlainWord::new()), 2);
}

fn crosses_threads<T: Send>() {}

fn is_shared_by_threads<T: Send + Sync>() {}

/// What a call, an answer or the shared state holds may go to another thread.
#[test]
fn the_types_cross_threads() {
    is_shared_by_threads::<(CallId, NodeId, ClientId, Step)>();
    is_shared_by_threads::<(Failed, UpdateError, ReadError)>();
    is_shared_by_threads::<FileBytes>();
    is_shared_by_threads::<Decoded<FileBytes>>();
    is_shared_by_threads::<Applied<FileBytes>>();
    is_shared_by_threads::<Given<FileBytes>>();
    crosses_threads::<PlainWord>();
}
