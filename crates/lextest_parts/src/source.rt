//! Tests over the source that asks a reader.
ghost use Rattle.std.specs.Prelude.{◌≡◌, IfOk, slice_get};

use crate::counted::{Answer, Asked};
use crate::script::{Reply, Script};
use lex_io::{FromRead, ReadFault, Source};
use std::io::ErrorKind;

const REPLIES: &[Reply] = &[
    Reply::Bytes(b"a"),
    Reply::Fault(ErrorKind::Interrupted),
    Reply::Bytes(b"b"),
    Reply::Bytes(b""),
    Reply::Bytes(b"c"),
];

const WANTS: &[Answer] = &[
    Ok(Some(97)),
    Err(ReadFault),
    Ok(Some(98)),
    Ok(None),
    Ok(Some(99)),
];

#[test]
fn asks_the_reader_once_a_call(rt: HostRuntime) {
    let mut source = Asked::new(FromRead::new(Script { replies: REPLIES }));
    assert!(rt; source.answers(WANTS));
}

/// Over a slice, whose bytes are known, the byte that is given is the first.
fn first_of(bytes: &[u8]) -> Result<Option<u8>, ReadFault>
    ensures { IfOk result (λ first. first ≡ slice_get bytes.now 0) }
{
    FromRead::new(bytes).next()
}

#[test]
fn gives_the_bytes_of_a_slice(rt: HostRuntime) {
    assert!(rt; first_of(b"ab") == Ok(Some(97)));
    assert!(rt; first_of(b"") == Ok(None));
}
