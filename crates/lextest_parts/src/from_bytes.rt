//! Tests over the source that shows the bytes ahead.
use crate::counted::Asked;
use lex_io::{ByteReader, FromBytes};
use std::test::Fail;

/// What is read ahead is shown, and given once: by `give`, or by `next`.
#[test]
fn shows_what_is_read_ahead(rt: HostRuntime) -> Result<(), Fail> {
    let reader = ByteReader::new(rt.alloc(), b"abcde".as_slice())?;
    let mut source = Asked::new(FromBytes::new(reader));
    let first = source.shows(b"") && source.answers(&[Ok(Some(b'a'))]) && source.shows(b"bcde");
    let given = source.gives(2) && source.shows(b"de");
    assert!(rt; first && given && source.answers(&[Ok(Some(b'd'))]) && source.shows(b"e"));
    Ok(())
}

/// It may wait only where the reader is asked.
#[test]
fn waits_where_no_byte_is_ahead(rt: HostRuntime) -> Result<(), Fail> {
    let reader = ByteReader::new(rt.alloc(), b"ab".as_slice())?;
    let mut source = Asked::new(FromBytes::new(reader));
    let first = source.may_wait() && source.answers(&[Ok(Some(b'a'))]);
    let ahead = !source.may_wait() && source.answers(&[Ok(Some(b'b'))]);
    assert!(rt; first && ahead && source.may_wait());
    Ok(())
}
