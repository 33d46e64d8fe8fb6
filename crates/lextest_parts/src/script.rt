//! A reader that replies as it is told.
use std::io::{Error, ErrorKind, Read, Result};

/// What a reader answers to one read.
#[derive(Clone, Copy)]
pub(crate) enum Reply {
    Bytes(&'static [u8]),
    Fault(ErrorKind),
}

/// Gives these answers in turn, and then its end.
#[derive(Drop)]
pub(crate) struct Script<'a> {
    pub(crate) replies: &'a [Reply],
}

impl Read for Script<'_> {
    fn read(&mut self, buf: &mut [u8]) -> Result<usize> {
        let Some((reply, rest)) = self.replies.split_first() else {
            return Ok(0);
        };
        self.replies = rest;
        match *reply {
            Reply::Bytes(mut bytes) => bytes.read(buf),
            Reply::Fault(kind) => Err(Error::from(kind)),
        }
    }
}
