//! A reader that fails at one call, and would go on after it.
use std::io;
use std::io::{Error, ErrorKind, Read};

/// A reader that gives a byte of the text a call. The call of one number fails, and those after it
/// would go on.
#[derive(Drop)]
pub(crate) struct FailsOnce<'a> {
    pub(crate) text: &'a [u8],
    pub(crate) fails_at: usize,
    pub(crate) calls: usize,
}

impl Read for FailsOnce<'_> {
    fn read(&mut self, buf: &mut [u8]) -> io::Result<usize> {
        self.calls = self.calls.saturating_add(1);
        if self.calls == self.fails_at {
            return Err(Error::from(ErrorKind::Interrupted));
        }
        match (self.text, buf.first_mut()) {
            ([byte, rest @ ..], Some(first)) => {
                *first = *byte;
                self.text = rest;
                Ok(1)
            }
            _ => Ok(0),
        }
    }
}
