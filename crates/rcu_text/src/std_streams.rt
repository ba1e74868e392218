//! Readers and writers of std, as sources and sinks.
ghost use Rattle.std.specs.Prelude.{◌≡◌, ◌<◌, ◌≤◌, false, true, IfOk, IsErr, OnErr};

use crate::streams::{Failed, Sink, Source};
use std::io;
use std::io::{Read, Write};
use std::marker::Model;

/// A reader or a writer of std that remembers whether it failed. Every error counts, an interrupted
/// call too, and so does a write that takes none of the bytes.
///
/// Contracts see the stream itself and whether it failed.
#[derive(Drop)]
pub struct Marked<S> {
    stream: S,
    has_failed: bool,
}

impl<S> Model for Marked<S> {
    ghost use Rattle.std.specs.Prelude.{Bool};

    ghost Value = { S × Bool };

    ghost view = { λ m. (m.stream, m.has_failed) };
}

impl<S> Marked<S> {
    /// Returns the stream, which has not failed.
    pub fn new(stream: S) -> Marked<S>
        ensures { result ≡ (stream, false) }
    {
        Marked {
            stream,
            has_failed: false,
        }
    }

    /// Returns the stream.
    pub fn into_inner(self) -> S
        ensures { result ≡ self.0 }
    {
        let Marked {
            stream,
            has_failed: _,
        } = self;
        stream
    }

    /// Judges the answer of the stream to a call that has to move at least this number of bytes: an
    /// error and a smaller count are a failure, which it remembers.
    fn judge(&mut self, answer: io::Result<usize>, least: usize) -> Result<usize, Failed>
        ensures moved { IfOk answer (λ n. least ≤ n → (result ≡ Ok n) × (self.new ≡ self.old)) }
        ensures short { IfOk answer (λ n. n < least
            → IsErr result × (self.new ≡ (self.old.0, true))) }
        ensures failed { OnErr answer (IsErr result × (self.new ≡ (self.old.0, true))) }
    {
        match answer {
            Ok(count) if count >= least => Ok(count),
            _ => {
                self.has_failed = true;
                Err(Failed)
            }
        }
    }
}

impl<S: Read> Source for Marked<S> {
    ghost incoming = { λ m. record { remaining = S.remaining m.0; failed = m.1 } };

    fn has_failed(&self) -> bool {
        self.has_failed
    }

    fn read(&mut self, buf: &mut [u8]) -> Result<usize, Failed> {
        let answer = self.stream.read(buf);
        self.judge(answer, 0)
    }
}

impl<S: Write> Sink for Marked<S> {
    ghost outgoing = { λ m. record { taken = S.contents m.0; failed = m.1 } };

    fn has_failed(&self) -> bool {
        self.has_failed
    }

    fn write(&mut self, bytes: &[u8]) -> Result<usize, Failed> {
        let answer = self.stream.write(bytes);
        self.judge(answer, bytes.len().min(1))
    }
}
