//! Sources and sinks of bytes.
ghost use Rattle.std.specs.Prelude.{◌≡◌, ◌<◌, true, length, IfOk, OnOk, OnErr};
ghost use Rattle.std.specs.Io.{ReadsAtMost, WritesAtMost};
ghost use Rattle.std.specs.Io.KnownBytes.{ReadConsumes, WriteAppends};
ghost use Rattle.rcu_text.specs.Streams.{Incoming, Outgoing};

/// A read or a write failed. It moved no byte.
#[derive(Clone, Copy, Debug, PartialEq, Eq)]
pub struct Failed;

/// A source of bytes, which remembers whether a read failed.
pub trait Source {
    /// The bytes that further reads return, if they are known, and whether a read failed.
    ghost incoming: { Self → Incoming };

    /// Returns whether a read failed.
    fn has_failed(&self) -> bool
        ensures { result ≡ (incoming self.now).failed };

    /// Puts the next bytes at the front of the buffer, and returns how many: 0 only at the end of
    /// the input, or if the buffer is empty. At `Failed` no byte was read.
    fn read(&mut self, buf: &mut [u8]) -> Result<usize, Failed>
        ensures bound { ReadsAtMost result buf.new }
        ensures bytes { ReadConsumes (incoming self.old).remaining (incoming self.new).remaining
            result buf.new }
        ensures sound { OnOk result ((incoming self.new).failed ≡ (incoming self.old).failed) }
        ensures failed { OnErr result ((incoming self.new).failed ≡ true) };
}

/// A sink of bytes, which remembers whether a write failed.
pub trait Sink {
    /// The bytes that it took, if they are known, and whether a write failed.
    ghost outgoing: { Self → Outgoing };

    /// Returns whether a write failed.
    fn has_failed(&self) -> bool
        ensures { result ≡ (outgoing self.now).failed };

    /// Takes a prefix of the bytes, at least one if there is one, and returns how many. At `Failed`
    /// it took none.
    fn write(&mut self, bytes: &[u8]) -> Result<usize, Failed>
        ensures bound { WritesAtMost result bytes.now }
        ensures some { 0 < length bytes.now → IfOk result (λ n. 0 < n) }
        ensures bytes { WriteAppends (outgoing self.old).taken (outgoing self.new).taken
            result bytes.now }
        ensures sound { OnOk result ((outgoing self.new).failed ≡ (outgoing self.old).failed) }
        ensures failed { OnErr result ((outgoing self.new).failed ≡ true) };
}
