use std::io;
use std::io::Write;

/// An interface to a writer whose reader may take no bytes for a time, such as a pipe or a
/// terminal.
pub trait NonblockingWriter: Write {
    ghost use Rattle.std.specs.Prelude.{OnErr, OnOk};
    ghost use Rattle.std.specs.Io.{WritesAtMost};
    ghost use Rattle.std.specs.Io.KnownBytes.{Appends, Keeps, WriteAppends};

    /// Writes the first bytes of `buf`, as many as the reader takes now, without waiting.
    ///
    /// Returns the number of written bytes, which is 0 if the reader takes none.
    ///
    /// # Errors
    ///
    /// - the `io::Error` of the failed write.
    fn try_write(&mut self, buf: &[u8]) -> io::Result<usize>
        ensures bound { WritesAtMost result buf.now }
        ensures bytes { WriteAppends (Self.contents self.old) (Self.contents self.new) result
            buf.now };

    /// Stores bytes without waiting, and writes them later, before all bytes that follow.
    ///
    /// Until the next write or flush, `try_write` returns 0. This write or flush first writes the
    /// stored bytes, and waits for the reader.
    ///
    /// # Errors
    ///
    /// - an `io::Error`: the bytes can't be stored. None of them will be written.
    fn spool_bytes(&mut self, buf: &[u8]) -> io::Result<()>
        ensures ok { OnOk result (Appends (Self.contents self.old) (Self.contents self.new)
            buf.now) }
        ensures err { OnErr result (Keeps (Self.contents self.old) (Self.contents self.new)) };
}
