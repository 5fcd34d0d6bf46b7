use std::io;
use std::io::{ErrorKind, Read};

/// A `Read` that never reaches the end of its data. After `remaining_reads` reads, all later reads
/// fail.
#[derive(Drop)]
pub struct EndlessReader {
    /// The maximum number of bytes that a read returns.
    pub max_read_bytes: usize,
    /// The number of reads that succeed from now on, before the first that fails.
    pub remaining_reads: u64,
    /// `true` if reads fail with `Interrupted`, `false` if they fail with `Other`.
    pub is_interrupted: bool,
    /// The total number of bytes that the reads so far returned.
    pub returned_bytes: usize,
    /// The number of reads so far that failed.
    pub failed_reads: u64,
}

impl Read for EndlessReader {
    fn read(&mut self, buffer: &mut [u8]) -> io::Result<usize> {
        if self.remaining_reads == 0 {
            self.failed_reads = self.failed_reads.saturating_add(1);
            let kind = if self.is_interrupted {
                ErrorKind::Interrupted
            } else {
                ErrorKind::Other
            };
            return Err(io::Error::from(kind));
        }
        self.remaining_reads -= 1;
        let count = self.max_read_bytes.min(buffer.len());
        self.returned_bytes = self.returned_bytes.saturating_add(count);
        Ok(count)
    }
}
