// Text on its way out. It is collected and written 16,384 bytes at a time, and what is left at a flush. After a write that failed what was
// collected is given up: std's `BufWriter` would write it once more when it is dropped.
use std::io;
use std::io::Write;

// What is collected stands before `used`.
#[derive(Drop)]
pub struct Output<W> {
    to: W,
    bytes: [u8; 16384],
    used: usize,
}

impl<W: Write> Output<W> {
    // Nothing is collected yet.
    pub fn new(to: W) -> Output<W> {
        Output {
            to,
            bytes: [0; 16384],
            used: 0,
        }
    }

    // One byte. A full buffer is written first.
    fn put(&mut self, byte: u8) -> io::Result<()> {
        if self.used < self.bytes.len() {
            self.bytes[self.used] = byte;
            self.used += 1;
            return Ok(());
        }
        self.flush()?;
        self.bytes[0] = byte;
        self.used = 1;
        Ok(())
    }
}

impl<W: Write> Write for Output<W> {
    fn write(&mut self, buf: &[u8]) -> io::Result<usize> {
        self.write_all(buf)?;
        Ok(buf.len())
    }

    // In one piece where there is room for it. Inlined for that case, which nearly every piece is.
    #[inline(always)]
    fn write_all(&mut self, buf: &[u8]) -> io::Result<()> {
        if self.used < self.bytes.len() && buf.len() <= self.bytes.len() - self.used {
            self.bytes[self.used..self.used + buf.len()].copy_from_slice(buf);
            self.used += buf.len();
            return Ok(());
        }
        for byte in buf {
            self.put(*byte)?;
        }
        Ok(())
    }

    fn flush(&mut self) -> io::Result<()> {
        let collected = self.bytes.get(..self.used).unwrap_or_default();
        self.used = 0;
        self.to.write_all(collected)
    }
}
