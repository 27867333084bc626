// Bytes of a reader into a buffer of a fixed length.
#![tactic(auto)]

ghost use Rattle.std.specs.Prelude.{◌≡◌, ◌+◌, ◌<◌, ◌≤◌, length, take, drop, IfOk};
ghost use Rattle.std.specs.Io.KnownBytes.{Consumes, IsAtEnd};

use std::io;
use std::io::Read;

// One read, into the buffer from a place on. Answers how many bytes came.
fn read_at<R: Read>(reader: &mut R, buf: &mut [u8], at: usize) -> io::Result<usize>
    requires { at < length buf.old }
    ensures front { take at buf.new ≡ take at buf.old }
    ensures within { IfOk result (λ n. at + n ≤ length buf.new) }
    ensures bytes { IfOk result (λ n. Consumes (R.remaining reader.old) (R.remaining reader.new) (take n (drop at buf.new))) }
    ensures end { IfOk result (λ n. n ≡ 0 → IsAtEnd (R.remaining reader.new)) }
{
    reader.read(&mut buf[at..])
}

// Reads until the buffer is full or the reader ends. Answers how many bytes came: they stand at the buffer's start, one after the other.
// What stands behind them, and what a failed read left, is not said.
pub fn read_full<R: Read>(reader: &mut R, buf: &mut [u8]) -> io::Result<usize>
    ensures within { IfOk result (λ n. n ≤ length buf.new) }
    ensures bytes { IfOk result (λ n. Consumes (R.remaining reader.old) (R.remaining reader.new) (take n buf.new)) }
    ensures end { IfOk result (λ n. n < length buf.new → IsAtEnd (R.remaining reader.new)) }
{
    let mut at = 0;
    // A loop by hand: each step is as long as the read that came, so no range or iterator counts it.
    while at < buf.len() {
        let n = read_at(reader, buf, at)?;
        if n == 0 {
            return Ok(at);
        }
        at += n;
    }
    Ok(at)
}

#[cfg(test)]
mod tests {
    use super::*;
    use std::io::ErrorKind;
    use std::test::Fail;

    #[test]
    fn full_before_the_end(rt: HostRuntime) -> Result<(), Fail> {
        let mut reader: &[u8] = b"abcde";
        let mut buf = [0u8; 3];
        let n = read_full(&mut reader, &mut buf)?;
        assert_eq!(rt; n, 3);
        assert_eq!(rt; buf.as_slice(), b"abc".as_slice());
        assert_eq!(rt; reader, b"de".as_slice());
        Ok(())
    }

    #[test]
    fn the_end_before_it_is_full(rt: HostRuntime) -> Result<(), Fail> {
        let mut reader: &[u8] = b"abcde";
        let mut buf = [0u8; 8];
        let n = read_full(&mut reader, &mut buf)?;
        assert_eq!(rt; n, 5);
        assert_eq!(rt; buf.as_slice(), b"abcde\0\0\0".as_slice());
        Ok(())
    }

    // Gives one byte at a call, so often, and then an error.
    #[derive(Drop)]
    struct Failing {
        calls: u8,
    }

    impl Read for Failing {
        fn read(&mut self, buf: &mut [u8]) -> io::Result<usize> {
            if self.calls == 0 || buf.is_empty() {
                return Err(io::Error::from(ErrorKind::BrokenPipe));
            }
            self.calls -= 1;
            buf[0] = b'x';
            Ok(1)
        }
    }

    #[test]
    fn an_error_in_mid_stream(rt: HostRuntime) -> Result<(), Fail> {
        let mut buf = [0u8; 3];
        assert!(rt; read_full(&mut Failing { calls: 2 }, &mut buf).is_err());
        assert_eq!(rt; read_full(&mut Failing { calls: 3 }, &mut buf)?, 3);
        Ok(())
    }
}
