// Bytes in a lent buffer: every store into a lent buffer is one of these. What a contract's `write` leaves is plain from proofs/Laws.antt,
// write_eq: the bytes before, those written, the bytes after. A buffer and a place in it are two arguments, here and above: a slice from
// the place on would hide from a contract what stands before it.

#![tactic(auto)]

ghost use Rattle.std.specs.Prelude.{◌≡◌, ◌∷◌, [], ◌+◌, ◌≤◌, ◌<◌, length, take, drop, replicate};
ghost use Rattle.octets.specs.Buf.{write, be32, de32, closed};

// One byte.
#[tactic(auto, unfolding(crate::specs::Buf::write))]
pub fn put_u8(buf: &mut [u8], at: usize, x: u8)
    requires { at < length buf.old }
    ensures { buf.new ≡ write at (x ∷ []) buf.old }
{
    buf[at] = x;
}

// A number as four bytes, the most significant first.
#[tactic(auto, unfolding(crate::specs::Buf::be32))]
pub fn put_u32(buf: &mut [u8], at: usize, x: u32)
    requires { at + 4 ≤ length buf.old }
    ensures { buf.new ≡ write at (be32 x) buf.old }
{
    copy_in(buf, at, &x.to_be_bytes());
}

// The number of the four bytes at `at`.
pub fn read_u32(buf: &[u8], at: usize) -> u32
    requires { at + 4 ≤ length buf.now }
    ensures { result ≡ de32 buf.now at }
{
    u32::from_be_bytes([buf[at], buf[at + 1], buf[at + 2], buf[at + 3]])
}

// All of src, a byte at a time: with `copy_from_slice` a program for C needs `memmove` besides, and packets of a few bytes take longer.
pub fn copy_in(dst: &mut [u8], at: usize, src: &[u8])
    requires { at + length src.now ≤ length dst.old }
    ensures { dst.new ≡ write at src.now dst.old }
{
    for (i, byte) in src.iter().enumerate() {
        dst[at + i] = *byte;
    }
}

// n zeros. Tried: `fill(0)`, slower, 7.1 against 4.2 ns at 4 to 31 bytes and 5.8 against 3.2 at 64.
pub fn put_zeros(buf: &mut [u8], at: usize, n: usize)
    requires { at + n ≤ length buf.old }
    ensures { buf.new ≡ write at (replicate n 0) buf.old }
{
    buf[at..at + n].fill_with(|| 0);
}

// The n bytes that stand `gap` further on. With no gap they stand there already, and it returns at once.
#[tactic(auto, using(crate::proofs::Laws::write_moved, crate::proofs::Laws::write_same))]
pub fn move_down(buf: &mut [u8], at: usize, gap: usize, n: usize)
    requires { at + gap + n ≤ length buf.old }
    ensures { buf.new ≡ write at (take n (drop (at + gap) buf.old)) buf.old }
{
    if gap > 0 {
        let from = at + gap;
        buf.copy_within(from..from + n, at);
    }
}

// The n bytes at `at` taken out of the used part, what followed them closed up, and the freed tail zeroed.
pub fn close_gap(buf: &mut [u8], used: usize, at: usize, n: usize)
    requires { (used ≤ length buf.old) × (at + n ≤ used) }
    ensures { buf.new ≡ closed used at n buf.old }
{
    let rest = used - at - n;
    move_down(buf, at, n, rest);
    put_zeros(buf, at + rest, n);
}
