// A table over three buffers, on which calls are made.
ghost use Rattle.std.specs.Prelude.{◌<◌, ◌≤◌, length, IfSome};
ghost use Rattle.player.specs.Lengths.{SameLengths};

use crate::lent::{Played, first_bytes, play};
use arrayvec::ArrayVec;
use channel::Table;

// The longest buffer: a byte more than a sound state allows.
pub(crate) const LONGEST: usize = 65537;

// The state that a script's calls are made on.
#[derive(Drop)]
pub struct Lab {
    pub table: Table,
    pub queue: ArrayVec<u8, LONGEST>,
    pub staged: ArrayVec<u8, LONGEST>,
    pub sent: ArrayVec<u8, LONGEST>,
}

// An empty buffer gets n bytes, as `fill` leaves them. There is room: n is at most `LONGEST`.
fn append(buf: &mut ArrayVec<u8, LONGEST>, n: usize) {
    let bytes = first_bytes();
    for _ in 0..n / 251 {
        let _ = buf.try_extend_from_slice(&bytes);
    }
    let _ = buf.try_extend_from_slice(&bytes[..n % 251]);
}

impl Lab {
    // The empty table over buffers of no bytes. `begin` is a step of its own: in one the buffers took their room on the stack twice.
    pub(crate) fn new() -> Lab {
        Lab {
            table: Table::new(),
            queue: ArrayVec::new(),
            staged: ArrayVec::new(),
            sent: ArrayVec::new(),
        }
    }

    // The buffers get their first bytes, of these lengths: queue, staged and sent.
    pub(crate) fn begin(&mut self, lengths: [usize; 3]) {
        let [queue, staged, sent] = lengths;
        append(&mut self.queue, queue);
        append(&mut self.staged, staged);
        append(&mut self.sent, sent);
    }

    // Makes the first call of what is left of a script, if there is one. The buffers keep their lengths.
    pub fn play(&mut self, rest: &[u8]) -> Option<Played>
        ensures taken { IfSome result (λ p. (0 < p.size) × (p.size ≤ length rest.now)) }
        ensures lengths { SameLengths self.old self.new }
    {
        let queue = self.queue.as_mut_slice();
        let staged = self.staged.as_mut_slice();
        let sent = self.sent.as_mut_slice();
        play(rest, &mut self.table, queue, staged, sent)
    }
}

#[cfg(test)]
mod tests {
    use super::*;
    use crate::lent::fill;
    use std::test::Fail;

    #[test]
    fn begins_as_filled(rt: HostRuntime) -> Result<(), Fail> {
        let (mut queue, mut staged, mut sent) = ([0u8; 250], [0u8; 252], [0u8; LONGEST]);
        fill(&mut queue);
        fill(&mut staged);
        fill(&mut sent);
        let mut lab = Lab::new();
        lab.begin([250, 252, LONGEST]);
        assert_eq!(rt; lab.queue.as_slice(), queue.as_slice());
        assert_eq!(rt; lab.staged.as_slice(), staged.as_slice());
        assert_eq!(rt; lab.sent.as_slice(), sent.as_slice());
        Ok(())
    }
}
