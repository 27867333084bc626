// Staged flush (docs/RULES.md): whole frames move from the front of staged to sent; and drain, after which sent is empty.
#![tactic(auto)]

ghost use Rattle.std.specs.Prelude.{◌≡◌, ◌+◌, ◌≤◌, length, take};
ghost use Rattle.octets.specs.Buf.{write, closed};
ghost use Rattle.channel.specs.Call.{flush_staged, drain};
ghost use Rattle.channel.specs.Answers.{moved, acted};
ghost use Rattle.channel.specs.Called.{called, lent, outcome};

use channel::{Moved, Refusal, Table};
use frames::front_run;
use octets::{close_gap, copy_in, put_zeros};
use soundness::test;

// The first n bytes of staged's used part to sent, at its used part's end; staged is closed up and its freed tail zeroed.
fn move_out(staged: &mut [u8], used: usize, n: usize, sent: &mut [u8], at: usize)
    requires { (used ≤ length staged.old) × (n ≤ used) × (at + n ≤ length sent.old) }
    ensures staged_after { staged.new ≡ closed used 0 n staged.old }
    ensures sent_after { sent.new ≡ write at (take n staged.old) sent.old }
{
    copy_in(sent, at, &staged[..n]);
    close_gap(staged, used, 0, n);
}

// The longest front run of whole frames that fits sent moves there. During rekey it is held.
pub fn flush(
    t: &mut Table,
    queue: &[u8],
    staged: &mut [u8],
    sent: &mut [u8],
    rekey: bool,
) -> Result<Moved, Refusal>
    ensures { outcome (moved result) t.new queue.now staged.new sent.new
        ≡ called (lent t.old queue.now staged.old sent.old) (flush_staged rekey) }
{
    test(t, queue, staged, sent)?;
    if rekey {
        return Ok(Moved::Held);
    }
    let room = sent.len() - t.sent_used;
    let run = front_run(staged, t.staged_used, room);
    move_out(staged, t.staged_used, run.bytes, sent, t.sent_used);
    t.staged_used -= run.bytes;
    t.sent_used += run.bytes;
    Ok(Moved::Run(run.frames, run.bytes))
}

// Sent is emptied, its used part zeroed.
pub fn drain(t: &mut Table, queue: &[u8], staged: &[u8], sent: &mut [u8]) -> Result<(), Refusal>
    ensures { outcome (acted result) t.new queue.now staged.now sent.new
        ≡ called (lent t.old queue.now staged.now sent.old) drain }
{
    test(t, queue, staged, sent)?;
    put_zeros(sent, 0, t.sent_used);
    t.sent_used = 0;
    Ok(())
}
