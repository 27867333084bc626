// EOF and CLOSE (docs/RULES.md): a mark while the channel has an entry, and otherwise the message. A CLOSE that goes out also ends the
// channel here: its place is zero and free.
#![tactic(auto)]

ghost use Rattle.std.specs.Prelude.{◌≡◌};
ghost use Rattle.channel.specs.Call.{act, eof, close};
ghost use Rattle.channel.specs.Called.{called, lent, outcome};
ghost use Rattle.channel.specs.Answers.{acted};
ghost use Rattle.ending.specs.Ways.{WayOf};

use channel::{ChannelId, PeerNumber, Refusal, Table};
use frames::{put_close, put_eof};
use lookup::free;
use soundness::see;

// What is to be done for a confirmed record: it is marked, or the message goes out to the peer's channel.
#[derive(Clone, Copy)]
enum Way {
    Mark(usize),
    Send(usize, PeerNumber),
}

// The same for both calls: either message takes 9 bytes of staged, and a mark takes none.
fn way_of(t: &Table, queue: &[u8], staged: &[u8], sent: &[u8], n: ChannelId) -> Result<Way, Refusal>
    ensures { WayOf (lent t.now queue.now staged.now sent.now) n.0 result }
{
    let found = see(t, queue, staged, sent, n)?;
    let record = &t.records[found.place];
    if !record.confirmed {
        return Err(Refusal::Unconfirmed);
    }
    if found.waits {
        return Ok(Way::Mark(found.place));
    }
    let rest = staged.len() - t.staged_used;
    if rest < 9 {
        return Err(Refusal::Room);
    }
    Ok(Way::Send(found.place, record.recipient_channel))
}

// No more data will come on the channel.
pub fn eof(
    t: &mut Table,
    queue: &[u8],
    staged: &mut [u8],
    sent: &[u8],
    n: ChannelId,
) -> Result<(), Refusal>
    ensures { outcome (acted result) t.new queue.now staged.new sent.now
        ≡ called (lent t.old queue.now staged.old sent.now) (act (eof n.0)) }
{
    match way_of(t, queue, staged, sent, n)? {
        Way::Mark(place) => t.records[place].pending_eof = true,
        Way::Send(_, peer) => {
            put_eof(staged, t.staged_used, peer);
            t.staged_used += 9;
        }
    }
    Ok(())
}

// The channel is closed at this end.
pub fn close(
    t: &mut Table,
    queue: &[u8],
    staged: &mut [u8],
    sent: &[u8],
    n: ChannelId,
) -> Result<(), Refusal>
    ensures { outcome (acted result) t.new queue.now staged.new sent.now
        ≡ called (lent t.old queue.now staged.old sent.now) (act (close n.0)) }
{
    match way_of(t, queue, staged, sent, n)? {
        Way::Mark(place) => t.records[place].pending_close = true,
        Way::Send(place, peer) => {
            put_close(staged, t.staged_used, peer);
            t.staged_used += 9;
            free(t, place);
        }
    }
    Ok(())
}
