// The receive window and the two queries (docs/RULES.md).
#![tactic(auto)]

ghost use Rattle.std.specs.Prelude.{◌≡◌};
ghost use Rattle.channel.specs.Call.{act, adjust, window_of, has_pending};
ghost use Rattle.channel.specs.Decide as D;
ghost use Rattle.channel.specs.Called.{called, lent, outcome};
ghost use Rattle.channel.specs.Answers.{charged, window_size, pending_data};

use channel::{ChannelId, Refusal, Table};
use frames::put_adjust;
use soundness::{look_up, see};

// The window less n bytes that fit it; more than it holds is not charged.
#[tactic(auto, unfolding(channel::specs::Decide::charged))]
fn charge(n: u32, window: u32) -> u32
    ensures { result ≡ D.charged n window }
{
    window.checked_sub(n).unwrap_or(window)
}

// n bytes received on the channel. Below half the target a WINDOW_ADJUST is staged; the answer says whether.
pub fn adjust_window_size(
    t: &mut Table,
    queue: &[u8],
    staged: &mut [u8],
    sent: &[u8],
    number: ChannelId,
    n: u32,
    target: u32,
) -> Result<bool, Refusal>
    ensures { outcome (charged result) t.new queue.now staged.new sent.now
        ≡ called (lent t.old queue.now staged.old sent.now) (act (adjust number.0 n target)) }
{
    let found = see(t, queue, staged, sent, number)?;
    let record = &mut t.records[found.place];
    if !record.confirmed {
        return Err(Refusal::Unconfirmed);
    }
    let window = charge(n, record.sender_window_size);
    if window >= target / 2 {
        record.sender_window_size = window;
        return Ok(false);
    }
    let rest = staged.len() - t.staged_used;
    if rest < 13 {
        return Err(Refusal::Room);
    }
    let peer = record.recipient_channel;
    put_adjust(staged, t.staged_used, peer, target - window);
    t.staged_used += 13;
    record.sender_window_size = target;
    Ok(true)
}

// The receive window, 0 for an unknown number.
pub fn sender_window_size(
    t: &Table,
    queue: &[u8],
    staged: &[u8],
    sent: &[u8],
    number: ChannelId,
) -> Result<u32, Refusal>
    ensures { outcome (window_size result) t.now queue.now staged.now sent.now
        ≡ called (lent t.now queue.now staged.now sent.now) (act (window_of number.0)) }
{
    match look_up(t, queue, staged, sent, number)? {
        Some(found) => Ok(t.records[found.place].sender_window_size),
        None => Ok(0),
    }
}

// Whether the channel has an entry, no for an unknown number.
pub fn has_pending_data(
    t: &Table,
    queue: &[u8],
    staged: &[u8],
    sent: &[u8],
    number: ChannelId,
) -> Result<bool, Refusal>
    ensures { outcome (pending_data result) t.now queue.now staged.now sent.now
        ≡ called (lent t.now queue.now staged.now sent.now) (act (has_pending number.0)) }
{
    let found = look_up(t, queue, staged, sent, number)?;
    Ok(found.is_some_and(|f| f.waits))
}
