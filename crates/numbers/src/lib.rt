// Picking a number, and opening a record under it (docs/RULES.md).
#![tactic(auto)]

ghost use Rattle.std.specs.Prelude.{◌≡◌, ◌<◌, false, length};
ghost use Rattle.laws.specs.Bits.{bit};
ghost use Rattle.channel.specs.State.{place_count};
ghost use Rattle.channel.specs.Call.{act, new_channel, new_channel_id, open_for_peer};
ghost use Rattle.channel.specs.Change.{fresh, confirm};
ghost use Rattle.channel.specs.Called.{called, lent, outcome};
ghost use Rattle.channel.specs.Answers.{acted, picked};
ghost use Rattle.lookup.specs.Update.{place_taken};
ghost use Rattle.numbers.specs.Picks.{pick_of, Frees};

use channel::{ChannelId, PeerNumber, Record, Refusal, Table, zero_record};
use lookup::{mark, place_has};
use soundness::{look_up, test};

// The lowest free place: the trailing zeros of the complement of the word of used marks.
fn lowest_free(t: &Table) -> Option<usize>
    ensures { Frees t.now result }
{
    let place = (!t.used).trailing_zeros() as usize;
    if place < 32 { Some(place) } else { None }
}

// The first number after the last that is not in the table. The loops have the form that docs/RULES.md names for them.
fn pick(t: &Table) -> ChannelId
    requires { length t.now.records ≡ place_count }
    ensures { result.0 ≡ pick_of t.now }
{
    let mut n = t.last.wrapping_add(1);
    let chosen = 'next: loop {
        for i in 0..t.records.len() {
            if place_has(t, i, ChannelId(n)) {
                n = n.wrapping_add(1);
                continue 'next;
            }
        }
        break n;
    };
    ChannelId(chosen)
}

// A record that is open at this end and not confirmed.
#[tactic(auto, unfolding(channel::specs::Change::fresh, channel::specs::Raw::zero_record))]
fn fresh_record(n: ChannelId, window_size: u32, maxpacket: u32) -> Record
    ensures { result ≡ fresh n.0 window_size maxpacket }
{
    Record {
        sender_channel: n,
        sender_window_size: window_size,
        sender_maximum_packet_size: maxpacket,
        ..zero_record()
    }
}

// A record that is opened for the peer: confirmed at once, with both ends' windows and limits. They are the arguments of the call, as
// README.md lists it, and of its export.
#[tactic(auto, unfolding(channel::specs::Change::fresh, channel::specs::Change::confirm))]
fn peer_record(
    n: ChannelId,
    peer: PeerNumber,
    window_size: u32,
    maxpacket: u32,
    peer_window: u32,
    peer_maxpacket: u32,
) -> Record
    ensures { result ≡ confirm (fresh n.0 window_size maxpacket) peer.0 peer_window peer_maxpacket }
{
    Record {
        recipient_channel: peer,
        recipient_window_size: peer_window,
        recipient_maximum_packet_size: peer_maxpacket,
        confirmed: true,
        ..fresh_record(n, window_size, maxpacket)
    }
}

// The record takes the place, which was free.
fn take_place(t: &mut Table, place: usize, r: Record)
    requires { (place < place_count) × (bit t.old.used place ≡ false) }
    ensures { t.new ≡ place_taken t.old place r }
{
    t.records[place] = r;
    t.used = mark(t.used, place);
}

// Opens a record at the first number after the last that is not in the table.
pub fn new_channel(
    t: &mut Table,
    queue: &[u8],
    staged: &[u8],
    sent: &[u8],
    window_size: u32,
    maxpacket: u32,
) -> Result<ChannelId, Refusal>
    ensures { outcome (picked result) t.new queue.now staged.now sent.now
        ≡ called (lent t.old queue.now staged.now sent.now) (act (new_channel window_size maxpacket)) }
{
    test(t, queue, staged, sent)?;
    let Some(place) = lowest_free(t) else {
        return Err(Refusal::Room);
    };
    let n = pick(t);
    take_place(t, place, fresh_record(n, window_size, maxpacket));
    t.last = n.0;
    Ok(n)
}

// Picks in the same way, moves the last number and opens nothing.
pub fn new_channel_id(
    t: &mut Table,
    queue: &[u8],
    staged: &[u8],
    sent: &[u8],
) -> Result<ChannelId, Refusal>
    ensures { outcome (picked result) t.new queue.now staged.now sent.now
        ≡ called (lent t.old queue.now staged.now sent.now) (act new_channel_id) }
{
    test(t, queue, staged, sent)?;
    if lowest_free(t).is_none() {
        return Err(Refusal::Room);
    }
    let n = pick(t);
    t.last = n.0;
    Ok(n)
}

// Opens a confirmed record at a number that the caller gives. The last number stays.
pub fn open_for_peer(
    t: &mut Table,
    queue: &[u8],
    staged: &[u8],
    sent: &[u8],
    n: ChannelId,
    peer: PeerNumber,
    window_size: u32,
    maxpacket: u32,
    peer_window: u32,
    peer_maxpacket: u32,
) -> Result<(), Refusal>
    ensures { outcome (acted result) t.new queue.now staged.now sent.now
        ≡ called (lent t.old queue.now staged.now sent.now)
        (act (open_for_peer n.0 peer.0 window_size maxpacket peer_window peer_maxpacket)) }
{
    if look_up(t, queue, staged, sent, n)?.is_some() {
        return Err(Refusal::Already);
    }
    let Some(place) = lowest_free(t) else {
        return Err(Refusal::Room);
    };
    let r = peer_record(n, peer, window_size, maxpacket, peer_window, peer_maxpacket);
    take_place(t, place, r);
    Ok(())
}
