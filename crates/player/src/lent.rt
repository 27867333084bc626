// The calls of a script, made on a table and the buffers that are lent for it.
ghost use Rattle.std.specs.Prelude.{◌<◌, ◌≤◌, length, IfSome};

use crate::call::{Buffer, Call, Counts, Opening, Parcel, Route};
use crate::fields::Fields;
use answers::Numbers;
use channel::{ChannelId, Kind, Table};
use std::array;

// What a call answers, and the count of the script's bytes that it took.
#[derive(Clone, Copy)]
pub struct Played {
    pub answer: Numbers,
    pub size: usize,
}

// The bytes that a buffer has before the first call, again and again.
pub(crate) fn first_bytes() -> [u8; 251] {
    array::from_fn(|i| ((7 * (i % 251) + 13) % 251) as u8)
}

// Every byte of a buffer, as it is before the first call.
pub fn fill(buf: &mut [u8]) {
    let pattern = first_bytes();
    for part in buf.chunks_mut(251) {
        if let Some(bytes) = pattern.get(..part.len()) {
            part.copy_from_slice(bytes);
        }
    }
}

// A byte of a buffer is set, if it is within.
fn set_byte(buf: &mut [u8], at: usize, byte: u8) {
    if let Some(b) = buf.get_mut(at) {
        *b = byte;
    }
}

// Makes the first call of what is left of a script, if there is one.
pub fn play(
    rest: &[u8],
    t: &mut Table,
    queue: &mut [u8],
    staged: &mut [u8],
    sent: &mut [u8],
) -> Option<Played>
    ensures { IfSome result (λ p. (0 < p.size) × (p.size ≤ length rest.now)) }
{
    let mut fields = Fields(rest);
    let call = Call::read(&mut fields)?;
    let size = rest.len() - fields.0.len();
    Some(Played {
        answer: make(call, t, queue, staged, sent),
        size,
    })
}

// Makes a call.
fn make(
    call: Call<'_>,
    t: &mut Table,
    queue: &mut [u8],
    staged: &mut [u8],
    sent: &mut [u8],
) -> Numbers {
    match call {
        Call::NewChannel(window, limit) => {
            numbers::new_channel(t, queue, staged, sent, window, limit).into()
        }
        Call::NewChannelId => numbers::new_channel_id(t, queue, staged, sent).into(),
        Call::OpenForPeer(opening) => open(opening, t, queue, staged, sent),
        Call::Data(parcel) => send(parcel, t, queue, staged, sent),
        Call::Eof(n) => ending::eof(t, queue, staged, sent, n).into(),
        Call::Close(n) => ending::close(t, queue, staged, sent, n).into(),
        Call::Adjust(number, n, target) => {
            window::adjust_window_size(t, queue, staged, sent, number, n, target).into()
        }
        Call::FlushPending(route, n) => flush_pending(route, n, t, queue, staged, sent),
        Call::FlushAllPending(route) => flush_all_pending(route, t, queue, staged, sent),
        Call::Flush(rekey) => staging::flush(t, queue, staged, sent, rekey).into(),
        Call::Drain => staging::drain(t, queue, staged, sent).into(),
        Call::Incoming(payload) => incoming::incoming(t, queue, staged, sent, payload).into(),
        Call::SenderWindowSize(n) => window::sender_window_size(t, queue, staged, sent, n).into(),
        Call::HasPendingData(n) => window::has_pending_data(t, queue, staged, sent, n).into(),
        Call::DamageCounts(counts) => damage_counts(counts, t),
        Call::DamageByte(buffer, at, byte) => {
            match buffer {
                Some(Buffer::Queue) => set_byte(queue, at as usize, byte),
                Some(Buffer::Staged) => set_byte(staged, at as usize, byte),
                Some(Buffer::Sent) => set_byte(sent, at as usize, byte),
                None => {}
            }
            Numbers::default()
        }
    }
}

// Opens a channel for the peer.
fn open(o: Opening, t: &mut Table, queue: &[u8], staged: &[u8], sent: &[u8]) -> Numbers {
    numbers::open_for_peer(
        t,
        queue,
        staged,
        sent,
        o.number,
        o.peer,
        o.window,
        o.limit,
        o.peer_window,
        o.peer_limit,
    )
    .into()
}

// Sends data, of either kind and in either form.
fn send(
    p: Parcel<'_>,
    t: &mut Table,
    queue: &mut [u8],
    staged: &mut [u8],
    sent: &mut [u8],
) -> Numbers {
    let Route { writer, rekey } = p.route;
    let n = p.number;
    match (p.kind, writer) {
        (Kind::Plain, false) => sending::data(t, queue, staged, sent, n, p.bytes, rekey),
        (Kind::Plain, true) => sending::data_with_writer(t, queue, staged, sent, n, p.bytes, rekey),
        (Kind::Extended(code), false) => {
            sending::extended_data(t, queue, staged, sent, n, code, p.bytes, rekey)
        }
        (Kind::Extended(code), true) => {
            sending::extended_data_with_writer(t, queue, staged, sent, n, code, p.bytes, rekey)
        }
    }
    .into()
}

// The pending flush of a channel, in either form.
fn flush_pending(
    route: Route,
    n: ChannelId,
    t: &mut Table,
    queue: &mut [u8],
    staged: &mut [u8],
    sent: &mut [u8],
) -> Numbers {
    if route.writer {
        pending::flush_pending_with_writer(t, queue, staged, sent, n, route.rekey).into()
    } else {
        pending::flush_pending(t, queue, staged, sent, n).into()
    }
}

// The pending flush of all channels, in either form.
fn flush_all_pending(
    route: Route,
    t: &mut Table,
    queue: &mut [u8],
    staged: &mut [u8],
    sent: &mut [u8],
) -> Numbers {
    if route.writer {
        pending::flush_all_pending_with_writer(t, queue, staged, sent, route.rekey).into()
    } else {
        pending::flush_all_pending(t, queue, staged, sent).into()
    }
}

// The counts are set, whatever they were.
fn damage_counts(counts: Counts, t: &mut Table) -> Numbers {
    t.queue_used = counts.queue as usize;
    t.staged_used = counts.staged as usize;
    t.sent_used = counts.sent as usize;
    t.entry_count = counts.entries as usize;
    Numbers::default()
}
