// The passes over the pending entries (docs/RULES.md): what of a channel's queued bytes leaves, as far as a window goes. Three of them:
// the sizes, the frames (the queue is only read), and the compaction (no destination), so that each byte is copied once.

#![tactic(auto)]

ghost use Rattle.std.specs.Prelude.{◌≡◌, true, false, ◌+◌, ◌-◌, ◌≤◌, ◌<◌, length, take, replicate};
ghost use Rattle.std.proofs.lemmas.List.Edits.{sets};
ghost use Rattle.octets.specs.Buf.{write};
ghost use Rattle.frames.proofs.Packets.{run_size};
ghost use Rattle.channel.specs.Wire.{frames};
ghost use Rattle.channel.specs.State.{most_entries, most_bytes, kind_of};
ghost use Rattle.channel.specs.Decide.{flushed};
ghost use Rattle.channel.specs.Raw.{entries_of, zero_entry};
ghost use Rattle.channel.specs.Sound.{sum_left};
ghost use Rattle.lookup.specs.Update.{filed};
ghost use Rattle.passes.specs.Keep.{Base, goes_by, cut_by, keeps, queue_with, table_with};
ghost use Rattle.passes.specs.Flush.{taken_by, stops_by, sizes, any_left, stuck_by, positive_of};
ghost use Rattle.passes.specs.Pass.{entries_in, flushed_in, PlannedBy};

use channel::{ChannelId, Entry, Record, Refusal, StoredKind, Table, zero_entry};
use frames::{put_run, size_of_run};
use octets::{move_down, put_zeros};

// What a flush would frame: the bytes, the bytes of their frames, and whether no entry is left.
#[derive(Clone, Copy)]
pub struct Size {
    pub wrote: usize,
    pub size: usize,
    pub all: bool,
}

// `Base`, in the contracts below, says that the entries in use lie in the queue, and other clauses that the array has its length and no
// more are counted. They are no invariant of a struct, since the table and the queue come apart, as C lends them, and C passes any counts.
// The channel, whether it still flushes and what its window still holds are arguments, as the loops have them: a struct would be made for
// each entry.

// THE COMPACTION

// An entry's bytes left, as an index.
fn left_of(e: &Entry) -> usize
    ensures { (result ≡ e.now.left) × (result < 4294967296) }
{
    e.left as usize
}

// The entry leaves the queue whole.
fn goes(e: &Entry, n: ChannelId, live: bool, w: usize) -> bool
    ensures { result ≡ goes_by n.0 live w e.now.number.0 e.now.left }
{
    live & (e.number == n) & (e.left as usize <= w)
}

// The bytes that leave an entry that stays.
fn cut_of(e: &Entry, n: ChannelId, live: bool, w: usize) -> usize
    ensures { result ≡ cut_by n.0 live w e.now.number.0 }
{
    if live & (e.number == n) { w } else { 0 }
}

// The used entries from place k on are zero.
fn clear_from(t: &mut Table, k: usize)
    requires { (k ≤ t.old.entry_count) × (t.old.entry_count ≤ most_entries) × (length t.old.entries ≡ most_entries) }
    ensures { t.new ≡ filed t.old (sets t.old.entries k (replicate (t.old.entry_count - k) zero_entry)) t.old.entry_count t.old.queue_used }
{
    t.entries[k..t.entry_count].fill(zero_entry());
}

// What is left when k entries and the bytes before `to` stay: the entries and bytes in use behind them are zero.
fn close_up(t: &mut Table, queue: &mut [u8], k: usize, to: usize)
    requires entries { (k ≤ t.old.entry_count) × (t.old.entry_count ≤ most_entries) × (length t.old.entries ≡ most_entries) }
    requires bytes { (to ≤ t.old.queue_used) × (t.old.queue_used ≤ length queue.old) }
    ensures queue_after { queue.new ≡ write to (replicate (t.old.queue_used - to) 0) queue.old }
    ensures table_after { t.new ≡ filed t.old (sets t.old.entries k (replicate (t.old.entry_count - k) zero_entry)) k to }
{
    put_zeros(queue, to, t.queue_used - to);
    clear_from(t, k);
    t.entry_count = k;
    t.queue_used = to;
}

// The bytes of channel n leave the queue, in entry order, as many as the window holds; one pass over the queue.
pub fn compact(t: &mut Table, queue: &mut [u8], n: ChannelId, window: usize)
    requires { Base t.old.entries t.old.entry_count queue.old t.old.queue_used }
    ensures queue_after { queue.new ≡ queue_with (keeps n.0 true window (entries_of t.old.entry_count t.old.entries queue.old)) t.old.queue_used queue.old }
    ensures table_after { t.new ≡ table_with (keeps n.0 true window (entries_of t.old.entry_count t.old.entries queue.old)) t.old }
{
    let mut k = 0;
    let mut off = 0;
    let mut to = 0;
    let mut w = window;
    let mut live = true;
    // by index: an entry that stays is stored at an earlier place of the same array
    for i in 0..t.entry_count {
        let mut e = t.entries[i];
        let left = left_of(&e);
        if goes(&e, n, live, w) {
            w -= left;
            off += left;
            continue;
        }
        let gone = cut_of(&e, n, live, w);
        let keep = left - gone;
        move_down(queue, to, off + gone - to, keep);
        e.left = keep as u32;
        t.entries[k] = e;
        live = live & (e.number != n);
        k += 1;
        to += keep;
        off += left;
    }
    close_up(t, queue, k, to);
}

// THE FRAMES

// The bytes of an entry that the window holds, if it is the channel's.
fn taken(e: &Entry, n: ChannelId, w: usize) -> usize
    ensures value { result ≡ taken_by n.0 w e.now.number.0 e.now.left }
    ensures upper_bound { result < 4294967296 }
{
    if e.number == n {
        (e.left as usize).min(w)
    } else {
        0
    }
}

// The entry is the channel's, and the window does not hold it.
fn stops(e: &Entry, n: ChannelId, w: usize) -> bool
    ensures { result ≡ stops_by n.0 w e.now.number.0 e.now.left }
{
    (e.number == n) & (w < e.left as usize)
}

// The frames of the channel's entries, as far as its window goes. The index after the last. A buffer and a place in it are two parameters
// of every store, here as in `frames`: what the buffer holds ahead of the place stays.
fn frame_pending(t: &Table, queue: &[u8], dst: &mut [u8], start: usize, c: &Record) -> usize
    requires base { Base t.now.entries t.now.entry_count queue.now (sum_left t.now.entry_count t.now.entries) }
    requires room { (length dst.old ≤ most_bytes) × (0 < c.now.recipient_maximum_packet_size) × (start + length (frames (flushed c.now c.now.recipient_window_size (entries_of t.now.entry_count t.now.entries queue.now)).out) ≤ length dst.old) }
    ensures dst_after { dst.new ≡ write start (frames (flushed c.now c.now.recipient_window_size (entries_of t.now.entry_count t.now.entries queue.now)).out) dst.old }
    ensures value { result ≡ start + length (frames (flushed c.now c.now.recipient_window_size (entries_of t.now.entry_count t.now.entries queue.now)).out) }
{
    let mut off = 0;
    let mut w = c.recipient_window_size as usize;
    let mut pos = start;
    for e in &t.entries[..t.entry_count] {
        let m = taken(e, c.sender_channel, w);
        pos = put_run(
            dst,
            pos,
            e.kind.into(),
            c.recipient_channel,
            c.recipient_maximum_packet_size,
            &queue[off..off + m],
        );
        if stops(e, c.sender_channel, w) {
            return pos;
        }
        w -= m;
        off += e.left as usize;
    }
    pos
}

// THE SIZES

// The bytes that m bytes of data take in packets of the limit.
fn run_size(kind: StoredKind, limit: u32, m: usize) -> usize
    requires { (0 < limit) × (m < 4294967296) }
    ensures { result ≡ run_size (kind_of kind) limit m }
{
    size_of_run(kind.into(), limit, m as u32) as usize
}

// What a flush of the channel would frame.
fn flush_size(t: &Table, c: &Record) -> Size
    requires { (length t.now.entries ≡ most_entries) × (t.now.entry_count ≤ most_entries) × (sum_left t.now.entry_count t.now.entries ≤ most_bytes) × (0 < c.now.recipient_maximum_packet_size) }
    ensures { result ≡ sizes c.now c.now.recipient_window_size (take t.now.entry_count t.now.entries) }
{
    let mut w = c.recipient_window_size as usize;
    let mut wrote = 0;
    let mut size = 0;
    for e in &t.entries[..t.entry_count] {
        let m = taken(e, c.sender_channel, w);
        size += run_size(e.kind, c.recipient_maximum_packet_size, m);
        wrote += m;
        if stops(e, c.sender_channel, w) {
            return Size {
                wrote,
                size,
                all: false,
            };
        }
        w -= m;
    }
    Size {
        wrote,
        size,
        all: true,
    }
}

// LIMIT

// The channel has a byte pending.
fn any_byte(t: &Table, n: ChannelId) -> bool
    requires { (length t.now.entries ≡ most_entries) × (t.now.entry_count ≤ most_entries) }
    ensures { result ≡ any_left n.0 (take t.now.entry_count t.now.entries) }
{
    t.entries[..t.entry_count]
        .iter()
        .any(|e| (e.number == n) & (0 < e.left))
}

// The limit is 0, and a byte is pending.
fn stuck(t: &Table, c: &Record) -> bool
    requires { (length t.now.entries ≡ most_entries) × (t.now.entry_count ≤ most_entries) }
    ensures { result ≡ stuck_by c.now (take t.now.entry_count t.now.entries) }
{
    if c.recipient_maximum_packet_size == 0 {
        any_byte(t, c.sender_channel)
    } else {
        false
    }
}

// The record with a limit that is not 0: where no byte is pending the limit does not matter.
fn positive(c: &Record) -> Record
    ensures { result ≡ positive_of c.now }
{
    Record {
        recipient_maximum_packet_size: c.recipient_maximum_packet_size.max(1),
        ..*c
    }
}

// The sizes of the channel's flush, which is refused where its limit is 0 and a byte is pending.
pub fn plan(t: &Table, queue: &[u8], c: &Record) -> Result<Size, Refusal>
    requires base { Base t.now.entries t.now.entry_count queue.now t.now.queue_used }
    requires queue_used_bound { t.now.queue_used ≤ most_bytes }
    ensures { PlannedBy c.now (entries_in t.now queue.now) result }
{
    if stuck(t, c) {
        return Err(Refusal::Limit);
    }
    Ok(flush_size(t, &positive(c)))
}

// THE CARRY-OUT

// The channel's frames into `dst`; the index after the last. The limit matters where a byte is pending, and is not 0 there.
pub fn frame_entries(t: &Table, queue: &[u8], dst: &mut [u8], start: usize, c: &Record) -> usize
    requires base { Base t.now.entries t.now.entry_count queue.now t.now.queue_used }
    requires room { (length dst.old ≤ most_bytes) × (stuck_by c.now (take t.now.entry_count t.now.entries) ≡ false) × (start + length (frames (flushed_in t.now queue.now c.now).out) ≤ length dst.old) }
    ensures dst_after { dst.new ≡ write start (frames (flushed_in t.now queue.now c.now).out) dst.old }
    ensures value { result ≡ start + length (frames (flushed_in t.now queue.now c.now).out) }
{
    frame_pending(t, queue, dst, start, &positive(c))
}

// The queue and the entries without what a flush frames.
pub fn keep_rest(t: &mut Table, queue: &mut [u8], c: &Record)
    requires { Base t.old.entries t.old.entry_count queue.old t.old.queue_used }
    ensures queue_after { queue.new ≡ queue_with (flushed_in t.old queue.old c.now).kept t.old.queue_used queue.old }
    ensures table_after { t.new ≡ table_with (flushed_in t.old queue.old c.now).kept t.old }
{
    compact(t, queue, c.sender_channel, c.recipient_window_size as usize);
}
