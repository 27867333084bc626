// The test behind answer 1, which finds a call's channel on the way. Every call pays for it, and a table comes from outside and is believed
// in nothing.
#![tactic(auto)]

ghost use Rattle.std.specs.Prelude.{◌≡◌, true, ◌&&◌, ◌%◌, ◌<◌, ◌≤◌, eqb, length, take, drop};
ghost use Rattle.laws.specs.Bits.{bit};
ghost use Rattle.channel.specs.State.{place_count, number_of, is_used, any_entry};
ghost use Rattle.channel.specs.Sound.{is_zero, is_zero_entry, entries_zero, distinct, whole_frames};
ghost use Rattle.channel.specs.Called.{lent};
ghost use Rattle.lookup.specs.Held.{record_at, PlaceIs};
ghost use Rattle.soundness.specs.Tested.{Sized, places_in, entries_in, limited, Hinted, LookedOver, EntriesTold, marks_sound};
ghost use Rattle.soundness.specs.Sees.{LooksUp, Tests, Sees};

use channel::{ChannelId, Entry, Record, Refusal, Table, typed};
use frames::frame_at;
use lookup::{place_has, place_used};

// Every field is zero. By field: tried `==` with `zero_record()`, which proves, but the test over an empty table took 1.4 times as long
// with it here and in `is_zero_entry`.
fn is_zero(r: &Record) -> bool
    ensures { result ≡ is_zero r.now }
{
    (r.sender_channel.0 == 0)
        & (r.recipient_channel.0 == 0)
        & !r.confirmed
        & (r.sender_window_size == 0)
        & (r.sender_maximum_packet_size == 0)
        & (r.recipient_window_size == 0)
        & (r.recipient_maximum_packet_size == 0)
        & !r.wants_reply
        & !r.pending_eof
        & !r.pending_close
}

// Every field is zero. By field: tried `==` with `zero_entry()`, which proves, but the test over an empty table took 1.3 times as long.
fn is_zero_entry(e: &Entry) -> bool
    ensures { result ≡ is_zero_entry e.now }
{
    (e.number.0 == 0) & !e.kind.extended & (e.kind.code == 0) & (e.left == 0)
}

// Every entry is zero.
fn all_zero(entries: &[Entry]) -> bool
    ensures { result ≡ entries_zero entries.now }
{
    entries.iter().all(is_zero_entry)
}

// Where a number's hint stands.
fn slot(n: ChannelId) -> usize
    ensures { result ≡ n.0 % 64 }
{
    (n.0 % 64) as usize
}

// What a look over the places leaves: for each slot one more than a place whose number has it, and 0 where there is none, and whether a
// used place has a mark. A hint is tested before it is believed. Tried as `Option<u8>`, which proves: the test took 1.1 times as long.
#[derive(Clone, Copy)]
struct Look {
    hints: [u8; 64],
    marked: bool,
}

// `Sized`, here and below: the lengths of a lent table's arrays, which `typed` tells since the check does not know them of another crate's
// type, and that no more entries are counted than there are, which `within_limits` has tested. It is no invariant of the type: C passes any
// counts.

// The number is used at a place from `first` on. It is asked for before the mark: where many numbers share a slot, most places have another
// one, and with `place_has` the test took 1.6 times as long there.
fn used_from(t: &Table, first: usize, n: ChannelId) -> bool
    requires sized { Sized t.now }
    requires first_in { first ≤ place_count }
    ensures { result ≡ is_used n.0 (drop first (places_in t.now)) }
{
    (first..t.records.len()).any(
        |i|
            requires { i < place_count }
            ensures { result ≡ bit t.entry.now.used i && eqb (number_of (record_at t.entry.now i)) n.0 }
        { (t.records[i].sender_channel == n) && place_used(t, i) },
    )
}

// The places, from the last to the first, and the unused entries: those not used are zero, and no number is used twice.
fn look_over(t: &Table) -> Option<Look>
    requires { Sized t.now }
    ensures { LookedOver t.now result }
{
    let mut hints = [0u8; 64];
    let mut marked = false;
    // By index: tried `iter().enumerate().rev()`, and the proof did not close: the kit's laws say what the reverse of a slice yields, and
    // not of an enumeration.
    for i in (0..t.records.len()).rev() {
        let r = &t.records[i];
        if place_used(t, i) {
            let at = slot(r.sender_channel);
            if hints[at] != 0 && used_from(t, i + 1, r.sender_channel) {
                return None;
            }
            hints[at] = (i + 1) as u8;
            marked = marked | r.pending_eof | r.pending_close;
        } else if !is_zero(r) {
            return None;
        }
    }
    if !all_zero(&t.entries[t.entry_count..]) {
        return None;
    }
    Some(Look { hints, marked })
}

// The first place that has the number.
#[cold]
pub fn scan(t: &Table, n: ChannelId) -> Option<usize>
    ensures { PlaceIs t.now n.0 result }
{
    typed(t, &[], &[], &[]);
    (0..t.records.len()).find(|i| place_has(t, *i, n))
}

// The place of a number: the one that its hint names, or else the first that has it.
#[inline]
fn place_of(t: &Table, look: &Look, n: ChannelId) -> Option<usize>
    requires sized { Sized t.now }
    requires hinted { Hinted (places_in t.now) look.now }
    ensures { PlaceIs t.now n.0 result }
{
    let hint = look.hints[slot(n)];
    if hint == 0 {
        return None;
    }
    let i = (hint as usize + 31) % 32;
    if place_has(t, i, n) {
        return Some(i);
    }
    scan(t, n)
}

// The used entries name confirmed records, and their lengths sum to the queue's used count. If so, whether one is the channel's.
fn entries_named(t: &Table, look: &Look, n: ChannelId) -> Option<bool>
    requires sized { Sized t.now }
    requires hinted { Hinted (places_in t.now) look.now }
    ensures { EntriesTold t.now n.0 result }
{
    let entries = &t.entries[..t.entry_count];
    let mut sum: usize = 0;
    let mut waits = false;
    for e in entries {
        let place = place_of(t, look, e.number)?;
        if !t.records[place].confirmed {
            return None;
        }
        sum += e.left as usize;
        waits = waits | (e.number == n);
    }
    if sum == t.queue_used {
        Some(waits)
    } else {
        None
    }
}

// The channel has an entry.
fn has_entry(t: &Table, n: ChannelId) -> bool
    requires { Sized t.now }
    ensures { result ≡ any_entry n.0 (entries_in t.now) }
{
    t.entries[..t.entry_count].iter().any(|e| e.number == n)
}

// Every marked channel has an entry.
fn marks_named(t: &Table) -> bool
    requires { Sized t.now }
    ensures { result ≡ marks_sound t.now }
{
    for (i, r) in t.records.iter().enumerate() {
        if place_used(t, i) & (r.pending_eof | r.pending_close) && !has_entry(t, r.sender_channel) {
            return false;
        }
    }
    true
}

// The first `used` bytes are whole frames, none empty. By hand: an iterator over frames would end alike at the end and at what is no
// frame.
fn whole_frames(staged: &[u8], used: usize) -> bool
    requires { used ≤ length staged.now }
    ensures { result ≡ whole_frames used (take used staged.now) }
{
    let mut at = 0;
    while at < used {
        let Some(n) = frame_at(staged, used, at) else {
            return false;
        };
        at += n;
    }
    true
}

// No buffer is too long, nor a used count too large.
fn within_limits(t: &Table, queue: &[u8], staged: &[u8], sent: &[u8]) -> bool
    ensures { result ≡ limited (lent t.now queue.now staged.now sent.now) }
{
    (queue.len() <= 65536)
        & (staged.len() <= 65536)
        & (sent.len() <= 65536)
        & (t.queue_used <= queue.len())
        & (t.staged_used <= staged.len())
        & (t.sent_used <= sent.len())
        & (t.entry_count <= 64)
}

// A channel's record: its place, and whether the channel has an entry.
#[derive(Clone, Copy)]
pub struct Found {
    pub place: usize,
    pub waits: bool,
}

// Tests the state, and looks a channel's record up in it. Table and buffers are parameters, here and in every call, and no struct: each
// call borrows by `&` what it only reads, and a struct of four `&mut` would ask more of its callers, those of the C interface among them.
pub fn look_up(
    t: &Table,
    queue: &[u8],
    staged: &[u8],
    sent: &[u8],
    n: ChannelId,
) -> Result<Option<Found>, Refusal>
    ensures { LooksUp (lent t.now queue.now staged.now sent.now) n.0 result }
{
    typed(t, queue, staged, sent);
    if !within_limits(t, queue, staged, sent) {
        return Err(Refusal::State);
    }
    let Some(look) = look_over(t) else {
        return Err(Refusal::State);
    };
    let Some(waits) = entries_named(t, &look, n) else {
        return Err(Refusal::State);
    };
    if look.marked && !marks_named(t) {
        return Err(Refusal::State);
    }
    if !whole_frames(staged, t.staged_used) {
        return Err(Refusal::State);
    }
    match place_of(t, &look, n) {
        Some(place) => Ok(Some(Found { place, waits })),
        None => Ok(None),
    }
}

// The test alone, for a call that asks for no channel: any number does.
pub fn test(t: &Table, queue: &[u8], staged: &[u8], sent: &[u8]) -> Result<(), Refusal>
    ensures { Tests (lent t.now queue.now staged.now sent.now) result }
{
    look_up(t, queue, staged, sent, ChannelId(0))?;
    Ok(())
}

// Looks up for a call that is refused where there is no such record.
pub fn see(
    t: &Table,
    queue: &[u8],
    staged: &[u8],
    sent: &[u8],
    n: ChannelId,
) -> Result<Found, Refusal>
    ensures { Sees (lent t.now queue.now staged.now sent.now) n.0 result }
{
    match look_up(t, queue, staged, sent, n)? {
        Some(found) => Ok(found),
        None => Err(Refusal::Unknown),
    }
}
