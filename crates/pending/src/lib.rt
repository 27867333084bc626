// Pending flush (docs/RULES.md): what a channel queued is framed as far as the peer's window goes, by the passes of `passes`; then the
// marks' messages, the record and the answer. The staged form puts its frames into staged, and the writer form into sent where nothing
// is staged.

#![tactic(auto)]

ghost use Rattle.std.specs.Prelude.{◌≡◌, true, false, cond, List, ℕ, Ok, ◌+◌, ◌-◌, ◌*◌, ◌≤◌, ◌<◌, length, take};
ghost use Rattle.octets.specs.Buf.{write};
ghost use Rattle.laws.specs.Bits.{bit};
ghost use Rattle.channel.specs.Wire.{frames};
ghost use Rattle.channel.specs.State.{place_count, most_entries, most_bytes, numbers_in_all};
ghost use Rattle.channel.specs.Call as C;
ghost use Rattle.channel.specs.Called.{Typed, lent, called, outcome};
ghost use Rattle.channel.specs.Sound.{is_sound};
ghost use Rattle.channel.specs.Answers as Answers;
ghost use Rattle.lookup.specs.Held.{HeldAt};
ghost use Rattle.lookup.specs.Out.{out_of, out_used, framed, route};
ghost use Rattle.soundness.specs.Sees.{Sees, Tests};
ghost use Rattle.passes.specs.Keep.{Base};
ghost use Rattle.passes.specs.Flush.{stuck_by};
ghost use Rattle.passes.specs.Pass.{flushed_in};
ghost use Rattle.pending.specs.Plan.{result_of, marked, control_of, charged_by, settled_by, fits_by, sent_by};
ghost use Rattle.pending.specs.All.{nearer_by, least_from, none_yet, best_of};

use channel::{
    ChannelFlushResult, ChannelId, Completed, PeerNumber, Record, Refusal, Stopped, Table, typed,
};
use frames::{put_close, put_eof};
use lookup::free;
use passes::{Size, frame_entries, keep_rest, plan};
use soundness::{Found, scan, see, test};

// THE CARRY-OUT

// The channel's frames behind what is in `out`, sent's bytes, or in staged.
fn put_frames(
    t: &mut Table,
    queue: &[u8],
    staged: &mut [u8],
    out: &mut [u8],
    straight: bool,
    c: &Record,
)
    requires base { Base t.old.entries t.old.entry_count queue.now t.old.queue_used }
    requires free { stuck_by c.now (take t.old.entry_count t.old.entries) ≡ false }
    requires long { length (out_of straight (lent t.old queue.now staged.old out.old)) ≤ most_bytes }
    requires room { out_used straight t.old + length (frames (flushed_in t.old queue.now c.now).out) ≤ length (out_of straight (lent t.old queue.now staged.old out.old)) }
    ensures { lent t.new queue.now staged.new out.new ≡ framed straight (lent t.old queue.now staged.old out.old) (frames (flushed_in t.old queue.now c.now).out) }
{
    if straight {
        t.sent_used = frame_entries(t, queue, out, t.sent_used, c);
    } else {
        t.staged_used = frame_entries(t, queue, staged, t.staged_used, c);
    }
}

// CLOSE, if it is handed over; the index after it.
fn put_closing(staged: &mut [u8], at: usize, peer: PeerNumber, close: bool) -> usize
    requires { at + length (frames (marked peer.0 false close)) ≤ length staged.old }
    ensures staged_after { staged.new ≡ write at (frames (marked peer.0 false close)) staged.old }
    ensures value { result ≡ at + length (frames (marked peer.0 false close)) }
{
    if close {
        put_close(staged, at, peer);
        at + 9
    } else {
        at
    }
}

// The marks that are handed over: EOF and then CLOSE; the index after them.
fn put_marks(staged: &mut [u8], at: usize, peer: PeerNumber, eof: bool, close: bool) -> usize
    requires { at + length (frames (marked peer.0 eof close)) ≤ length staged.old }
    ensures staged_after { staged.new ≡ write at (frames (marked peer.0 eof close)) staged.old }
    ensures value { result ≡ at + length (frames (marked peer.0 eof close)) }
{
    if eof {
        put_eof(staged, at, peer);
        put_closing(staged, at + 9, peer, close)
    } else {
        put_closing(staged, at, peer, close)
    }
}

// The record after a flush: its window falls by the bytes framed, and where no entry is left its marks go.
fn charged(c: &Record, size: &Size) -> Record
    requires { size.now.wrote ≤ c.now.recipient_window_size }
    ensures { result ≡ charged_by c.now (c.now.recipient_window_size - size.now.wrote) size.now.all }
{
    Record {
        recipient_window_size: c.recipient_window_size - size.wrote as u32,
        pending_eof: c.pending_eof & !size.all,
        pending_close: c.pending_close & !size.all,
        ..*c
    }
}

// What stands at the record's place after a flush: nothing, and the place is free, where CLOSE is handed over.
fn settle(t: &mut Table, place: usize, c: &Record, size: &Size)
    requires place { (place < place_count) × (length t.old.records ≡ place_count) × (bit t.old.used place ≡ true) }
    requires window { size.now.wrote ≤ c.now.recipient_window_size }
    ensures { t.new ≡ settled_by t.old place c.now (c.now.recipient_window_size - size.now.wrote) size.now.all }
{
    if size.all & c.pending_close {
        free(t, place);
    } else {
        t.records[place] = charged(c, size);
    }
}

// THE DECISION

// The bytes of a mark's message, if it is handed over.
fn mark_size(on: bool) -> usize
    ensures { (result ≡ cond on 9 0) × (result ≤ 9) }
{
    if on { 9 } else { 0 }
}

// The bytes of the marks' messages.
fn marks_size(c: &Record, all: bool) -> usize
    ensures { (result ≡ length (frames (control_of c.now all))) × (result ≤ 18) }
{
    mark_size(all & c.pending_eof) + mark_size(all & c.pending_close)
}

// There is room for the frames, and for the marks' messages, which are staged in either form.
fn has_room(
    t: &Table,
    staged: &[u8],
    out: &[u8],
    straight: bool,
    frames: usize,
    marks: usize,
) -> bool
    requires staged { t.now.staged_used ≤ length staged.now }
    requires sent { straight ≡ true → t.now.sent_used ≤ length out.now }
    requires few { (frames ≤ 18 * most_bytes) × (marks ≤ 18) }
    ensures { (queue : List ℕ) → result ≡ fits_by straight (lent t.now queue staged.now out.now) frames marks }
{
    let free = staged.len() - t.staged_used;
    if straight {
        (frames <= out.len() - t.sent_used) & (marks <= free)
    } else {
        frames + marks <= free
    }
}

// The answer by the sizes.
fn answer(c: &Record, size: &Size) -> ChannelFlushResult
    ensures { Answers.flush_is result ≡ C.gave (result_of c.now size.now.wrote size.now.all) }
{
    if size.all {
        ChannelFlushResult::Complete(Completed {
            wrote: size.wrote,
            pending_eof: c.pending_eof,
            pending_close: c.pending_close,
        })
    } else {
        ChannelFlushResult::Incomplete(size.wrote)
    }
}

// ONE CHANNEL

// The form of a flush: with a writer, so that frames may go into sent, and during rekey.
#[derive(Clone, Copy)]
struct Form {
    writer: bool,
    rekey: bool,
}

// The table, the queue, staged, `out`, `kept` and the form go through the five functions below as parameters: a struct of the references
// was tried, and was no plainer, since its clauses must say besides that the references stay the caller's.

// What the types say of a state, for the proofs.
fn typed_lent(t: &Table, queue: &[u8], staged: &[u8], out: &[u8], kept: &[u8], form: Form)
    ensures { Typed (sent_by form.writer t.now queue.now staged.now out.now kept.now) }
{
    typed(t, queue, staged, kept);
}

// A sound state's flush of the channel whose record stands at a place. Sent is lent as `out` in the writer form, and else as `kept`, which
// is not written.
fn flush_at(
    t: &mut Table,
    queue: &mut [u8],
    staged: &mut [u8],
    out: &mut [u8],
    kept: &[u8],
    form: Form,
    n: ChannelId,
    place: usize,
) -> Result<ChannelFlushResult, Refusal>
    requires sound { is_sound (sent_by form.writer t.old queue.old staged.old out.old kept.now) ≡ true }
    requires held { HeldAt t.old n.0 place }
    ensures { record { answer = Answers.flushed result; state = sent_by form.writer t.new queue.new staged.new out.new kept.now }
        ≡ called (sent_by form.writer t.old queue.old staged.old out.old kept.now) (C.put (route form.writer form.rekey) (C.flush n.0)) }
{
    typed_lent(t, queue, staged, out, kept, form);
    let record = t.records[place];
    let size = plan(t, queue, &record)?;
    let straight = form.writer & !form.rekey & (t.staged_used == 0);
    let marks = marks_size(&record, size.all);
    if !has_room(t, staged, out, straight, size.size, marks) {
        return Err(Refusal::Room);
    }
    put_frames(t, queue, staged, out, straight, &record);
    t.staged_used = put_marks(
        staged,
        t.staged_used,
        record.recipient_channel,
        size.all & record.pending_eof,
        size.all & record.pending_close,
    );
    keep_rest(t, queue, &record);
    settle(t, place, &record, &size);
    Ok(answer(&record, &size))
}

// The flush of a channel that was found. A sound state has no mark of a channel that has no entry.
fn flush(
    t: &mut Table,
    queue: &mut [u8],
    staged: &mut [u8],
    out: &mut [u8],
    kept: &[u8],
    form: Form,
    n: ChannelId,
    found: Found,
) -> Result<ChannelFlushResult, Refusal>
    requires { Sees (sent_by form.writer t.old queue.old staged.old out.old kept.now) n.0 (Ok found) }
    ensures { record { answer = Answers.flushed result; state = sent_by form.writer t.new queue.new staged.new out.new kept.now }
        ≡ called (sent_by form.writer t.old queue.old staged.old out.old kept.now) (C.put (route form.writer form.rekey) (C.flush n.0)) }
{
    if found.waits {
        return flush_at(t, queue, staged, out, kept, form, n, found.place);
    }
    Ok(ChannelFlushResult::Complete(Completed {
        wrote: 0,
        pending_eof: false,
        pending_close: false,
    }))
}

// One channel and all, each in two forms, stay apart: these are the calls that a user has, by the names that README.md lists.

// The pending flush of one channel into staged.
pub fn flush_pending(
    t: &mut Table,
    queue: &mut [u8],
    staged: &mut [u8],
    sent: &[u8],
    n: ChannelId,
) -> Result<ChannelFlushResult, Refusal>
    ensures { outcome (Answers.flushed result) t.new queue.new staged.new sent.now
        ≡ called (lent t.old queue.old staged.old sent.now) (C.put (record { form = C.staged; rekey = false }) (C.flush n.0)) }
{
    let found = see(t, queue, staged, sent, n)?;
    let form = Form {
        writer: false,
        rekey: false,
    };
    flush(t, queue, staged, &mut [], sent, form, n, found)
}

// The pending flush of one channel, straight into sent while staged is empty and rekey is off.
pub fn flush_pending_with_writer(
    t: &mut Table,
    queue: &mut [u8],
    staged: &mut [u8],
    sent: &mut [u8],
    n: ChannelId,
    rekey: bool,
) -> Result<ChannelFlushResult, Refusal>
    ensures { outcome (Answers.flushed result) t.new queue.new staged.new sent.new
        ≡ called (lent t.old queue.old staged.old sent.old) (C.put (record { form = C.straight; rekey = rekey }) (C.flush n.0)) }
{
    let found = see(t, queue, staged, sent, n)?;
    let form = Form {
        writer: true,
        rekey,
    };
    flush(t, queue, staged, sent, &[], form, n, found)
}

// ALL CHANNELS

// The nearer of an entry's number and the best so far, where the number is not passed yet.
fn nearer(n: ChannelId, from: u64, best: Option<ChannelId>) -> Option<ChannelId>
    ensures { best_of result ≡ nearer_by from n.0 (best_of best) }
{
    if (n.0 as u64) < from {
        return best;
    }
    Some(best.map_or(n, |b| b.min(n)))
}

// The lowest number from `from` on that has an entry.
fn least_from(t: &Table, from: u64) -> Option<ChannelId>
    requires { (length t.now.entries ≡ most_entries) × (t.now.entry_count ≤ most_entries) }
    ensures { best_of result ≡ least_from from none_yet (take t.now.entry_count t.now.entries) }
{
    let mut best = None;
    for e in &t.entries[..t.entry_count] {
        best = nearer(e.number, from, best);
    }
    best
}

// The number after one that is done.
fn past(n: ChannelId) -> u64
    ensures { (result ≡ n.0 + 1) × (n.0 < numbers_in_all) }
{
    n.0 as u64 + 1
}

// A sound state's flush of a channel that has an entry.
fn flush_next(
    t: &mut Table,
    queue: &mut [u8],
    staged: &mut [u8],
    out: &mut [u8],
    kept: &[u8],
    form: Form,
    n: ChannelId,
) -> Result<ChannelFlushResult, Refusal>
    requires { is_sound (sent_by form.writer t.old queue.old staged.old out.old kept.now) ≡ true }
    ensures { record { answer = Answers.flushed result; state = sent_by form.writer t.new queue.new staged.new out.new kept.now }
        ≡ called (sent_by form.writer t.old queue.old staged.old out.old kept.now) (C.put (route form.writer form.rekey) (C.flush n.0)) }
{
    typed_lent(t, queue, staged, out, kept, form);
    match scan(t, n) {
        Some(place) => flush_at(t, queue, staged, out, kept, form, n, place),
        None => Err(Refusal::Unknown),
    }
}

// A sound state's flush of all channels, in ascending number. It stops at the first refusal; what was done before stands.
fn flush_all(
    t: &mut Table,
    queue: &mut [u8],
    staged: &mut [u8],
    out: &mut [u8],
    kept: &[u8],
    form: Form,
) -> Result<(), Stopped>
    requires { Tests (sent_by form.writer t.old queue.old staged.old out.old kept.now) (Ok tt) }
    ensures { record { answer = Answers.all_flushed result; state = sent_by form.writer t.new queue.new staged.new out.new kept.now }
        ≡ called (sent_by form.writer t.old queue.old staged.old out.old kept.now) (C.flush_all (route form.writer form.rekey)) }
{
    let mut from: u64 = 0;
    loop {
        typed_lent(t, queue, staged, out, kept, form);
        let Some(n) = least_from(t, from) else {
            return Ok(());
        };
        flush_next(t, queue, staged, out, kept, form, n).map_err(|why| Stopped::At(n, why))?;
        from = past(n);
    }
}

// The pending flush of all channels into staged.
pub fn flush_all_pending(
    t: &mut Table,
    queue: &mut [u8],
    staged: &mut [u8],
    sent: &[u8],
) -> Result<(), Stopped>
    ensures { outcome (Answers.all_flushed result) t.new queue.new staged.new sent.now
        ≡ called (lent t.old queue.old staged.old sent.now) (C.flush_all (record { form = C.staged; rekey = false })) }
{
    test(t, queue, staged, sent)?;
    let form = Form {
        writer: false,
        rekey: false,
    };
    flush_all(t, queue, staged, &mut [], sent, form)
}

// The pending flush of all channels in the writer form.
pub fn flush_all_pending_with_writer(
    t: &mut Table,
    queue: &mut [u8],
    staged: &mut [u8],
    sent: &mut [u8],
    rekey: bool,
) -> Result<(), Stopped>
    ensures { outcome (Answers.all_flushed result) t.new queue.new staged.new sent.new
        ≡ called (lent t.old queue.old staged.old sent.old) (C.flush_all (record { form = C.straight; rekey = rekey })) }
{
    test(t, queue, staged, sent)?;
    let form = Form {
        writer: true,
        rekey,
    };
    flush_all(t, queue, staged, sent, &[], form)
}
