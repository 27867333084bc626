// Data, plain and extended (docs/RULES.md). The staged form puts its frames into staged, and the writer form into sent where nothing is
// staged.
#![tactic(auto)]

ghost use Rattle.std.specs.Prelude.{◌≡◌, ◌+◌, ◌-◌, ◌≤◌, ◌<◌, ◌&&◌, ◌||◌, Bool, cond, eqb, ltb, leb, length};
ghost use Rattle.octets.specs.Buf.{write};
ghost use Rattle.channel.specs.declared.Kind.TheVariants as K;
ghost use Rattle.channel.specs.State as State;
ghost use Rattle.channel.specs.State.{most_entries, most_bytes};
ghost use Rattle.channel.specs.Call as C;
ghost use Rattle.channel.specs.Called.{lent, outcome, called};
ghost use Rattle.channel.specs.Answers as Answers;
ghost use Rattle.lookup.specs.Update.{entry_pushed, counted};
ghost use Rattle.lookup.specs.Out.{route, out_used, state_of, outcome_of};
ghost use Rattle.soundness.specs.Sees.{Sees};

use channel::{ChannelId, Entry, Kind, Refusal, Table};
use frames::{put_run, size_of_run};
use octets::copy_in;
use soundness::{Found, see};

// What a data call sends, on which channel, and whether a rekey is on.
#[derive(Clone, Copy)]
struct Load<'a> {
    number: ChannelId,
    buf: &'a [u8],
    rekey: bool,
}

// The channel, by the buffer that frames go into, which is sent if `straight` and else staged, and the other one. The three go together
// below, and are no enum of two cases: each use would be a match with the same text in both arms.
fn see_by(
    t: &Table,
    queue: &[u8],
    out: &[u8],
    other: &[u8],
    straight: bool,
    n: ChannelId,
) -> Result<Found, Refusal>
    ensures { Sees (state_of straight t.now queue.now out.now other.now) n.0 result }
{
    if straight {
        see(t, queue, other, out, n)
    } else {
        see(t, queue, out, other, n)
    }
}

// There is room for one entry more, of n bytes. That the used count is within the queue is a sound state's, and no type's, since C passes
// any counts: so it stands in the contracts.
fn has_room(t: &Table, queue: &[u8], n: usize) -> bool
    requires { t.now.queue_used ≤ length queue.now }
    ensures { result ≡ ltb t.now.entry_count most_entries && leb n (length queue.now - t.now.queue_used) }
{
    (t.entry_count < 64) & (n <= queue.len() - t.queue_used)
}

// There is room for what is left over: none is asked of no bytes.
fn rest_fits(t: &Table, queue: &[u8], n: usize) -> bool
    requires { t.now.queue_used ≤ length queue.now }
    ensures { result ≡ eqb n 0 || (ltb t.now.entry_count most_entries && leb n (length queue.now - t.now.queue_used)) }
{
    (n == 0) | has_room(t, queue, n)
}

// All of the bytes as one entry.
fn enqueue(t: &mut Table, queue: &mut [u8], number: ChannelId, kind: Kind, bytes: &[u8])
    requires entry { t.old.entry_count < most_entries }
    requires bytes { t.old.queue_used + length bytes.now ≤ length queue.old }
    requires long { length queue.old ≤ most_bytes }
    ensures table { t.new ≡ entry_pushed t.old (record { number = number; kind = State.stored kind; left = length bytes.now }) }
    ensures queue_after { queue.new ≡ write t.old.queue_used bytes.now queue.old }
{
    copy_in(queue, t.queue_used, bytes);
    t.entries[t.entry_count] = Entry {
        number,
        kind: kind.into(),
        left: bytes.len() as u32,
    };
    t.entry_count += 1;
    t.queue_used += bytes.len();
}

// The used count of the buffer that frames go into: sent if `straight`, else staged.
fn out_used(t: &Table, straight: bool) -> usize
    ensures { result ≡ out_used straight t.now }
{
    if straight { t.sent_used } else { t.staged_used }
}

// That count is `end` now.
fn set_out_used(t: &mut Table, straight: bool, end: usize)
    ensures { t.new ≡ counted t.old (cond straight t.old.staged_used end) (cond straight end t.old.sent_used) }
{
    if straight {
        t.sent_used = end;
    } else {
        t.staged_used = end;
    }
}

// All four calls, once it is known which buffer frames go into: sent if `straight`, else staged. `w` is any form that goes that way.
fn send(
    t: &mut Table,
    queue: &mut [u8],
    out: &mut [u8],
    other: &[u8],
    straight: bool,
    kind: Kind,
    load: &Load<'_>,
) -> Result<u32, Refusal>
    ensures { (w : Bool) → straight ≡ w && eqb t.old.staged_used 0
        → outcome_of straight (Answers.sent result) t.new queue.new out.new other.now
        ≡ called (state_of straight t.old queue.old out.old other.now) (C.put (route w load.now.rekey) (C.send kind load.now.number.0 load.now.buf.now)) }
{
    let bytes = load.buf;
    let found = see_by(t, queue, out, other, straight, load.number)?;
    let record = &t.records[found.place];
    if !record.confirmed {
        return Err(Refusal::Unconfirmed);
    }
    let peer = record.recipient_channel;
    let window = record.recipient_window_size;
    let limit = record.recipient_maximum_packet_size;
    if found.waits | load.rekey {
        if !has_room(t, queue, bytes.len()) {
            return Err(Refusal::Room);
        }
        enqueue(t, queue, load.number, kind, bytes);
        return Ok(0);
    }
    if bytes.is_empty() {
        return Ok(0);
    }
    if limit == 0 {
        return Err(Refusal::Limit);
    }
    let now = bytes.len().min(window as usize);
    let framed = now as u32;
    let at = out_used(t, straight);
    if ((out.len() - at) as u64) < size_of_run(kind, limit, framed) {
        return Err(Refusal::Room);
    }
    if !rest_fits(t, queue, bytes.len() - now) {
        return Err(Refusal::Room);
    }
    t.records[found.place].recipient_window_size = window - framed;
    let end = put_run(out, at, kind, peer, limit, &bytes[..now]);
    set_out_used(t, straight, end);
    if now == bytes.len() {
        return Ok(framed);
    }
    enqueue(t, queue, load.number, kind, &bytes[now..]);
    Ok(framed)
}

// The writer form: frames go into sent where nothing is staged, else into staged behind what is.
fn send_with_writer(
    t: &mut Table,
    queue: &mut [u8],
    staged: &mut [u8],
    sent: &mut [u8],
    kind: Kind,
    load: &Load<'_>,
) -> Result<u32, Refusal>
    ensures { outcome (Answers.sent result) t.new queue.new staged.new sent.new
        ≡ called (lent t.old queue.old staged.old sent.old) (C.put (record { form = C.straight; rekey = load.now.rekey }) (C.send kind load.now.number.0 load.now.buf.now)) }
{
    if t.staged_used == 0 {
        send(t, queue, sent, staged, true, kind, load)
    } else {
        send(t, queue, staged, sent, false, kind, load)
    }
}

// Data in packets into staged; what the window leaves over is queued. The answer is the bytes framed now.
// The four calls below stay apart, two kinds in two forms: these are the calls that a user has, by the names that README.md lists.
pub fn data(
    t: &mut Table,
    queue: &mut [u8],
    staged: &mut [u8],
    sent: &[u8],
    number: ChannelId,
    buf: &[u8],
    rekey: bool,
) -> Result<u32, Refusal>
    ensures { outcome (Answers.sent result) t.new queue.new staged.new sent.now
        ≡ called (lent t.old queue.old staged.old sent.now) (C.put (record { form = C.staged; rekey = rekey }) (C.send K.Plain number.0 buf.now)) }
{
    let load = Load { number, buf, rekey };
    send(t, queue, staged, sent, false, Kind::Plain, &load)
}

// The same, into sent where nothing is staged.
pub fn data_with_writer(
    t: &mut Table,
    queue: &mut [u8],
    staged: &mut [u8],
    sent: &mut [u8],
    number: ChannelId,
    buf: &[u8],
    rekey: bool,
) -> Result<u32, Refusal>
    ensures { outcome (Answers.sent result) t.new queue.new staged.new sent.new
        ≡ called (lent t.old queue.old staged.old sent.old) (C.put (record { form = C.straight; rekey = rekey }) (C.send K.Plain number.0 buf.now)) }
{
    let load = Load { number, buf, rekey };
    send_with_writer(t, queue, staged, sent, Kind::Plain, &load)
}

// Extended data with its code, into staged.
pub fn extended_data(
    t: &mut Table,
    queue: &mut [u8],
    staged: &mut [u8],
    sent: &[u8],
    number: ChannelId,
    ext: u32,
    buf: &[u8],
    rekey: bool,
) -> Result<u32, Refusal>
    ensures { outcome (Answers.sent result) t.new queue.new staged.new sent.now
        ≡ called (lent t.old queue.old staged.old sent.now) (C.put (record { form = C.staged; rekey = rekey }) (C.send (K.Extended ext) number.0 buf.now)) }
{
    let load = Load { number, buf, rekey };
    send(t, queue, staged, sent, false, Kind::Extended(ext), &load)
}

// The same, into sent where nothing is staged.
pub fn extended_data_with_writer(
    t: &mut Table,
    queue: &mut [u8],
    staged: &mut [u8],
    sent: &mut [u8],
    number: ChannelId,
    ext: u32,
    buf: &[u8],
    rekey: bool,
) -> Result<u32, Refusal>
    ensures { outcome (Answers.sent result) t.new queue.new staged.new sent.new
        ≡ called (lent t.old queue.old staged.old sent.old) (C.put (record { form = C.straight; rekey = rekey }) (C.send (K.Extended ext) number.0 buf.now)) }
{
    let load = Load { number, buf, rekey };
    send_with_writer(t, queue, staged, sent, Kind::Extended(ext), &load)
}
