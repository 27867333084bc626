// The calls for a program in another language, each under its plain name with the prefix `oxenhush_`. A table goes in by value, as C passes
// a struct, and comes back by value, save from a query, which changes nothing and gives its answer alone. Every value of its numbers is
// taken: where the state is not sound the answer is 1, and nothing changes.
//
// What a caller must keep, and nothing more is relied on:
// - a slice is a pointer and a length: the pointer is not null, also for length 0, and that many bytes are there during the call;
// - a buffer lent as `&mut` overlaps no other buffer of the same call;
// - a bool is 0 or 1, also within the table: four in each record, and `extended` in each entry;
// - the structs have C's layout, with the fields in the order given: `Reply` here, `Numbers` in crate `answers`, and `Table`, `Record`,
//   `Entry` and `StoredKind` in crate `channel`, where `ChannelId` and `PeerNumber` are one 32-bit number each.
//
// Each call is a function of its own, with the table by value and every number and buffer apart: the C interface.

#![tactic(auto, unfolding(crate::specs::Told::told))]

ghost use Rattle.std.specs.Prelude.{◌≡◌, false};
ghost use Rattle.channel.specs.declared.Kind.TheVariants as K;
ghost use Rattle.channel.specs.Call as C;
ghost use Rattle.channel.specs.Called.{lent, called};
ghost use Rattle.channel.specs.Raw.{empty_table};
ghost use Rattle.exports.specs.Told.{left, told};

use answers::Numbers;
use channel::{ChannelId, PeerNumber, Table};

// What every call gives back but a query, which changes nothing and gives its answer alone: the answer in numbers, and the table.
#[repr(C)]
#[derive(Clone, Copy)]
pub struct Reply {
    pub answer: Numbers,
    pub table: Table,
}

impl Reply {
    // A call's answer in numbers, and the table after the call.
    #[inline(always)]
    fn new<A: Into<Numbers>>(answer: A, table: Table) -> Reply
        ensures answer { A.converts answer result.answer }
        ensures table { result.table ≡ table }
    {
        Reply {
            answer: answer.into(),
            table,
        }
    }
}

// The empty table.
#[inline(always)]
#[unsafe(no_mangle)]
pub extern "C" fn oxenhush_table_new() -> Table
    ensures { result ≡ empty_table }
{
    Table::new()
}

// Opens a record at the first free number after the last. Value: the number.
#[inline(always)]
#[unsafe(no_mangle)]
pub extern "C" fn oxenhush_new_channel(
    t: Table,
    queue: &[u8],
    staged: &[u8],
    sent: &[u8],
    window_size: u32,
    maxpacket: u32,
) -> Reply
    ensures { left result queue.now staged.now sent.now
        ≡ told (called (lent t queue.now staged.now sent.now) (C.act (C.new_channel window_size maxpacket))) }
{
    let mut table = t;
    let answer = numbers::new_channel(&mut table, queue, staged, sent, window_size, maxpacket);
    Reply::new(answer, table)
}

// Picks a number in the same way and opens nothing. Value: the number.
#[inline(always)]
#[unsafe(no_mangle)]
pub extern "C" fn oxenhush_new_channel_id(
    t: Table,
    queue: &[u8],
    staged: &[u8],
    sent: &[u8],
) -> Reply
    ensures { left result queue.now staged.now sent.now
        ≡ told (called (lent t queue.now staged.now sent.now) (C.act C.new_channel_id)) }
{
    let mut table = t;
    let answer = numbers::new_channel_id(&mut table, queue, staged, sent);
    Reply::new(answer, table)
}

// Opens a confirmed record at a number that the caller gives. No value.
#[inline(always)]
#[unsafe(no_mangle)]
pub extern "C" fn oxenhush_open_for_peer(
    t: Table,
    queue: &[u8],
    staged: &[u8],
    sent: &[u8],
    number: u32,
    peer: u32,
    window_size: u32,
    maxpacket: u32,
    peer_window: u32,
    peer_maxpacket: u32,
) -> Reply
    ensures { left result queue.now staged.now sent.now
        ≡ told (called (lent t queue.now staged.now sent.now) (C.act (C.open_for_peer number peer window_size maxpacket peer_window peer_maxpacket))) }
{
    let mut table = t;
    let answer = numbers::open_for_peer(
        &mut table,
        queue,
        staged,
        sent,
        ChannelId(number),
        PeerNumber(peer),
        window_size,
        maxpacket,
        peer_window,
        peer_maxpacket,
    );
    Reply::new(answer, table)
}

// Data in packets into staged; what the window leaves over is queued. Value: the bytes framed now.
#[inline(always)]
#[unsafe(no_mangle)]
pub extern "C" fn oxenhush_data(
    t: Table,
    queue: &mut [u8],
    staged: &mut [u8],
    sent: &[u8],
    number: u32,
    buf: &[u8],
    rekey: bool,
) -> Reply
    ensures { left result queue.new staged.new sent.now
        ≡ told (called (lent t queue.old staged.old sent.now) (C.put (record { form = C.staged; rekey = rekey }) (C.send K.Plain number buf.now))) }
{
    let mut table = t;
    let answer = sending::data(
        &mut table,
        queue,
        staged,
        sent,
        ChannelId(number),
        buf,
        rekey,
    );
    Reply::new(answer, table)
}

// The same, into sent where nothing is staged.
#[inline(always)]
#[unsafe(no_mangle)]
pub extern "C" fn oxenhush_data_with_writer(
    t: Table,
    queue: &mut [u8],
    staged: &mut [u8],
    sent: &mut [u8],
    number: u32,
    buf: &[u8],
    rekey: bool,
) -> Reply
    ensures { left result queue.new staged.new sent.new
        ≡ told (called (lent t queue.old staged.old sent.old) (C.put (record { form = C.straight; rekey = rekey }) (C.send K.Plain number buf.now))) }
{
    let mut table = t;
    let answer = sending::data_with_writer(
        &mut table,
        queue,
        staged,
        sent,
        ChannelId(number),
        buf,
        rekey,
    );
    Reply::new(answer, table)
}

// Extended data with its code, into staged. Value: the bytes framed now.
#[inline(always)]
#[unsafe(no_mangle)]
pub extern "C" fn oxenhush_extended_data(
    t: Table,
    queue: &mut [u8],
    staged: &mut [u8],
    sent: &[u8],
    number: u32,
    ext: u32,
    buf: &[u8],
    rekey: bool,
) -> Reply
    ensures { left result queue.new staged.new sent.now
        ≡ told (called (lent t queue.old staged.old sent.now) (C.put (record { form = C.staged; rekey = rekey }) (C.send (K.Extended ext) number buf.now))) }
{
    let mut table = t;
    let answer = sending::extended_data(
        &mut table,
        queue,
        staged,
        sent,
        ChannelId(number),
        ext,
        buf,
        rekey,
    );
    Reply::new(answer, table)
}

// The same, into sent where nothing is staged.
#[inline(always)]
#[unsafe(no_mangle)]
pub extern "C" fn oxenhush_extended_data_with_writer(
    t: Table,
    queue: &mut [u8],
    staged: &mut [u8],
    sent: &mut [u8],
    number: u32,
    ext: u32,
    buf: &[u8],
    rekey: bool,
) -> Reply
    ensures { left result queue.new staged.new sent.new
        ≡ told (called (lent t queue.old staged.old sent.old) (C.put (record { form = C.straight; rekey = rekey }) (C.send (K.Extended ext) number buf.now))) }
{
    let mut table = t;
    let answer = sending::extended_data_with_writer(
        &mut table,
        queue,
        staged,
        sent,
        ChannelId(number),
        ext,
        buf,
        rekey,
    );
    Reply::new(answer, table)
}

// No more data will come on the channel. No value.
#[inline(always)]
#[unsafe(no_mangle)]
pub extern "C" fn oxenhush_eof(
    t: Table,
    queue: &[u8],
    staged: &mut [u8],
    sent: &[u8],
    number: u32,
) -> Reply
    ensures { left result queue.now staged.new sent.now
        ≡ told (called (lent t queue.now staged.old sent.now) (C.act (C.eof number))) }
{
    let mut table = t;
    let answer = ending::eof(&mut table, queue, staged, sent, ChannelId(number));
    Reply::new(answer, table)
}

// The channel is closed at this end. No value.
#[inline(always)]
#[unsafe(no_mangle)]
pub extern "C" fn oxenhush_close(
    t: Table,
    queue: &[u8],
    staged: &mut [u8],
    sent: &[u8],
    number: u32,
) -> Reply
    ensures { left result queue.now staged.new sent.now
        ≡ told (called (lent t queue.now staged.old sent.now) (C.act (C.close number))) }
{
    let mut table = t;
    let answer = ending::close(&mut table, queue, staged, sent, ChannelId(number));
    Reply::new(answer, table)
}

// n bytes were received on the channel. Value: 1 if a WINDOW_ADJUST was staged, else 0.
#[inline(always)]
#[unsafe(no_mangle)]
pub extern "C" fn oxenhush_adjust_window_size(
    t: Table,
    queue: &[u8],
    staged: &mut [u8],
    sent: &[u8],
    number: u32,
    n: u32,
    target: u32,
) -> Reply
    ensures { left result queue.now staged.new sent.now
        ≡ told (called (lent t queue.now staged.old sent.now) (C.act (C.adjust number n target))) }
{
    let mut table = t;
    let answer = window::adjust_window_size(
        &mut table,
        queue,
        staged,
        sent,
        ChannelId(number),
        n,
        target,
    );
    Reply::new(answer, table)
}

// The receive window, 0 for an unknown number. Value: that window.
#[tactic(auto, using(answers::proofs::Read::as_window_size), unfolding(crate::specs::Told::told))]
#[inline(always)]
#[unsafe(no_mangle)]
pub extern "C" fn oxenhush_sender_window_size(
    t: Table,
    queue: &[u8],
    staged: &[u8],
    sent: &[u8],
    number: u32,
) -> Numbers
    ensures { left (record { answer = result; table = t }) queue.now staged.now sent.now
        ≡ told (called (lent t queue.now staged.now sent.now) (C.act (C.window_of number))) }
{
    window::sender_window_size(&t, queue, staged, sent, ChannelId(number)).into()
}

// Whether the channel has an entry, no for an unknown number. Value: 1 or 0.
#[tactic(auto, using(answers::proofs::Read::as_pending_data), unfolding(crate::specs::Told::told))]
#[inline(always)]
#[unsafe(no_mangle)]
pub extern "C" fn oxenhush_has_pending_data(
    t: Table,
    queue: &[u8],
    staged: &[u8],
    sent: &[u8],
    number: u32,
) -> Numbers
    ensures { left (record { answer = result; table = t }) queue.now staged.now sent.now
        ≡ told (called (lent t queue.now staged.now sent.now) (C.act (C.has_pending number))) }
{
    window::has_pending_data(&t, queue, staged, sent, ChannelId(number)).into()
}

// The pending flush of one channel into staged. Values: 1, the bytes framed and the two marks if complete, else 0 and the bytes framed.
#[inline(always)]
#[unsafe(no_mangle)]
pub extern "C" fn oxenhush_flush_pending(
    t: Table,
    queue: &mut [u8],
    staged: &mut [u8],
    sent: &[u8],
    number: u32,
) -> Reply
    ensures { left result queue.new staged.new sent.now
        ≡ told (called (lent t queue.old staged.old sent.now) (C.put (record { form = C.staged; rekey = false }) (C.flush number))) }
{
    let mut table = t;
    let answer = pending::flush_pending(&mut table, queue, staged, sent, ChannelId(number));
    Reply::new(answer, table)
}

// The same, straight into sent while staged is empty and rekey is off.
#[inline(always)]
#[unsafe(no_mangle)]
pub extern "C" fn oxenhush_flush_pending_with_writer(
    t: Table,
    queue: &mut [u8],
    staged: &mut [u8],
    sent: &mut [u8],
    number: u32,
    rekey: bool,
) -> Reply
    ensures { left result queue.new staged.new sent.new
        ≡ told (called (lent t queue.old staged.old sent.old) (C.put (record { form = C.straight; rekey = rekey }) (C.flush number))) }
{
    let mut table = t;
    let answer = pending::flush_pending_with_writer(
        &mut table,
        queue,
        staged,
        sent,
        ChannelId(number),
        rekey,
    );
    Reply::new(answer, table)
}

// The pending flush of all channels into staged, in ascending number. Value beside a refusal: the channel that it stopped at.
#[inline(always)]
#[unsafe(no_mangle)]
pub extern "C" fn oxenhush_flush_all_pending(
    t: Table,
    queue: &mut [u8],
    staged: &mut [u8],
    sent: &[u8],
) -> Reply
    ensures { left result queue.new staged.new sent.now
        ≡ told (called (lent t queue.old staged.old sent.now) (C.flush_all (record { form = C.staged; rekey = false }))) }
{
    let mut table = t;
    let answer = pending::flush_all_pending(&mut table, queue, staged, sent);
    Reply::new(answer, table)
}

// The same in the writer form.
#[inline(always)]
#[unsafe(no_mangle)]
pub extern "C" fn oxenhush_flush_all_pending_with_writer(
    t: Table,
    queue: &mut [u8],
    staged: &mut [u8],
    sent: &mut [u8],
    rekey: bool,
) -> Reply
    ensures { left result queue.new staged.new sent.new
        ≡ told (called (lent t queue.old staged.old sent.old) (C.flush_all (record { form = C.straight; rekey = rekey }))) }
{
    let mut table = t;
    let answer = pending::flush_all_pending_with_writer(&mut table, queue, staged, sent, rekey);
    Reply::new(answer, table)
}

// The longest front run of staged's frames that fits moves to sent. Values: 1, the frames and the bytes, or 0 if rekey holds it.
#[inline(always)]
#[unsafe(no_mangle)]
pub extern "C" fn oxenhush_flush(
    t: Table,
    queue: &[u8],
    staged: &mut [u8],
    sent: &mut [u8],
    rekey: bool,
) -> Reply
    ensures { left result queue.now staged.new sent.new
        ≡ told (called (lent t queue.now staged.old sent.old) (C.flush_staged rekey)) }
{
    let mut table = t;
    let answer = staging::flush(&mut table, queue, staged, sent, rekey);
    Reply::new(answer, table)
}

// Sent is emptied. No value.
#[inline(always)]
#[unsafe(no_mangle)]
pub extern "C" fn oxenhush_drain(t: Table, queue: &[u8], staged: &[u8], sent: &mut [u8]) -> Reply
    ensures { left result queue.now staged.now sent.new
        ≡ told (called (lent t queue.now staged.now sent.old) C.drain) }
{
    let mut table = t;
    let answer = staging::drain(&mut table, queue, staged, sent);
    Reply::new(answer, table)
}

// One payload is read and acted on. Values: the message's type and its fields, in their order.
#[inline(always)]
#[unsafe(no_mangle)]
pub extern "C" fn oxenhush_incoming(
    t: Table,
    queue: &mut [u8],
    staged: &mut [u8],
    sent: &[u8],
    payload: &[u8],
) -> Reply
    ensures { left result queue.new staged.new sent.now
        ≡ told (called (lent t queue.old staged.old sent.now) (C.act (C.incoming payload.now))) }
{
    let mut table = t;
    let answer = incoming::incoming(&mut table, queue, staged, sent, payload);
    Reply::new(answer, table)
}
