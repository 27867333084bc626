// The calls of `exports` for C and for any language that calls C: each under its name and with its promise, in an archive (tools/archive).
// What a caller must keep stands in crates/exports/src/lib.rt. They stand here a second time for the C interface: a crate is a library or
// an archive, and never both.

#![tactic(auto)]

ghost use Rattle.std.specs.Prelude.{◌≡◌, false};
ghost use Rattle.channel.specs.declared.Kind.TheVariants as K;
ghost use Rattle.channel.specs.Call as C;
ghost use Rattle.channel.specs.Called.{lent, called};
ghost use Rattle.channel.specs.Raw.{empty_table};
ghost use Rattle.exports.specs.Told.{left, told};

use answers::Numbers;
use channel::Table;
use exports::Reply;

// The empty table.
#[unsafe(no_mangle)]
pub extern "C" fn oxenhush_table_new() -> Table
    ensures { result ≡ empty_table }
{
    exports::oxenhush_table_new()
}

// Opens a record at the first free number after the last. Value: the number.
#[unsafe(no_mangle)]
pub extern "C" fn oxenhush_new_channel(
    t: Table,
    queue: &[u8],
    staged: &[u8],
    sent: &[u8],
    window_size: u32,
    maxpacket: u32,
) -> Reply
    ensures { left result queue.now staged.now sent.now
        ≡ told (called (lent t queue.now staged.now sent.now) (C.act (C.new_channel window_size maxpacket))) }
{
    exports::oxenhush_new_channel(t, queue, staged, sent, window_size, maxpacket)
}

// Picks a number in the same way and opens nothing. Value: the number.
#[unsafe(no_mangle)]
pub extern "C" fn oxenhush_new_channel_id(
    t: Table,
    queue: &[u8],
    staged: &[u8],
    sent: &[u8],
) -> Reply
    ensures { left result queue.now staged.now sent.now
        ≡ told (called (lent t queue.now staged.now sent.now) (C.act C.new_channel_id)) }
{
    exports::oxenhush_new_channel_id(t, queue, staged, sent)
}

// Opens a confirmed record at a number that the caller gives. No value.
#[unsafe(no_mangle)]
pub extern "C" fn oxenhush_open_for_peer(
    t: Table,
    queue: &[u8],
    staged: &[u8],
    sent: &[u8],
    number: u32,
    peer: u32,
    window_size: u32,
    maxpacket: u32,
    peer_window: u32,
    peer_maxpacket: u32,
) -> Reply
    ensures { left result queue.now staged.now sent.now
        ≡ told (called (lent t queue.now staged.now sent.now) (C.act (C.open_for_peer number peer window_size maxpacket peer_window peer_maxpacket))) }
{
    exports::oxenhush_open_for_peer(
        t,
        queue,
        staged,
        sent,
        number,
        peer,
        window_size,
        maxpacket,
        peer_window,
        peer_maxpacket,
    )
}

// Data in packets into staged; what the window leaves over is queued. Value: the bytes framed now.
#[unsafe(no_mangle)]
pub extern "C" fn oxenhush_data(
    t: Table,
    queue: &mut [u8],
    staged: &mut [u8],
    sent: &[u8],
    number: u32,
    buf: &[u8],
    rekey: bool,
) -> Reply
    ensures { left result queue.new staged.new sent.now
        ≡ told (called (lent t queue.old staged.old sent.now) (C.put (record { form = C.staged; rekey = rekey }) (C.send K.Plain number buf.now))) }
{
    exports::oxenhush_data(t, queue, staged, sent, number, buf, rekey)
}

// The same, into sent where nothing is staged.
#[unsafe(no_mangle)]
pub extern "C" fn oxenhush_data_with_writer(
    t: Table,
    queue: &mut [u8],
    staged: &mut [u8],
    sent: &mut [u8],
    number: u32,
    buf: &[u8],
    rekey: bool,
) -> Reply
    ensures { left result queue.new staged.new sent.new
        ≡ told (called (lent t queue.old staged.old sent.old) (C.put (record { form = C.straight; rekey = rekey }) (C.send K.Plain number buf.now))) }
{
    exports::oxenhush_data_with_writer(t, queue, staged, sent, number, buf, rekey)
}

// Extended data with its code, into staged. Value: the bytes framed now.
#[unsafe(no_mangle)]
pub extern "C" fn oxenhush_extended_data(
    t: Table,
    queue: &mut [u8],
    staged: &mut [u8],
    sent: &[u8],
    number: u32,
    ext: u32,
    buf: &[u8],
    rekey: bool,
) -> Reply
    ensures { left result queue.new staged.new sent.now
        ≡ told (called (lent t queue.old staged.old sent.now) (C.put (record { form = C.staged; rekey = rekey }) (C.send (K.Extended ext) number buf.now))) }
{
    exports::oxenhush_extended_data(t, queue, staged, sent, number, ext, buf, rekey)
}

// The same, into sent where nothing is staged.
#[unsafe(no_mangle)]
pub extern "C" fn oxenhush_extended_data_with_writer(
    t: Table,
    queue: &mut [u8],
    staged: &mut [u8],
    sent: &mut [u8],
    number: u32,
    ext: u32,
    buf: &[u8],
    rekey: bool,
) -> Reply
    ensures { left result queue.new staged.new sent.new
        ≡ told (called (lent t queue.old staged.old sent.old) (C.put (record { form = C.straight; rekey = rekey }) (C.send (K.Extended ext) number buf.now))) }
{
    exports::oxenhush_extended_data_with_writer(t, queue, staged, sent, number, ext, buf, rekey)
}

// No more data will come on the channel. No value.
#[unsafe(no_mangle)]
pub extern "C" fn oxenhush_eof(
    t: Table,
    queue: &[u8],
    staged: &mut [u8],
    sent: &[u8],
    number: u32,
) -> Reply
    ensures { left result queue.now staged.new sent.now
        ≡ told (called (lent t queue.now staged.old sent.now) (C.act (C.eof number))) }
{
    exports::oxenhush_eof(t, queue, staged, sent, number)
}

// The channel is closed at this end. No value.
#[unsafe(no_mangle)]
pub extern "C" fn oxenhush_close(
    t: Table,
    queue: &[u8],
    staged: &mut [u8],
    sent: &[u8],
    number: u32,
) -> Reply
    ensures { left result queue.now staged.new sent.now
        ≡ told (called (lent t queue.now staged.old sent.now) (C.act (C.close number))) }
{
    exports::oxenhush_close(t, queue, staged, sent, number)
}

// n bytes were received on the channel. Value: 1 if a WINDOW_ADJUST was staged, else 0.
#[unsafe(no_mangle)]
pub extern "C" fn oxenhush_adjust_window_size(
    t: Table,
    queue: &[u8],
    staged: &mut [u8],
    sent: &[u8],
    number: u32,
    n: u32,
    target: u32,
) -> Reply
    ensures { left result queue.now staged.new sent.now
        ≡ told (called (lent t queue.now staged.old sent.now) (C.act (C.adjust number n target))) }
{
    exports::oxenhush_adjust_window_size(t, queue, staged, sent, number, n, target)
}

// The receive window, 0 for an unknown number. Value: that window.
#[unsafe(no_mangle)]
pub extern "C" fn oxenhush_sender_window_size(
    t: Table,
    queue: &[u8],
    staged: &[u8],
    sent: &[u8],
    number: u32,
) -> Numbers
    ensures { left (record { answer = result; table = t }) queue.now staged.now sent.now
        ≡ told (called (lent t queue.now staged.now sent.now) (C.act (C.window_of number))) }
{
    exports::oxenhush_sender_window_size(t, queue, staged, sent, number)
}

// Whether the channel has an entry, no for an unknown number. Value: 1 or 0.
#[unsafe(no_mangle)]
pub extern "C" fn oxenhush_has_pending_data(
    t: Table,
    queue: &[u8],
    staged: &[u8],
    sent: &[u8],
    number: u32,
) -> Numbers
    ensures { left (record { answer = result; table = t }) queue.now staged.now sent.now
        ≡ told (called (lent t queue.now staged.now sent.now) (C.act (C.has_pending number))) }
{
    exports::oxenhush_has_pending_data(t, queue, staged, sent, number)
}

// The pending flush of one channel into staged. Values: 1, the bytes framed and the two marks if complete, else 0 and the bytes framed.
#[unsafe(no_mangle)]
pub extern "C" fn oxenhush_flush_pending(
    t: Table,
    queue: &mut [u8],
    staged: &mut [u8],
    sent: &[u8],
    number: u32,
) -> Reply
    ensures { left result queue.new staged.new sent.now
        ≡ told (called (lent t queue.old staged.old sent.now) (C.put (record { form = C.staged; rekey = false }) (C.flush number))) }
{
    exports::oxenhush_flush_pending(t, queue, staged, sent, number)
}

// The same, straight into sent while staged is empty and rekey is off.
#[unsafe(no_mangle)]
pub extern "C" fn oxenhush_flush_pending_with_writer(
    t: Table,
    queue: &mut [u8],
    staged: &mut [u8],
    sent: &mut [u8],
    number: u32,
    rekey: bool,
) -> Reply
    ensures { left result queue.new staged.new sent.new
        ≡ told (called (lent t queue.old staged.old sent.old) (C.put (record { form = C.straight; rekey = rekey }) (C.flush number))) }
{
    exports::oxenhush_flush_pending_with_writer(t, queue, staged, sent, number, rekey)
}

// The pending flush of all channels into staged, in ascending number. Value beside a refusal: the channel that it stopped at.
#[unsafe(no_mangle)]
pub extern "C" fn oxenhush_flush_all_pending(
    t: Table,
    queue: &mut [u8],
    staged: &mut [u8],
    sent: &[u8],
) -> Reply
    ensures { left result queue.new staged.new sent.now
        ≡ told (called (lent t queue.old staged.old sent.now) (C.flush_all (record { form = C.staged; rekey = false }))) }
{
    exports::oxenhush_flush_all_pending(t, queue, staged, sent)
}

// The same in the writer form.
#[unsafe(no_mangle)]
pub extern "C" fn oxenhush_flush_all_pending_with_writer(
    t: Table,
    queue: &mut [u8],
    staged: &mut [u8],
    sent: &mut [u8],
    rekey: bool,
) -> Reply
    ensures { left result queue.new staged.new sent.new
        ≡ told (called (lent t queue.old staged.old sent.old) (C.flush_all (record { form = C.straight; rekey = rekey }))) }
{
    exports::oxenhush_flush_all_pending_with_writer(t, queue, staged, sent, rekey)
}

// The longest front run of staged's frames that fits moves to sent. Values: 1, the frames and the bytes, or 0 if rekey holds it.
#[unsafe(no_mangle)]
pub extern "C" fn oxenhush_flush(
    t: Table,
    queue: &[u8],
    staged: &mut [u8],
    sent: &mut [u8],
    rekey: bool,
) -> Reply
    ensures { left result queue.now staged.new sent.new
        ≡ told (called (lent t queue.now staged.old sent.old) (C.flush_staged rekey)) }
{
    exports::oxenhush_flush(t, queue, staged, sent, rekey)
}

// Sent is emptied. No value.
#[unsafe(no_mangle)]
pub extern "C" fn oxenhush_drain(t: Table, queue: &[u8], staged: &[u8], sent: &mut [u8]) -> Reply
    ensures { left result queue.now staged.now sent.new
        ≡ told (called (lent t queue.now staged.now sent.old) C.drain) }
{
    exports::oxenhush_drain(t, queue, staged, sent)
}

// One payload is read and acted on. Values: the message's type and its fields, in their order.
#[unsafe(no_mangle)]
pub extern "C" fn oxenhush_incoming(
    t: Table,
    queue: &mut [u8],
    staged: &mut [u8],
    sent: &[u8],
    payload: &[u8],
) -> Reply
    ensures { left result queue.new staged.new sent.now
        ≡ told (called (lent t queue.old staged.old sent.now) (C.act (C.incoming payload.now))) }
{
    exports::oxenhush_incoming(t, queue, staged, sent, payload)
}
