// Messages in frames (docs/RULES.md, Framing): data cut into packets and written into a lent buffer, and the walk over staged.
// What is written is channel's `frame` of the message, or its `frames` of the packets.

#![tactic(auto)]

ghost use Rattle.std.specs.Prelude.{◌≡◌, MatchOption, true, List, ℕ, ◌+◌, ◌-◌, ◌^◌, ◌≤◌, ◌<◌, length, take, drop};
ghost use Rattle.octets.specs.Buf.{write};
ghost use Rattle.channel.specs.State.{most_bytes};
ghost use Rattle.channel.specs.Wire.{data_message, adjust_message, eof_message, close_message, frame, frames, packets};
ghost use Rattle.channel.specs.Step.{fitting};
ghost use Rattle.channel.specs.Raw.{messages_of};
ghost use Rattle.channel.specs.Sound.{whole_frames};
ghost use Rattle.frames.specs.Frame.{over, head, data_head, whole_at};

use channel::{Kind, PeerNumber};
use octets::{copy_in, put_u8, put_u32, read_u32};

// A front run of staged's frames: how many, and their bytes with the lengths.
#[derive(Clone, Copy)]
pub struct Front {
    pub frames: usize,
    pub bytes: usize,
}

// The bytes of a data packet over its data.
fn overhead(kind: Kind) -> usize
    ensures { result ≡ over kind }
{
    match kind {
        Kind::Plain => 13,
        Kind::Extended(_) => 17,
    }
}

// The bytes that n bytes of data take in packets of the limit, whatever they are and whoever they go to. That a limit is not 0 stands in
// each contract that needs it: a record holds any number, and a call refuses the 0.
pub fn size_of_run(kind: Kind, limit: u32, n: u32) -> u64
    requires { 0 < limit }
    ensures { (peer : ℕ) (bs : List ℕ) → length bs ≡ n → result ≡ length (frames (packets kind peer limit bs)) }
{
    let bytes = n as u64;
    let most = limit as u64;
    let count = (bytes + (most - 1)) / most;
    let over = overhead(kind) as u64;
    bytes + count * over
}

// What every frame here begins with: the length of the message, its number and the recipient.
#[tactic(auto, using(crate::proofs::Packets::head_by))]
fn put_head(dst: &mut [u8], at: usize, n: u32, number: u8, peer: PeerNumber)
    requires { at + 9 ≤ length dst.old }
    ensures { dst.new ≡ write at (head n number peer.0) dst.old }
{
    put_u32(dst, at, n);
    put_u8(dst, at + 4, number);
    put_u32(dst, at + 5, peer.0);
}

// SSH_MSG_CHANNEL_EOF, 9 bytes in its frame.
#[tactic(auto, using(crate::proofs::Packets::nine_by), unfolding(channel::specs::Wire::eof_message))]
pub fn put_eof(dst: &mut [u8], at: usize, peer: PeerNumber)
    requires { at + 9 ≤ length dst.old }
    ensures { dst.new ≡ write at (frame (eof_message peer.0)) dst.old }
{
    put_head(dst, at, 5, 96, peer);
}

// SSH_MSG_CHANNEL_CLOSE, 9 bytes in its frame. It differs from EOF in a number, which callers would have to give in place of a name.
#[tactic(auto, using(crate::proofs::Packets::nine_by), unfolding(channel::specs::Wire::close_message))]
pub fn put_close(dst: &mut [u8], at: usize, peer: PeerNumber)
    requires { at + 9 ≤ length dst.old }
    ensures { dst.new ≡ write at (frame (close_message peer.0)) dst.old }
{
    put_head(dst, at, 5, 97, peer);
}

// SSH_MSG_CHANNEL_WINDOW_ADJUST, 13 bytes in its frame.
#[tactic(auto, using(crate::proofs::Packets::adjust_by))]
pub fn put_adjust(dst: &mut [u8], at: usize, peer: PeerNumber, add: u32)
    requires { at + 13 ≤ length dst.old }
    ensures { dst.new ≡ write at (frame (adjust_message peer.0 add)) dst.old }
{
    put_head(dst, at, 9, 93, peer);
    put_u32(dst, at + 9, add);
}

// What stands before a data packet's string of n bytes: SSH_MSG_CHANNEL_DATA or SSH_MSG_CHANNEL_EXTENDED_DATA, the recipient, and an
// extended packet's code.
#[tactic(auto, using(crate::proofs::Packets::after_head), unfolding(crate::specs::Frame::data_head))]
fn put_data_head(dst: &mut [u8], at: usize, kind: Kind, peer: PeerNumber, n: u32)
    requires { (at + over kind ≤ length dst.old) × (n + 13 < 2 ^ 32) }
    ensures { dst.new ≡ write at (data_head kind peer.0 n) dst.old }
{
    match kind {
        Kind::Plain => put_head(dst, at, n + 9, 94, peer),
        Kind::Extended(code) => {
            put_head(dst, at, n + 13, 95, peer);
            put_u32(dst, at + 9, code);
        }
    }
}

// One data packet, 13 bytes over the data or 17. The buffer's limit keeps the lengths within 32 bits; it stands in each contract that needs
// it, since a buffer is a caller's slice, of any length, and has no type of its own.
#[tactic(auto, using(crate::proofs::Packets::data_by))]
fn put_packet(dst: &mut [u8], at: usize, kind: Kind, peer: PeerNumber, src: &[u8])
    requires { (at + (length src.now + over kind) ≤ length dst.old) × (length dst.old ≤ most_bytes) }
    ensures { dst.new ≡ write at (frame (data_message kind peer.0 src.now)) dst.old }
{
    let over = overhead(kind);
    let n = src.len() as u32;
    put_data_head(dst, at, kind, peer, n);
    put_u32(dst, at + over - 4, n);
    copy_in(dst, at + over, src);
}

// All of src in packets of the limit, the last one shorter. The answer is the place after them.
pub fn put_run(
    dst: &mut [u8],
    at: usize,
    kind: Kind,
    peer: PeerNumber,
    limit: u32,
    src: &[u8],
) -> usize
    requires { (0 < limit) × (length dst.old ≤ most_bytes) × (at + length (frames (packets kind peer.0 limit src.now)) ≤ length dst.old) }
    ensures dst_after { dst.new ≡ write at (frames (packets kind peer.0 limit src.now)) dst.old }
    ensures value { result ≡ at + length (frames (packets kind peer.0 limit src.now)) }
{
    let over = overhead(kind);
    let mut pos = at;
    for chunk in src.chunks(limit as usize) {
        put_packet(dst, pos, kind, peer, chunk);
        pos += chunk.len() + over;
    }
    pos
}

// The bytes of the frame at `at`, where it is whole within the used part and not empty. The used count goes with the buffer, which is as
// long as the caller lent it.
pub fn frame_at(staged: &[u8], used: usize, at: usize) -> Option<usize>
    requires { (at ≤ used) × (used ≤ length staged.now) }
    ensures { MatchOption result (whole_at (drop at (take used staged.now)) ≡ 0)
        (λ n. (n ≡ whole_at (drop at (take used staged.now))) × (0 < n) × (n ≤ used - at)) }
{
    let left = used - at;
    if left < 5 {
        return None;
    }
    let n = read_u32(staged, at) as usize;
    if n == 0 || left - 4 < n {
        return None;
    }
    Some(n + 4)
}

// The longest front run of staged's frames that fits the room.
pub fn front_run(staged: &[u8], used: usize, room: usize) -> Front
    requires { (used ≤ length staged.now) × (whole_frames used (take used staged.now) ≡ true) }
    ensures fitting_run { (result.frames ≡ fitting room (messages_of used (take used staged.now))) × (result.bytes ≡ length (frames (take result.frames (messages_of used (take used staged.now))))) }
    ensures bounds { (result.bytes ≤ used) × (result.bytes ≤ room) }
{
    let mut run = Front {
        frames: 0,
        bytes: 0,
    };
    while let Some(n) = frame_at(staged, used, run.bytes) {
        if room - run.bytes < n {
            break;
        }
        run.bytes += n;
        run.frames += 1;
    }
    run
}
