// What a call answers, as numbers: the refusal's, or 0, and the values after it. docs/REPLAY.md has them for each call.
#![tactic(auto)]

ghost use Rattle.std.specs.Prelude.{◌≡◌, ◌≤◌, length};
ghost use Rattle.channel.specs.Answers.{message_of, answer, flush_is, move_is, all_flushed};
ghost use Rattle.channel.specs.Call as C;
ghost use Rattle.channel.specs.declared.Message.TheVariants as M;
ghost use Rattle.answers.specs.Numbers.{listed, numbers_of};

use channel::{ChannelData, ChannelFlushResult, ChannelId, Kind, Message, Moved, Refusal, Stopped};

// The refusal's number, or 0, and the first `count` of the values; the others are 0. An array with a count beside it, and a number for a
// refusal: the C interface, whose exports hand it out.
#[repr(C)]
#[derive(Clone, Copy, Default)]
pub struct Numbers {
    pub refusal: u32,
    pub count: u32,
    pub values: [u64; 7],
}

// A refusal's number, or 0, and the values.
#[tactic(auto, using(crate::proofs::Padded::behind))]
fn list(refusal: u32, values: &[u64]) -> Numbers
    requires { length values.now ≤ 7 }
    ensures { result ≡ listed refusal values.now }
{
    let mut padded = [0; 7];
    padded[..values.len()].copy_from_slice(values);
    Numbers {
        refusal,
        count: values.len() as u32,
        values: padded,
    }
}

// What a call gives where it is not refused.
pub trait Gave {
    // The rules' answer that it stands for.
    ghost gave: { Self → C.Answer };

    // No refusal, and its values.
    fn numbers(self) -> Numbers
        ensures { result ≡ numbers_of (gave self) };
}

// No value.
impl Gave for () {
    ghost gave = { λ u. C.gave C.done };

    fn numbers(self) -> Numbers {
        Numbers::default()
    }
}

// Whether an adjust was staged, or data is pending: yes is 1, no is 0.
impl Gave for bool {
    ghost gave = { λ b. C.gave (C.adjusted b) };

    fn numbers(self) -> Numbers {
        list(0, &[u64::from(self)])
    }
}

// The bytes framed now, or a window.
impl Gave for u32 {
    ghost gave = { λ n. C.gave (C.framed n) };

    fn numbers(self) -> Numbers {
        list(0, &[self.into()])
    }
}

// The number that was picked.
impl Gave for ChannelId {
    ghost gave = { λ n. C.gave (C.number n.0) };

    fn numbers(self) -> Numbers {
        list(0, &[self.0.into()])
    }
}

// Complete is 1, the bytes and the two marks; incomplete is 0 and the bytes.
#[tactic(auto, unfolding(channel::specs::Answers::flush_is))]
impl Gave for ChannelFlushResult {
    ghost gave = { flush_is };

    fn numbers(self) -> Numbers {
        match self {
            ChannelFlushResult::Incomplete(n) => list(0, &[0, n as u64]),
            ChannelFlushResult::Complete(m) => list(
                0,
                &[
                    1,
                    m.wrote as u64,
                    m.pending_eof.into(),
                    m.pending_close.into(),
                ],
            ),
        }
    }
}

// Held is 0; what moved is 1, the frames and the bytes.
#[tactic(auto, unfolding(channel::specs::Answers::move_is))]
impl Gave for Moved {
    ghost gave = { move_is };

    fn numbers(self) -> Numbers {
        match self {
            Moved::Held => list(0, &[0]),
            Moved::Run(frames, bytes) => list(0, &[1, frames as u64, bytes as u64]),
        }
    }
}

// The type 94 or 95 and the fields; only a 95 has a code.
#[tactic(auto, unfolding(channel::specs::Answers::message_of))]
impl Gave for ChannelData {
    ghost gave = { λ m. C.gave (C.message (message_of (M.Data m))) };

    fn numbers(self) -> Numbers {
        let number = self.recipient.0.into();
        let (start, length) = (self.text.start as u64, self.text.length.into());
        match self.kind {
            Kind::Plain => list(0, &[94, number, start, length]),
            Kind::Extended(code) => list(0, &[95, number, code.into(), start, length]),
        }
    }
}

// A message's type and its fields, in their order.
#[tactic(auto, unfolding(channel::specs::Answers::message_of))]
impl Gave for Message {
    ghost gave = { λ m. C.gave (C.message (message_of m)) };

    fn numbers(self) -> Numbers {
        match self {
            Message::OpenConfirmation(m) => list(
                0,
                &[
                    91,
                    m.recipient.0.into(),
                    m.sender.0.into(),
                    m.window.into(),
                    m.limit.into(),
                ],
            ),
            Message::OpenFailure(m) => list(
                0,
                &[
                    92,
                    m.recipient.0.into(),
                    m.reason.into(),
                    m.description.start as u64,
                    m.description.length.into(),
                    m.language.start as u64,
                    m.language.length.into(),
                ],
            ),
            Message::WindowAdjust(m) => list(0, &[93, m.recipient.0.into(), m.add.into()]),
            Message::Data(m) => m.numbers(),
            Message::Eof(n) => list(0, &[96, n.0.into()]),
            Message::Close(n) => list(0, &[97, n.0.into()]),
        }
    }
}

// What the call gave, or its refusal and no value.
#[tactic(auto, unfolding(channel::specs::Answers::answer, channel::specs::Answers::refusal))]
impl<T: Gave> From<Result<T, Refusal>> for Numbers {
    ghost from_gives = { λ r n. n ≡ numbers_of (answer T.gave r) };

    fn from(outcome: Result<T, Refusal>) -> Numbers {
        match outcome {
            Ok(gave) => gave.numbers(),
            Err(k) => list(k.into(), &[]),
        }
    }
}

// Done, or where the flush of all stopped and why: a refusal at a channel has the channel's number after it.
#[tactic(auto, unfolding(channel::specs::Answers::all_flushed, channel::specs::Answers::refusal))]
impl From<Result<(), Stopped>> for Numbers {
    ghost from_gives = { λ r n. n ≡ numbers_of (all_flushed r) };

    fn from(outcome: Result<(), Stopped>) -> Numbers {
        match outcome {
            Ok(done) => done.numbers(),
            Err(Stopped::At(n, k)) => list(k.into(), &[n.0.into()]),
            Err(Stopped::Refused(k)) => list(k.into(), &[]),
        }
    }
}
