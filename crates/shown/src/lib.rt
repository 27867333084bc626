// What a call answers and the state that it leaves, as lines of text. docs/REPLAY.md has the format.
#![tactic(auto)]

mod output;

use answers::Numbers;
use arrayvec::ArrayString;
use channel::{Kind, Record, Table};
use itoa::Buffer;
pub use output::Output;
use player::Lab;
use std::fmt;

// The line of a call's answer, less its end.
#[derive(Clone, Copy)]
pub struct Answer<'a>(pub &'a Numbers);

impl fmt::Display for Answer<'_> {
    fn fmt<W: fmt::Write>(&self, f: &mut fmt::Formatter<W>) -> fmt::Result {
        let answer = self.0;
        write!(f, "= {}", answer.refusal)?;
        for value in answer.values.iter().take(answer.count as usize) {
            write!(f, " {value}")?;
        }
        Ok(())
    }
}

// The line for what is no call, with its place in the script, less its end.
#[derive(Clone, Copy)]
pub struct NoCall(pub usize);

impl fmt::Display for NoCall {
    fn fmt<W: fmt::Write>(&self, f: &mut fmt::Formatter<W>) -> fmt::Result {
        let place = self.0;
        write!(f, "! {place}")
    }
}

// The ten fields of a record.
#[derive(Clone, Copy)]
pub struct Fields<'a>(pub &'a Record);

impl fmt::Display for Fields<'_> {
    // The line is put together first: tried a `write!` for each number, which took twice as long.
    fn fmt<W: fmt::Write>(&self, f: &mut fmt::Formatter<W>) -> fmt::Result {
        let r = self.0;
        let numbers = [
            r.sender_channel.0,
            r.recipient_window_size,
            r.sender_window_size,
            r.recipient_maximum_packet_size,
            r.sender_maximum_packet_size,
            r.confirmed.into(),
            r.wants_reply.into(),
            r.pending_eof.into(),
            r.pending_close.into(),
        ];
        let mut line = ArrayString::<80>::new();
        for number in numbers {
            let mut digits = Buffer::new();
            line.try_push_str(" ").map_err(|_| fmt::Error)?;
            line.try_push_str(digits.format(number))
                .map_err(|_| fmt::Error)?;
        }
        write!(f, "{}{}", r.recipient_channel.0, line.as_str())
    }
}

// The kind as a number, and the code, which is 0 for plain data.
#[derive(Clone, Copy)]
pub struct KindFields(pub Kind);

impl fmt::Display for KindFields {
    fn fmt<W: fmt::Write>(&self, f: &mut fmt::Formatter<W>) -> fmt::Result {
        match self.0 {
            Kind::Plain => write!(f, "0 0"),
            Kind::Extended(code) => write!(f, "1 {code}"),
        }
    }
}

// A space and bytes in hexadecimal; nothing where there are none.
#[derive(Clone, Copy)]
pub struct Hex<'a>(pub &'a [u8]);

impl fmt::Display for Hex<'_> {
    fn fmt<W: fmt::Write>(&self, f: &mut fmt::Formatter<W>) -> fmt::Result {
        if !self.0.is_empty() {
            f.write_str(" ")?;
        }
        // By parts: tried a `write!` for each byte, which took seven times as long.
        for part in self.0.chunks(64) {
            let mut digits = [0u8; 128];
            let text = digits.get_mut(..2 * part.len()).unwrap_or_default();
            hex::encode_to_slice(part, text).map_err(|_| fmt::Error)?;
            f.write_str(str::from_utf8(text).map_err(|_| fmt::Error)?)?;
        }
        Ok(())
    }
}

// Whether a place is marked as used; no place from 32 on is.
pub fn is_used(used: u32, place: usize) -> bool {
    place < 32 && (used >> place) % 2 == 1
}

// The sum over a buffer whole.
fn sum(bytes: &[u8]) -> u32 {
    bytes.iter().fold(0u32, |h, b| h.wrapping_mul(31).wrapping_add(u32::from(*b)))
}

// The lines of the whole state. A buffer's line has its name, the used count, the sum over all of it and the used part, as far as the
// buffer goes.
#[derive(Clone, Copy)]
pub struct State<'a> {
    pub table: &'a Table,
    pub queue: &'a [u8],
    pub staged: &'a [u8],
    pub sent: &'a [u8],
}

impl<'a> State<'a> {
    // The state of a lab.
    pub fn of(lab: &'a Lab) -> State<'a> {
        State {
            table: &lab.table,
            queue: lab.queue.as_slice(),
            staged: lab.staged.as_slice(),
            sent: lab.sent.as_slice(),
        }
    }
}

impl fmt::Display for State<'_> {
    fn fmt<W: fmt::Write>(&self, f: &mut fmt::Formatter<W>) -> fmt::Result {
        let t = self.table;
        writeln!(f, "t {} {}", t.last, t.used)?;
        for (place, record) in t.records.iter().enumerate() {
            if is_used(t.used, place) {
                writeln!(f, "p {place} {}", Fields(record))?;
            }
        }
        for e in t.entries.iter().take(t.entry_count) {
            let kind = KindFields(e.kind.into());
            writeln!(f, "e {} {kind} {}", e.number.0, e.left)?;
        }
        let buffers = [
            ('q', t.queue_used, self.queue),
            ('s', t.staged_used, self.staged),
            ('o', t.sent_used, self.sent),
        ];
        for (name, used, bytes) in buffers {
            let sum = sum(bytes);
            let part = Hex(&bytes[..used.min(bytes.len())]);
            writeln!(f, "{name} {used} {sum}{part}")?;
        }
        Ok(())
    }
}
