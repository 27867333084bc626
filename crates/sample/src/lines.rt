// The lines that the Rust draft can show too. It has a queue for each channel and no places, so records and entries go by number.
use arrayvec::ArrayVec;
use channel::{ChannelId, Table};
use player::{Lab, Strings};
use shown::{Fields, Hex, KindFields, is_used};
use std::io;
use std::io::Write;

// The numbers of the channels, in ascending order, each once. There is room for them: a table has 32 places.
fn numbers(t: &Table) -> ArrayVec<u32, 32> {
    let mut numbers = ArrayVec::new();
    for (place, record) in t.records.iter().enumerate() {
        let number = record.sender_channel.0;
        if is_used(t.used, place) && !numbers.as_slice().contains(&number) {
            let _ = numbers.try_push(number);
        }
    }
    numbers.as_mut_slice().sort_unstable();
    numbers
}

// The line of the record with a number.
fn write_record<W: Write>(out: &mut W, t: &Table, number: ChannelId) -> io::Result<()> {
    for (place, record) in t.records.iter().enumerate() {
        if is_used(t.used, place) && record.sender_channel == number {
            writeln!(out, "c {}", Fields(record))?;
        }
    }
    Ok(())
}

// A line for each entry of the channel with a number, in order of acceptance, with its bytes as far as the queue goes.
fn write_entries<W: Write>(out: &mut W, lab: &Lab, number: ChannelId) -> io::Result<()> {
    let mut queue = lab.queue.as_slice();
    for e in lab.table.entries.iter().take(lab.table.entry_count) {
        let (bytes, rest) = queue.split_at(queue.len().min(e.left as usize));
        if e.number == number {
            let kind = KindFields(e.kind.into());
            let left = e.left;
            writeln!(out, "e {} {kind} {left}{}", number.0, Hex(bytes))?;
        }
        queue = rest;
    }
    Ok(())
}

// A line for each frame of a buffer's used part, in order: its payload.
fn write_frames<W: Write>(out: &mut W, name: char, used: usize, bytes: &[u8]) -> io::Result<()> {
    for payload in Strings(bytes.get(..used).unwrap_or(&[])) {
        writeln!(out, "{name}{}", Hex(payload))?;
    }
    Ok(())
}

// The lines of a state.
pub fn write_compared<W: Write>(out: &mut W, lab: &Lab) -> io::Result<()> {
    let t = &lab.table;
    let numbers = numbers(t);
    writeln!(out, "t {}", t.last)?;
    for n in numbers.as_slice() {
        write_record(out, t, ChannelId(*n))?;
    }
    for n in numbers.as_slice() {
        write_entries(out, lab, ChannelId(*n))?;
    }
    write_frames(out, 's', t.staged_used, lab.staged.as_slice())?;
    write_frames(out, 'o', t.sent_used, lab.sent.as_slice())
}
