// The cases of the rules that are run and not proved: what each call answers is written out, and compared with what was worked out
// by hand (the file `stdout`).
#![tactic(auto)]

use channel::{ChannelFlushResult, ChannelId, PeerNumber, Refusal, Table};
use std::{fmt, io};

// How many bytes a call framed, in words.
#[derive(Drop)]
struct Framed(u32);

impl fmt::Display for Framed {
    fn fmt<W: fmt::Write>(&self, f: &mut fmt::Formatter<W>) -> fmt::Result {
        write!(f, "framed {}", self.0)
    }
}

// How far a pending flush got, in words.
#[derive(Drop)]
struct Flushed(ChannelFlushResult);

impl fmt::Display for Flushed {
    fn fmt<W: fmt::Write>(&self, f: &mut fmt::Formatter<W>) -> fmt::Result {
        match self.0 {
            ChannelFlushResult::Incomplete(n) => write!(f, "incomplete {n}"),
            ChannelFlushResult::Complete(c) => write!(f, "complete {}", c.wrote),
        }
    }
}

// What a call gave, or the number of its refusal.
fn show<T: fmt::Display + Drop>(rt: &impl Print, answer: Result<T, Refusal>) -> io::Result<()> {
    match answer {
        Ok(gave) => print!(rt; " {gave}"),
        Err(k) => print!(rt; " refused {}", u32::from(k)),
    }
}

// A buffer whole, in hexadecimal.
fn show_bytes(rt: &impl Print, bytes: &[u8]) -> io::Result<()> {
    for b in bytes {
        print!(rt; "{b:02x}")?;
    }
    println!(rt)
}

// A table, with the buffers that are lent for it.
#[derive(Drop)]
struct Lent<const QUEUE: usize, const STAGED: usize> {
    table: Table,
    queue: [u8; QUEUE],
    staged: [u8; STAGED],
    sent: [u8; 8],
}

impl<const QUEUE: usize, const STAGED: usize> Lent<QUEUE, STAGED> {
    // The buffers of zeros.
    fn new(table: Table) -> Self {
        Lent {
            table,
            queue: [0; QUEUE],
            staged: [0; STAGED],
            sent: [0; 8],
        }
    }

    // n openings, each at the number that the table picks.
    fn open_many(&mut self, rt: &impl Print, n: u32) -> io::Result<()> {
        for _ in 0..n {
            let t = &mut self.table;
            let opened = numbers::new_channel(t, &self.queue, &self.staged, &self.sent, 64, 32);
            show(rt, opened.map(|number| number.0))?;
        }
        println!(rt)
    }

    // A number picked, and nothing opened at it.
    fn pick(&mut self, rt: &impl Print) -> io::Result<()> {
        let t = &mut self.table;
        let picked = numbers::new_channel_id(t, &self.queue, &self.staged, &self.sent);
        show(rt, picked.map(|number| number.0))
    }

    // An opening for the peer at each of the numbers, with the peer's window 5 and limit 3.
    fn open_at(&mut self, rt: &impl Print, at: &[u32]) -> io::Result<()> {
        for n in at {
            let opened = numbers::open_for_peer(
                &mut self.table,
                &self.queue,
                &self.staged,
                &self.sent,
                ChannelId(*n),
                PeerNumber(7),
                64,
                32,
                5,
                3,
            );
            show(rt, opened.map(|()| "done"))?;
        }
        Ok(())
    }

    // Data on a channel; during rekey it is queued.
    fn put(&mut self, rt: &impl Print, n: u32, bytes: &[u8], rekey: bool) -> io::Result<()> {
        let sent = sending::data(
            &mut self.table,
            &mut self.queue,
            &mut self.staged,
            &self.sent,
            ChannelId(n),
            bytes,
            rekey,
        );
        show(rt, sent.map(Framed))
    }

    // Channel 2 is flushed into staged.
    fn flush_two(&mut self, rt: &impl Print) -> io::Result<()> {
        let flushed = pending::flush_pending(
            &mut self.table,
            &mut self.queue,
            &mut self.staged,
            &self.sent,
            ChannelId(2),
        );
        show(rt, flushed.map(Flushed))?;
        println!(rt)
    }

    // Data queued on channels 2 and 3, which are opened for it, then channel 2 flushed: every byte of both buffers.
    fn queue_and_flush(&mut self, rt: &impl Print, data: &[(u32, &[u8])]) -> io::Result<()> {
        self.open_at(rt, &[2, 3])?;
        for (n, bytes) in data {
            self.put(rt, *n, bytes, true)?;
        }
        self.flush_two(rt)?;
        show_bytes(rt, &self.staged)?;
        show_bytes(rt, &self.queue)
    }
}

// The 33rd opening is refused, of every kind; and a used number is refused first.
fn full_table(rt: &impl Print) -> io::Result<()> {
    let mut lent = Lent::<8, 8>::new(Table::new());
    print!(rt; "33 openings:")?;
    lent.open_many(rt, 33)?;
    print!(rt; "a number alone:")?;
    lent.pick(rt)?;
    print!(rt; "\nfor the peer at 34, at 33:")?;
    lent.open_at(rt, &[34, 33])?;
    println!(rt)
}

// Numbers go round at 2^32 and pass over those in use; a number picked alone is not given again at once.
fn numbers_go_round(rt: &impl Print) -> io::Result<()> {
    print!(rt; "from 4294967294, with 4294967295 and 1 in use:")?;
    let mut table = Table::new();
    table.last = 4294967294;
    let mut lent = Lent::<8, 8>::new(table);
    lent.open_at(rt, &[4294967295, 1])?;
    lent.open_many(rt, 3)?;
    print!(rt; "a number alone, then an opening:")?;
    lent.pick(rt)?;
    lent.open_many(rt, 1)
}

// A state that is not sound is refused: a used place with a number that another has.
fn unsound(rt: &impl Print) -> io::Result<()> {
    print!(rt; "two records of one number:")?;
    let mut table = Table::new();
    table.used = 3;
    Lent::<8, 8>::new(table).open_many(rt, 1)
}

// Data on channel 2 with the peer's window 5 and limit 3, and the buffers that it leaves.
fn sent_on_two<const STAGED: usize>(rt: &impl Print, bytes: &[u8]) -> io::Result<Lent<8, STAGED>> {
    let mut lent = Lent::new(Table::new());
    lent.open_at(rt, &[2])?;
    lent.put(rt, 2, bytes, false)?;
    println!(rt)?;
    Ok(lent)
}

// Packets of 3 and 2, frames of 31 bytes in all, 3 bytes queued: every byte of both buffers.
fn window_five(rt: &impl Print) -> io::Result<()> {
    print!(rt; "window 5, limit 3, 8 bytes:")?;
    let lent = sent_on_two::<40>(rt, b"abcdefgh")?;
    print!(rt; "staged: ")?;
    show_bytes(rt, &lent.staged)?;
    print!(rt; "queue: ")?;
    show_bytes(rt, &lent.queue)
}

// A 3-byte plain packet takes 16 bytes.
fn room_for_three(rt: &impl Print) -> io::Result<()> {
    print!(rt; "3 bytes, 15 free in staged:")?;
    show_bytes(rt, &sent_on_two::<15>(rt, b"abc")?.staged)?;
    print!(rt; "3 bytes, 16 free in staged:")?;
    show_bytes(rt, &sent_on_two::<16>(rt, b"abc")?.staged)
}

// Entries of two channels in turn, and an empty one between two others.
fn in_turn(rt: &impl Print) -> io::Result<()> {
    print!(rt; "2 ab, 3 xy, 2 nothing, 2 cde, 3 z:")?;
    Lent::<12, 40>::new(Table::new()).queue_and_flush(
        rt,
        &[
            (2, b"ab".as_slice()),
            (3, b"xy".as_slice()),
            (2, b"".as_slice()),
            (2, b"cde".as_slice()),
            (3, b"z".as_slice()),
        ],
    )
}

// The window ends inside the second entry.
fn window_ends(rt: &impl Print) -> io::Result<()> {
    print!(rt; "2 abcd, 3 x, 2 efg:")?;
    Lent::<12, 48>::new(Table::new()).queue_and_flush(
        rt,
        &[
            (2, b"abcd".as_slice()),
            (3, b"x".as_slice()),
            (2, b"efg".as_slice()),
        ],
    )
}

// The whole queue is freed.
fn all_freed(rt: &impl Print) -> io::Result<()> {
    print!(rt; "2 abc, in a queue of 3:")?;
    Lent::<3, 16>::new(Table::new()).queue_and_flush(rt, &[(2, b"abc".as_slice())])
}

// 64 empty entries on channel 2, and none more; a flush takes them all, and no byte of either buffer.
fn most_entries(rt: &impl Print) -> io::Result<()> {
    print!(rt; "65 empty entries:")?;
    let mut lent = Lent::<1, 1>::new(Table::new());
    lent.open_at(rt, &[2, 3])?;
    for _ in 0..65 {
        lent.put(rt, 2, b"", true)?;
    }
    print!(rt; "\nflushed, and one more entry:")?;
    lent.flush_two(rt)?;
    lent.put(rt, 2, b"", true)?;
    println!(rt)
}

fn main(rt: HostRuntime) -> io::Result<()> {
    full_table(&rt)?;
    numbers_go_round(&rt)?;
    unsound(&rt)?;
    window_five(&rt)?;
    room_for_three(&rt)?;
    in_turn(&rt)?;
    window_ends(&rt)?;
    all_freed(&rt)?;
    most_entries(&rt)
}
