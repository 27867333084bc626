// What the test behind answer 1 costs, beside one copy of the table: `soundness::see` over tables that are fuller and fuller, and a copy
// of the same ones, in turn. Every count that is written is worked out by what is timed, so nothing of it can be left out. Times are
// written where the input begins with a `t`; without it each case is run a few times and only the counts are written.
#![tactic(auto)]

use channel::{ChannelId, PeerNumber, Refusal, Table, zero_record};
use input::read_full;
use soundness::see;
use std::io::Read;
use std::time::{CpuClock, Duration};
use std::{fmt, io};

// A confirmed channel more on each of the numbers 2 to end - 1.
fn open_until(t: &mut Table, end: u32) {
    let lent = [0u8; 1];
    for n in 2..end {
        let (id, peer) = (ChannelId(n), PeerNumber(n));
        let _ = numbers::open_for_peer(t, &lent, &lent, &lent, id, peer, 64, 32, 64, 32);
    }
}

// An entry more on channel n. It is empty: the test reads no byte of the queue.
fn put_at(t: &mut Table, n: u32) {
    let (mut queue, mut staged, sent) = ([0u8; 1], [0u8; 1], [0u8; 1]);
    let _ = sending::data(t, &mut queue, &mut staged, &sent, ChannelId(n), b"", true);
}

// How often the table is sound, asked again and again. The last number changes from turn to turn: no answer can be kept for the next.
fn ask(start: &Table, rounds: u32) -> u64 {
    let lent = [0u8; 1];
    let mut t = *start;
    let mut yes = 0u64;
    for i in 0..rounds {
        t.last = i;
        let seen = see(&t, &lent, &lent, &lent, ChannelId(0));
        yes = yes.wrapping_add(u64::from(!matches!(seen, Err(Refusal::State))));
    }
    yes
}

// One copy of the table, with another record in it: the window that is then read shows that it was made.
fn window_in_copy(t: &Table, i: u32) -> u64 {
    let at = (i % 32) as usize;
    let mut next = *t;
    next.records[at] = zero_record();
    u64::from(next.records[31 - at].sender_window_size)
}

// The sum of the windows read from one copy after the other.
fn copy(t: &Table, rounds: u32) -> u64 {
    (0..rounds).fold(0u64, |sum, i| sum.wrapping_add(window_in_copy(t, i)))
}

// The processor time used so far, in microseconds; 0 where the clock fails.
fn micros(rt: &impl CpuClock) -> u64 {
    let used = rt.process_cpu_time().unwrap_or(Duration::ZERO);
    u64::try_from(used.as_micros()).unwrap_or(u64::MAX)
}

// More microseconds than any pass takes.
const NEVER: u64 = 1000000000;

// What the passes over one table came to: the fewest microseconds of a pass of each kind, how often the table was sound, and the windows
// that were read from its copies.
#[derive(Drop)]
struct Measured {
    sound: u64,
    copy: u64,
    yes: u64,
    read: u64,
}

impl Measured {
    // Several passes, of each kind in turn.
    fn of(rt: &impl CpuClock, t: &Table, rounds: u32, passes: u32) -> Measured {
        let mut m = Measured {
            sound: NEVER,
            copy: NEVER,
            yes: 0,
            read: 0,
        };
        for _ in 0..passes {
            m.pass(rt, t, rounds);
        }
        m
    }

    // One pass more of each kind.
    fn pass(&mut self, rt: &impl CpuClock, t: &Table, rounds: u32) {
        let start = micros(rt);
        self.yes = self.yes.wrapping_add(ask(t, rounds));
        let middle = micros(rt);
        self.read = self.read.wrapping_add(copy(t, rounds));
        let end = micros(rt);
        self.sound = self.sound.min(middle.wrapping_sub(start));
        self.copy = self.copy.min(end.wrapping_sub(middle));
    }
}

// A number of hundredths, shown with two decimals.
#[derive(Drop)]
struct Hundredths(u64);

impl fmt::Display for Hundredths {
    fn fmt<W: fmt::Write>(&self, f: &mut fmt::Formatter<W>) -> fmt::Result {
        write!(f, "{}.{:02}", self.0 / 100, self.0 % 100)
    }
}

// Of 100,000 rounds, the nanoseconds of one: 100 microseconds of the whole are a nanosecond of each. No ratio where a copy took none, or
// where no pass was timed.
fn show_times(rt: &impl Print, m: &Measured) -> io::Result<()> {
    print!(rt;
        ", {} ns, a copy {} ns, ratio ",
        Hundredths(m.sound),
        Hundredths(m.copy)
    )?;
    if m.sound < NEVER && m.copy > 0 {
        print!(rt; "{}", Hundredths(m.sound * 100 / m.copy))?;
    }
    Ok(())
}

// One case: its counts, and its times where they are asked for.
fn show(rt: &(impl Print + CpuClock), name: &str, t: &Table, timed: bool) -> io::Result<()> {
    let (rounds, passes) = if timed { (100000, 7) } else { (100, 1) };
    print!(rt; "{name}")?;
    let m = Measured::of(rt, t, rounds, passes);
    print!(rt; ": sound {} times, windows read {}", m.yes, m.read)?;
    if timed {
        show_times(rt, &m)?;
    }
    println!(rt)
}

// Every case, each fuller than the one before.
fn show_all(rt: &(impl Print + CpuClock), timed: bool) -> io::Result<()> {
    show(rt, "no channel", &Table::new(), timed)?;
    let mut two = Table::new();
    open_until(&mut two, 4);
    put_at(&mut two, 2);
    show(rt, "2 channels, 1 entry", &two, timed)?;
    let mut full = Table::new();
    open_until(&mut full, 34);
    show(rt, "32 channels", &full, timed)?;
    for i in 0..64 {
        put_at(&mut full, 2 + i % 32);
    }
    show(rt, "32 channels, 64 entries", &full, timed)
}

// The first byte of the input is a `t`.
fn timed(reader: &mut impl Read) -> io::Result<bool> {
    let mut word = [0u8; 1];
    let _ = read_full(reader, &mut word)?;
    Ok(word[0] == b't')
}

fn main(rt: HostRuntime) -> io::Result<()> {
    let asked = timed(&mut rt.stdin())?;
    show_all(&rt, asked)
}
