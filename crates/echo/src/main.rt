// The echo program of the rules: a run of frames on standard input, two channels that send back what they get, and what is sent on
// standard output.
#![tactic(auto)]

ghost use Rattle.std.specs.Prelude.{◌≡◌, ◌≤◌, length};
ghost use Rattle.echo.specs.Ends.{Ends};

use channel::{ChannelData, ChannelId, Kind, Message, Table};
use input::read_full;
use octets::read_u32;
use std::io;

// The program's table, and the buffers that are lent for it, of the sizes of the rules.
#[derive(Drop)]
struct Echo {
    table: Table,
    queue: [u8; 8192],
    staged: [u8; 16384],
    sent: [u8; 16384],
}

impl Echo {
    // No channel yet.
    fn new() -> Echo {
        Echo {
            table: Table::new(),
            queue: [0; 8192],
            staged: [0; 16384],
            sent: [0; 16384],
        }
    }

    // Opens one channel at the next number: receive window 64, limit 32.
    fn open(&mut self) {
        let t = &mut self.table;
        let _ = numbers::new_channel(t, &self.queue, &self.staged, &self.sent, 64, 32);
    }

    // Data goes back on its channel in the writer form, with the same kind.
    fn send_back(&mut self, n: ChannelId, kind: Kind, bytes: &[u8]) {
        let t = &mut self.table;
        let queue = &mut self.queue;
        let staged = &mut self.staged;
        let sent = &mut self.sent;
        let _ = match kind {
            Kind::Plain => sending::data_with_writer(t, queue, staged, sent, n, bytes, false),
            Kind::Extended(code) => sending::extended_data_with_writer(
                t, queue, staged, sent, n, code, bytes, false,
            ),
        };
    }

    // Data is charged with target 64, then sent back. Its text stands within the payload: the reader answers no other.
    fn reply_data(&mut self, payload: &[u8], m: ChannelData) {
        let t = &mut self.table;
        let length = m.text.length;
        let _ = window::adjust_window_size(
            t,
            &self.queue,
            &mut self.staged,
            &self.sent,
            m.recipient,
            length,
            64,
        );
        let rest = payload.get(m.text.start..);
        if let Some(bytes) = rest.and_then(|rest| rest.get(..length as usize)) {
            self.send_back(m.recipient, m.kind, bytes);
        }
    }

    // What a message is answered with: data with data, EOF with EOF, the others with nothing. A refused reply is dropped.
    fn reply(&mut self, payload: &[u8], m: Message) {
        match m {
            Message::Data(d) => self.reply_data(payload, d),
            Message::Eof(n) => {
                let t = &mut self.table;
                let _ = ending::eof(t, &self.queue, &mut self.staged, &self.sent, n);
            }
            _ => {}
        }
    }

    // One frame's payload is fed in. A refused message is skipped.
    fn feed(&mut self, payload: &[u8]) {
        let t = &mut self.table;
        let arrived = incoming::incoming(t, &mut self.queue, &mut self.staged, &self.sent, payload);
        let Ok(m) = arrived else {
            return;
        };
        self.reply(payload, m);
    }

    // What follows each frame: all pending flushed in the writer form, staged flushed, sent written out and drained.
    fn settle(&mut self, rt: &impl Print) -> io::Result<()> {
        let t = &mut self.table;
        let queue = &mut self.queue;
        let staged = &mut self.staged;
        let sent = &mut self.sent;
        let _ = pending::flush_all_pending_with_writer(t, queue, staged, sent, false);
        let _ = staging::flush(t, queue, staged, sent, false);
        if let Some(used) = sent.get(..t.sent_used) {
            rt.write_all(used)?;
        }
        let _ = staging::drain(t, queue, staged, sent);
        Ok(())
    }

    // The frames one after the other, as far as they are whole.
    fn run(&mut self, rt: &impl Print, input: &[u8]) -> io::Result<()> {
        let mut at = 0;
        while let Some(end) = next_frame(input, at) {
            self.feed(&input[at + 4..end]);
            self.settle(rt)?;
            at = end;
        }
        Ok(())
    }
}

// Where the frame that starts at a place ends, if it is whole.
fn next_frame(input: &[u8], at: usize) -> Option<usize>
    requires { at ≤ length input.now }
    ensures { Ends input.now at result }
{
    if input.len() - at < 4 {
        return None;
    }
    let size = read_u32(input, at) as usize;
    let first = at + 4;
    if input.len() - first < size {
        return None;
    }
    Some(first + size)
}

fn main(rt: HostRuntime) -> io::Result<()> {
    // A buffer with its count beside it: docs/RULES.md fixes the 16,384 bytes, and `n` of them came.
    let mut input = [0u8; 16384];
    let n = read_full(&mut rt.stdin(), &mut input)?;
    let mut echo = Echo::new();
    echo.open();
    echo.open();
    echo.run(&rt, &input[..n])
}
