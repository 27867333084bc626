// The types of the table. The definition of every call over it is in specs/, and the theorems over the definition in proofs/.

#![tactic(auto)]

ghost use Rattle.std.specs.Prelude.{◌≡◌, ◌<◌, length};
ghost use Rattle.channel.specs.declared.Stopped.TheVariants.{Refused};
ghost use Rattle.channel.specs.State as S;
ghost use Rattle.channel.specs.State.{place_count, most_entries, numbers_in_all};
ghost use Rattle.channel.specs.Raw.{empty_table, zero_record, zero_entry};
ghost use Rattle.channel.specs.Called.{AllBytes, Typed, lent};
ghost use Rattle.channel.specs.Answers.{refusal_number, to_whom};

// A channel's number at this end.
#[repr(C)]
#[derive(Debug, Clone, Copy, PartialEq, Eq, PartialOrd, Ord)]
pub struct ChannelId(pub u32);

// A channel's number at the peer's end.
#[repr(C)]
#[derive(Debug, Clone, Copy, PartialEq, Eq)]
pub struct PeerNumber(pub u32);

// One channel: the fields of `ChannelParams` less its queue.
#[repr(C)]
#[derive(Clone, Copy, PartialEq, Eq)]
pub struct Record {
    pub recipient_channel: PeerNumber,
    pub sender_channel: ChannelId,
    pub recipient_window_size: u32,
    pub sender_window_size: u32,
    pub recipient_maximum_packet_size: u32,
    pub sender_maximum_packet_size: u32,
    pub confirmed: bool,
    pub wants_reply: bool,
    pub pending_eof: bool,
    pub pending_close: bool,
}

// Which data: plain, or extended with a code. An `Option` of a code by its shape: docs/RULES.md names the two kinds.
#[derive(Clone, Copy)]
pub enum Kind {
    Plain,
    Extended(u32),
}

// Which data an entry holds, in numbers, so that a table can stand in an exported type: plain, or extended with a code. Of plain data the
// code is not looked at; the calls store 0.
#[repr(C)]
#[derive(Clone, Copy, PartialEq, Eq)]
pub struct StoredKind {
    pub extended: bool,
    pub code: u32,
}

// One pending entry; its bytes stand in the lent queue.
#[repr(C)]
#[derive(Clone, Copy, PartialEq, Eq)]
pub struct Entry {
    pub number: ChannelId,
    pub kind: StoredKind,
    pub left: u32,
}

// The whole table: bit i of `used` says whether place i holds a record. The counts are those of the three lent buffers. Arrays with a word
// or a count beside them, and not maps and vectors: the table has a fixed size, no heap, and the layout that C passes.
#[repr(C)]
#[derive(Clone, Copy)]
pub struct Table {
    pub used: u32,
    pub last: u32,
    pub records: [Record; 32],
    pub entries: [Entry; 64],
    pub entry_count: usize,
    pub queue_used: usize,
    pub staged_used: usize,
    pub sent_used: usize,
}

// Where a string lies in an incoming payload.
#[derive(Clone, Copy)]
pub struct Text {
    pub start: usize,
    pub length: u32,
}

// The fields of an incoming 91.
#[derive(Clone, Copy)]
pub struct Confirmation {
    pub recipient: ChannelId,
    pub sender: PeerNumber,
    pub window: u32,
    pub limit: u32,
}

// The fields of an incoming 92.
#[derive(Clone, Copy)]
pub struct Failure {
    pub recipient: ChannelId,
    pub reason: u32,
    pub description: Text,
    pub language: Text,
}

// The fields of an incoming 93.
#[derive(Clone, Copy)]
pub struct Adjust {
    pub recipient: ChannelId,
    pub add: u32,
}

// The fields of an incoming 94 or 95.
#[derive(Clone, Copy)]
pub struct ChannelData {
    pub recipient: ChannelId,
    pub kind: Kind,
    pub text: Text,
}

// An incoming message: 91, 92, 93, 94 or 95, 96, 97.
#[derive(Clone, Copy)]
pub enum Message {
    OpenConfirmation(Confirmation),
    OpenFailure(Failure),
    WindowAdjust(Adjust),
    Data(ChannelData),
    Eof(ChannelId),
    Close(ChannelId),
}

impl Message {
    // The number of the channel that it is for.
    #[tactic(auto, unfolding(crate::specs::Answers::to_whom))]
    pub fn recipient(&self) -> ChannelId
        ensures { result.0 ≡ to_whom self.now }
    {
        match *self {
            Message::OpenConfirmation(m) => m.recipient,
            Message::OpenFailure(m) => m.recipient,
            Message::WindowAdjust(m) => m.recipient,
            Message::Data(m) => m.recipient,
            Message::Eof(n) | Message::Close(n) => n,
        }
    }
}

// Why a call is refused: the rules' answers 1 to 8, in their order.
#[derive(Debug, Clone, Copy, PartialEq, Eq)]
pub enum Refusal {
    State,
    Unknown,
    Unconfirmed,
    Limit,
    Room,
    Credit,
    Malformed,
    Already,
}

// A refusal's number, as the rules have it.
impl From<Refusal> for u32 {
    ghost from_gives = { λ k n. n ≡ refusal_number k };

    #[tactic(auto, unfolding(crate::specs::Answers::refusal_number))]
    fn from(k: Refusal) -> u32 {
        match k {
            Refusal::State => 1,
            Refusal::Unknown => 2,
            Refusal::Unconfirmed => 3,
            Refusal::Limit => 4,
            Refusal::Room => 5,
            Refusal::Credit => 6,
            Refusal::Malformed => 7,
            Refusal::Already => 8,
        }
    }
}

// A pending flush that left no entry: the bytes framed, and the marks that it cleared.
#[derive(Clone, Copy)]
pub struct Completed {
    pub wrote: usize,
    pub pending_eof: bool,
    pub pending_close: bool,
}

// How far a pending flush of one channel got: the bytes framed where an entry is left, or all.
#[derive(Clone, Copy)]
pub enum ChannelFlushResult {
    Incomplete(usize),
    Complete(Completed),
}

// Why a pending flush of all channels ended early: the channel that it stopped at and why, or a state that is not sound, which names no
// channel.
#[derive(Clone, Copy)]
pub enum Stopped {
    At(ChannelId, Refusal),
    Refused(Refusal),
}

// A refusal before any channel is flushed names none.
impl From<Refusal> for Stopped {
    ghost from_gives = { λ k s. s ≡ Refused k };

    fn from(k: Refusal) -> Self {
        Stopped::Refused(k)
    }
}

// What a staged flush did: nothing during rekey, or the frames and bytes moved. As an `Option` it would not say what `None` is: it may well
// move nothing without a rekey.
#[derive(Clone, Copy)]
pub enum Moved {
    Held,
    Run(usize, usize),
}

// The record of an unused place.
pub fn zero_record() -> Record
    ensures { result ≡ zero_record }
{
    Record {
        recipient_channel: PeerNumber(0),
        sender_channel: ChannelId(0),
        recipient_window_size: 0,
        sender_window_size: 0,
        recipient_maximum_packet_size: 0,
        sender_maximum_packet_size: 0,
        confirmed: false,
        wants_reply: false,
        pending_eof: false,
        pending_close: false,
    }
}

// An unused entry.
pub fn zero_entry() -> Entry
    ensures { result ≡ zero_entry }
{
    Entry {
        number: ChannelId(0),
        kind: StoredKind {
            extended: false,
            code: 0,
        },
        left: 0,
    }
}

// A kind as an entry holds it.
impl From<Kind> for StoredKind {
    ghost from_gives = { λ k s. s ≡ S.stored k };

    #[tactic(auto, unfolding(crate::specs::State::stored))]
    fn from(kind: Kind) -> StoredKind {
        match kind {
            Kind::Plain => StoredKind {
                extended: false,
                code: 0,
            },
            Kind::Extended(code) => StoredKind {
                extended: true,
                code,
            },
        }
    }
}

// The kind that an entry's data goes out under.
impl From<StoredKind> for Kind {
    ghost from_gives = { λ s k. k ≡ S.kind_of s };

    #[tactic(auto, unfolding(crate::specs::State::kind_of))]
    fn from(s: StoredKind) -> Kind {
        if s.extended {
            Kind::Extended(s.code)
        } else {
            Kind::Plain
        }
    }
}

impl Table {
    // The empty table.
    pub fn new() -> Table
        ensures { result ≡ empty_table }
    {
        Table {
            used: 0,
            last: 1,
            records: [zero_record(); 32],
            entries: [zero_entry(); 64],
            entry_count: 0,
            queue_used: 0,
            staged_used: 0,
            sent_used: 0,
        }
    }
}

// What the type of a table says of it. A call for the proofs, which know of what is lent only what they are told; it runs nothing.
fn typed_table(t: &Table)
    ensures { (t.now.used < numbers_in_all)
        × (length t.now.records ≡ place_count)
        × (length t.now.entries ≡ most_entries) }
{
    let _used = t.used;
}

// The same of bytes.
#[tactic(auto, unfolding(crate::specs::Called::AllBytes))]
fn typed_bytes(bytes: &[u8])
    ensures { AllBytes bytes.now }
{
    let _count = bytes.len();
}

// The same of a state, for the crates above.
pub fn typed(t: &Table, queue: &[u8], staged: &[u8], sent: &[u8])
    ensures { Typed (lent t.now queue.now staged.now sent.now) }
{
    typed_table(t);
    typed_bytes(staged);
}
