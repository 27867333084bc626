// Reading one incoming payload: which message it is, with its fields (docs/RULES.md, Incoming).
#![tactic(auto)]

ghost use Rattle.std.specs.Prelude.{◌≡◌, ℕ, ◌≤◌};
ghost use Rattle.channel.specs.declared.Kind.TheVariants as K;
ghost use Rattle.channel.specs.Read.{int, read_message};
ghost use Rattle.reading.specs.Reads.{read_of, confirmation_at, failure_at, credit_at, received_at, IsLastString, IsAlone};

use channel::{
    Adjust, ChannelData, ChannelId, Confirmation, Failure, Kind, Message, PeerNumber, Text,
};
use octets::read_u32;

// The string at the place, where its length stands there and its bytes end the payload.
fn last_string(p: &[u8], at: usize) -> Option<Text>
    requires { at ≤ 4294967308 }
    ensures { IsLastString p.now at result }
{
    if p.len() < at + 4 {
        return None;
    }
    let length = read_u32(p, at);
    (at + 4 + length as usize == p.len()).then_some(Text {
        start: at + 4,
        length,
    })
}

// 91: recipient, sender, window, limit, then anything.
fn read_confirmation(p: &[u8]) -> Option<Message>
    ensures { read_of result ≡ confirmation_at p.now }
{
    if p.len() < 17 {
        return None;
    }
    Some(Message::OpenConfirmation(Confirmation {
        recipient: ChannelId(read_u32(p, 1)),
        sender: PeerNumber(read_u32(p, 5)),
        window: read_u32(p, 9),
        limit: read_u32(p, 13),
    }))
}

// 92: recipient, reason, two strings.
fn read_failure(p: &[u8]) -> Option<Message>
    ensures { read_of result ≡ failure_at p.now }
{
    if p.len() < 13 {
        return None;
    }
    let length = read_u32(p, 9);
    let language = last_string(p, 13 + length as usize)?;
    Some(Message::OpenFailure(Failure {
        recipient: ChannelId(read_u32(p, 1)),
        reason: read_u32(p, 5),
        description: Text { start: 13, length },
        language,
    }))
}

// 93: recipient, bytes to add.
fn read_adjust(p: &[u8]) -> Option<Message>
    ensures { read_of result ≡ credit_at p.now }
{
    if p.len() != 9 {
        return None;
    }
    Some(Message::WindowAdjust(Adjust {
        recipient: ChannelId(read_u32(p, 1)),
        add: read_u32(p, 5),
    }))
}

// 94 and 95: recipient and, from the place on, the data; the kind is the caller's to read.
fn read_data(p: &[u8], kind: Kind, at: usize) -> Option<Message>
    requires { (1 ≤ at) × (at ≤ 9) }
    ensures { read_of result ≡ received_at p.now kind at }
{
    let text = last_string(p, at)?;
    Some(Message::Data(ChannelData {
        recipient: ChannelId(read_u32(p, 1)),
        kind,
        text,
    }))
}

// 95: recipient, code, data.
fn read_extended(p: &[u8]) -> Option<Message>
    ensures { read_of result ≡ received_at p.now (K.Extended (int p.now 5)) 9 }
{
    if p.len() < 9 {
        return None;
    }
    read_data(p, Kind::Extended(read_u32(p, 5)), 9)
}

// 96 and 97: the recipient alone.
fn alone(p: &[u8]) -> Option<ChannelId>
    ensures { IsAlone p.now result }
{
    if p.len() != 5 {
        return None;
    }
    Some(ChannelId(read_u32(p, 1)))
}

// The message that a payload reads as, by its type byte, a number of RFC 4254 (section 9), where it has that type's form.
pub fn read_message(p: &[u8]) -> Option<Message>
    ensures { read_of result ≡ read_message p.now }
{
    match *p.first()? {
        91 => read_confirmation(p),
        92 => read_failure(p),
        93 => read_adjust(p),
        94 => read_data(p, Kind::Plain, 5),
        95 => read_extended(p),
        96 => alone(p).map(Message::Eof),
        97 => alone(p).map(Message::Close),
        _ => None,
    }
}
