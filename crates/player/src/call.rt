// The calls of a script, with their fields.
ghost use Rattle.std.specs.Prelude.{IfSome};
ghost use Rattle.player.specs.Buffers.{Decodes};
ghost use Rattle.player.specs.Left.{NoLonger, Shorter};

use crate::fields::Fields;
use channel::{ChannelId, Kind, PeerNumber};

// The form of a call, and whether a rekey is on, which the staged form of a pending flush passes over.
#[derive(Clone, Copy)]
pub struct Route {
    pub writer: bool,
    pub rekey: bool,
}

impl Route {
    // Two switches.
    fn read(fields: &mut Fields<'_>) -> Option<Route>
        ensures { NoLonger fields.old fields.new }
    {
        Some(Route {
            writer: fields.switch()?,
            rekey: fields.switch()?,
        })
    }
}

// An opening for the peer.
#[derive(Clone, Copy)]
pub struct Opening {
    pub number: ChannelId,
    pub peer: PeerNumber,
    pub window: u32,
    pub limit: u32,
    pub peer_window: u32,
    pub peer_limit: u32,
}

impl Opening {
    // Six integers.
    fn read(fields: &mut Fields<'_>) -> Option<Opening>
        ensures { NoLonger fields.old fields.new }
    {
        Some(Opening {
            number: ChannelId(fields.u32()?),
            peer: PeerNumber(fields.u32()?),
            window: fields.u32()?,
            limit: fields.u32()?,
            peer_window: fields.u32()?,
            peer_limit: fields.u32()?,
        })
    }
}

// Data to be sent.
#[derive(Clone, Copy)]
pub struct Parcel<'a> {
    pub route: Route,
    pub number: ChannelId,
    pub kind: Kind,
    pub bytes: &'a [u8],
}

impl<'a> Parcel<'a> {
    // The code is there for plain data too, which has none.
    fn read(fields: &mut Fields<'a>) -> Option<Parcel<'a>>
        ensures { NoLonger fields.old fields.new }
    {
        let route = Route::read(fields)?;
        let number = ChannelId(fields.u32()?);
        let extended = fields.switch()?;
        let code = fields.u32()?;
        let kind = if extended {
            Kind::Extended(code)
        } else {
            Kind::Plain
        };
        Some(Parcel {
            route,
            number,
            kind,
            bytes: fields.string()?,
        })
    }
}

// The counts of the table: of the bytes of the three buffers, and of the entries.
#[derive(Clone, Copy)]
pub struct Counts {
    pub queue: u32,
    pub staged: u32,
    pub sent: u32,
    pub entries: u32,
}

impl Counts {
    // Four integers.
    fn read(fields: &mut Fields<'_>) -> Option<Counts>
        ensures { NoLonger fields.old fields.new }
    {
        Some(Counts {
            queue: fields.u32()?,
            staged: fields.u32()?,
            sent: fields.u32()?,
            entries: fields.u32()?,
        })
    }
}

// One of the three buffers.
#[derive(Clone, Copy)]
pub enum Buffer {
    Queue,
    Staged,
    Sent,
}

// The error is the byte that names none.
impl TryFrom<u8> for Buffer {
    type Error = u8;

    ghost try_from_gives = { Decodes };

    fn try_from(byte: u8) -> Result<Buffer, u8> {
        match byte {
            0 => Ok(Buffer::Queue),
            1 => Ok(Buffer::Staged),
            2 => Ok(Buffer::Sent),
            _ => Err(byte),
        }
    }
}

// One call, or damage to the state.
#[derive(Clone, Copy)]
pub enum Call<'a> {
    // window and limit
    NewChannel(u32, u32),
    NewChannelId,
    OpenForPeer(Opening),
    Data(Parcel<'a>),
    Eof(ChannelId),
    Close(ChannelId),
    // received bytes and target
    Adjust(ChannelId, u32, u32),
    FlushPending(Route, ChannelId),
    FlushAllPending(Route),
    // whether a rekey is on
    Flush(bool),
    Drain,
    Incoming(&'a [u8]),
    SenderWindowSize(ChannelId),
    HasPendingData(ChannelId),
    DamageCounts(Counts),
    // the buffer, the place in it and the byte that comes to stand there; no damage where it names no buffer
    DamageByte(Option<Buffer>, u32, u8),
}

impl<'a> Call<'a> {
    // The call that a script goes on with: its number, which is the format's, and its fields. None is unknown, cut short, or has a switch
    // that is neither 0 nor 1.
    pub fn read(fields: &mut Fields<'a>) -> Option<Call<'a>>
        ensures within { NoLonger fields.old fields.new }
        ensures taken { IfSome result (λ x. Shorter fields.old fields.new) }
    {
        Some(match fields.byte()? {
            1 => Call::NewChannel(fields.u32()?, fields.u32()?),
            2 => Call::NewChannelId,
            3 => Call::OpenForPeer(Opening::read(fields)?),
            4 => Call::Data(Parcel::read(fields)?),
            5 => Call::Eof(ChannelId(fields.u32()?)),
            6 => Call::Close(ChannelId(fields.u32()?)),
            7 => Call::Adjust(ChannelId(fields.u32()?), fields.u32()?, fields.u32()?),
            8 => Call::FlushPending(Route::read(fields)?, ChannelId(fields.u32()?)),
            9 => Call::FlushAllPending(Route::read(fields)?),
            10 => Call::Flush(fields.switch()?),
            11 => Call::Drain,
            12 => Call::Incoming(fields.string()?),
            13 => Call::SenderWindowSize(ChannelId(fields.u32()?)),
            14 => Call::HasPendingData(ChannelId(fields.u32()?)),
            15 => Call::DamageCounts(Counts::read(fields)?),
            16 => {
                let buffer = Buffer::try_from(fields.byte()?).ok();
                Call::DamageByte(buffer, fields.u32()?, fields.byte()?)
            }
            _ => return None,
        })
    }
}
