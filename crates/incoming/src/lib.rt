// Incoming messages: what one payload does to the state (docs/RULES.md, Incoming).
#![tactic(auto)]

ghost use Rattle.std.specs.Prelude.{◌≡◌};
ghost use Rattle.channel.specs.declared.Message.TheVariants as M;
ghost use Rattle.channel.specs.Call.{act, incoming};
ghost use Rattle.channel.specs.Called.{called, lent, outcome};
ghost use Rattle.channel.specs.Answers.{taken, to_whom};
ghost use Rattle.incoming.specs.Takes.{after, confirming, crediting, hearing, Seen, Takes};

use channel::{ChannelId, Confirmation, Message, Record, Refusal, Table};
use credit::credit;
use frames::put_close;
use lookup::free;
use passes::compact;
use reading::read_message;
use soundness::{Found, see, test};

// A 91 confirms a record that is not confirmed.
#[tactic(auto, unfolding(crate::specs::Takes::confirming, channel::specs::Change::confirm))]
fn confirm(r: &mut Record, m: Confirmation) -> Result<(), Refusal>
    ensures { after result r.new ≡ confirming r.old m }
{
    if r.confirmed {
        return Err(Refusal::Already);
    }
    r.confirmed = true;
    r.recipient_channel = m.sender;
    r.recipient_window_size = m.window;
    r.recipient_maximum_packet_size = m.limit;
    Ok(())
}

// A 93 adds credit to a confirmed record.
#[tactic(auto, unfolding(crate::specs::Takes::crediting))]
fn take_credit(r: &mut Record, add: u32) -> Result<(), Refusal>
    ensures { after result r.new ≡ crediting r.old add }
{
    if !r.confirmed {
        return Err(Refusal::Unconfirmed);
    }
    credit(r, add)
}

// A 94, 95 or 96 alters nothing: a confirmed channel hears it.
#[tactic(auto, unfolding(crate::specs::Takes::hearing))]
fn hear(r: &Record) -> Result<(), Refusal>
    ensures { result ≡ hearing r.now }
{
    if r.confirmed {
        Ok(())
    } else {
        Err(Refusal::Unconfirmed)
    }
}

// A 97 to a confirmed channel stages a CLOSE; the record goes, and the channel's entries with it.
fn take_close(
    t: &mut Table,
    queue: &mut [u8],
    staged: &mut [u8],
    found: Found,
    n: ChannelId,
) -> Result<(), Refusal>
    requires { Seen t.old queue.old staged.old n.0 found }
    ensures { Takes t.old queue.old staged.old found (M.Close n) result t.new queue.new staged.new }
{
    let place = found.place;
    let record = &t.records[place];
    if !record.confirmed {
        return Err(Refusal::Unconfirmed);
    }
    let peer = record.recipient_channel;
    let rest = staged.len() - t.staged_used;
    if rest < 9 {
        return Err(Refusal::Room);
    }
    put_close(staged, t.staged_used, peer);
    t.staged_used += 9;
    free(t, place);
    if found.waits {
        let used = t.queue_used;
        compact(t, queue, n, used);
    }
    Ok(())
}

// What a message does to its channel.
fn take(
    t: &mut Table,
    queue: &mut [u8],
    staged: &mut [u8],
    found: Found,
    m: Message,
) -> Result<(), Refusal>
    requires { Seen t.old queue.old staged.old (to_whom m) found }
    ensures { Takes t.old queue.old staged.old found m result t.new queue.new staged.new }
{
    match m {
        Message::OpenConfirmation(x) => confirm(&mut t.records[found.place], x),
        Message::OpenFailure(_) => {
            if t.records[found.place].confirmed {
                return Err(Refusal::Already);
            }
            free(t, found.place);
            Ok(())
        }
        Message::WindowAdjust(x) => take_credit(&mut t.records[found.place], x.add),
        Message::Data(_) | Message::Eof(_) => hear(&t.records[found.place]),
        Message::Close(n) => take_close(t, queue, staged, found, n),
    }
}

// One payload is read and acted on: its message is the answer. The state is looked at before it is said that the payload is malformed.
pub fn incoming(
    t: &mut Table,
    queue: &mut [u8],
    staged: &mut [u8],
    sent: &[u8],
    payload: &[u8],
) -> Result<Message, Refusal>
    ensures { outcome (taken result) t.new queue.new staged.new sent.now
        ≡ called (lent t.old queue.old staged.old sent.now) (act (incoming payload.now)) }
{
    let Some(message) = read_message(payload) else {
        test(t, queue, staged, sent)?;
        return Err(Refusal::Malformed);
    };
    let found = see(t, queue, staged, sent, message.recipient())?;
    take(t, queue, staged, found, message)?;
    Ok(message)
}
