// Plays a script of calls and shows every answer and the whole state after each call. docs/REPLAY.md has the format.
#![tactic(auto)]

use input::read_full;
use player::play_script;
use shown::{Answer, NoCall, Output, State};
use std::io;
use std::io::Write;

// What is written of a script: an answer and a state for each call, and where it ends in what is no call.
fn write_played<W: Write>(out: &mut W, script: &[u8]) -> io::Result<()> {
    let end = play_script(script, |answer, lab| {
        write!(out, "{}\n{}", Answer(answer), State::of(lab))
    })?;
    if let Some(place) = end {
        writeln!(out, "{}", NoCall(place))?;
    }
    out.flush()
}

// The script is what standard input has, up to 262,144 bytes.
fn main(rt: HostRuntime) -> io::Result<()> {
    let mut script = [0u8; 262144];
    let n = read_full(&mut rt.stdin(), &mut script)?;
    write_played(&mut Output::new(io::writer(&rt)), &script[..n])
}
