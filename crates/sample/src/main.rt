// Plays a file of scripts, each behind its length, and shows of each call what the Rust draft can show too. compare/README.md has the
// lines.
#![tactic(auto)]

mod lines;

use input::read_full;
use lines::write_compared;
use player::{Strings, play_script};
use shown::{Answer, NoCall, Output};
use std::io;
use std::io::Write;

// What is written of a script, with its number in the file, and written out before the next script is played.
fn write_played<W: Write>(out: &mut W, number: usize, script: &[u8]) -> io::Result<()> {
    writeln!(out, "script {number}")?;
    let end = play_script(script, |answer, lab| {
        writeln!(out, "{}", Answer(answer))?;
        write_compared(out, lab)
    })?;
    if let Some(place) = end {
        writeln!(out, "{}", NoCall(place))?;
    }
    out.flush()
}

// Every script of the file, each behind its length, up to one that is cut short.
fn write_file<W: Write>(out: &mut W, file: &[u8]) -> io::Result<()> {
    for (number, script) in Strings(file).enumerate() {
        write_played(out, number, script)?;
    }
    Ok(())
}

// The file is what standard input has, up to 262,144 bytes.
fn main(rt: HostRuntime) -> io::Result<()> {
    let mut file = [0u8; 262144];
    let n = read_full(&mut rt.stdin(), &mut file)?;
    write_file(&mut Output::new(io::writer(&rt)), &file[..n])
}
