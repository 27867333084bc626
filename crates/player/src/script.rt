// A script whole: the lengths of the buffers, and then calls.
ghost use Rattle.std.specs.Prelude.{◌≤◌, length, IfOk, IfSome};

use crate::fields::u32_at;
use crate::lab::{LONGEST, Lab};
use answers::Numbers;
use std::io;

// The lengths of queue, staged and sent, which a script begins with.
fn lengths(script: &[u8]) -> Option<[usize; 3]> {
    let lengths = [0, 4, 8].map(|at| u32_at(script, at) as usize);
    (script.len() >= 12 && lengths.iter().all(|n| *n <= LONGEST)).then_some(lengths)
}

// Plays the calls of a script, which stand behind the lengths of its buffers. Not inlined: where none is played the buffers take no room.
#[inline(never)]
fn play_calls<F: FnMut(&Numbers, &Lab) -> io::Result<()>>(
    lengths: [usize; 3],
    script: &[u8],
    mut after: F,
) -> io::Result<Option<usize>>
    requires { F.IsAlwaysCallable after }
    ensures { IfOk result (λ end. IfSome end (λ place. place ≤ length script.now)) }
{
    let mut lab = Lab::new();
    lab.begin(lengths);
    let mut place = 12;
    // A loop by hand: each step is as long as the call that was made, so no range or iterator counts it.
    while place < script.len() {
        let Some(played) = lab.play(&script[place..]) else {
            return Ok(Some(place));
        };
        place += played.size;
        after(&played.answer, &lab)?;
    }
    Ok(None)
}

// Plays a script, and calls `after` with each call's answer and the state that it leaves. Answers the place of what is no call, where the
// script has such, and 0 where it doesn't begin with three lengths.
pub fn play_script<F: FnMut(&Numbers, &Lab) -> io::Result<()>>(
    script: &[u8],
    after: F,
) -> io::Result<Option<usize>>
    requires { F.IsAlwaysCallable after }
    ensures { IfOk result (λ end. IfSome end (λ place. place ≤ length script.now)) }
{
    let Some(lengths) = lengths(script) else {
        return Ok(Some(0));
    };
    play_calls(lengths, script, after)
}

#[cfg(test)]
mod tests {
    use super::*;
    use std::test::Fail;

    // The script of docs/REPLAY.md.
    const WORKED: &[u8] = b"\0\0\0\x08\0\0\0\x28\0\0\0\x28\
        \x03\0\0\0\x02\0\0\0\x07\0\0\0\x40\0\0\0\x20\0\0\0\x05\0\0\0\x03\
        \x04\0\0\0\0\0\x02\0\0\0\0\0\0\0\0\x08abcdefgh\
        \x0a\0\x05\0\0\0\x09\xff";

    #[test]
    fn up_to_what_is_no_call(rt: HostRuntime) -> Result<(), Fail> {
        let mut refusals = Vec::new(rt.alloc());
        let end = play_script(WORKED, |answer, _| {
            refusals.push(answer.refusal)?;
            Ok(())
        })?;
        assert_eq!(rt; end, Some(68));
        assert_eq!(rt; refusals.as_slice(), [0, 0, 0, 2].as_slice());
        Ok(())
    }

    #[test]
    fn up_to_the_end(rt: HostRuntime) -> Result<(), Fail> {
        assert_eq!(rt; play_script(&WORKED[..37], |_, _| Ok(()))?, None);
        assert_eq!(rt; play_script(&WORKED[..11], |_, _| Ok(()))?, Some(0));
        Ok(())
    }
}
