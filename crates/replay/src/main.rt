// Answers the lines of standard input on standard output, in the vector format. No answer is worked out here: each is what a
// function of names, blocks or refs gives.
#![tactic(auto)]

mod answers;
mod ask;
mod block;
mod input;
mod kept;
mod listing;
mod question;
mod replay;
mod search;
mod text;

use crate::answers::Pending;
use crate::replay::Replay;
use std::io;

// How much is read at once.
const CHUNK: usize = 65536;

// None where nothing came, or the read failed.
fn read_some<'a>(from: &mut impl io::Read, input: &'a mut [u8; CHUNK]) -> Option<&'a [u8]> {
    let len = from.read(input).ok()?;
    if len == 0 {
        return None;
    }
    Some(&input[..len])
}

// Nothing says that the input ends, so the reads are counted, up to a number that no run reaches.
fn main(rt: HostRuntime) {
    let mut from = rt.stdin();
    let mut input = [0u8; CHUNK];
    let mut replay = Replay::new();
    let mut out = Pending::new(&rt);
    for _ in 0..u64::MAX {
        let Some(read) = read_some(&mut from, &mut input) else {
            break;
        };
        replay.take(read, &mut out);
        // Whoever asks may wait for the answer.
        out.flush();
    }
    // The last line may have no end.
    replay.take(b"\n", &mut out);
    out.flush();
}
