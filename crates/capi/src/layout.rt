// Fields of a record: numbers of 8 bytes, low first, and texts with zeros behind them.
ghost use Rattle.std.specs.Prelude.{◌≡◌, ◌+◌, ◌≤◌, length, take, drop};
ghost use Rattle.capi.specs.Layout.{word_size, word, from_low_first, padded};
ghost use Rattle.capi.specs.Promises.{Wrote};

use names::bytes::lend;
use output::{clear, put};

pub const WORD_SIZE: usize = 8;

// Kept: the C interface's fields lie at fixed places.
#[tactic(auto, using(crate::proofs::Words::word_written))]
pub(crate) fn put_word(out: &mut [u8], at: usize, n: u64)
    ensures { Wrote out.old at (word n) out.new }
{
    put(out, at, &n.to_le_bytes());
}

#[tactic(auto, using(crate::proofs::Words::word_read))]
pub(crate) fn word_at(s: &[u8], at: usize) -> u64
    requires { at + word_size ≤ length s.now }
    ensures { result ≡ from_low_first (take word_size (drop at s.now)) }
{
    let mut bytes = [0u8; WORD_SIZE];
    bytes.copy_from_slice(&s[at..at + WORD_SIZE]);
    u64::from_le_bytes(bytes)
}

// A text in a field of so many bytes, zeros behind it; what is longer is cut.
pub(crate) fn put_padded(out: &mut [u8], at: usize, width: usize, s: &[u8])
    ensures { Wrote out.old at (padded width s.now) out.new }
{
    clear(out, at, width);
    put(out, at, lend(s, width));
}
