// Bytes written into a lent buffer.
#![tactic(auto)]

ghost use Rattle.std.specs.Prelude.{◌≡◌, replicate};
ghost use Rattle.output.specs.Pasted.{pasted};

// Writes s over the buffer from position `at` on; what finds no room is left out.
// Kept: byte by byte, since `copy_from_slice` would ask whoever links the C archive for `memmove`.
// Kept: tried a function that lends the part, here and in `clear`: its clause (`follows`) is found only for a field or a call's result, not for a part of a slice.
pub fn put(out: &mut [u8], at: usize, s: &[u8])
    ensures { out.new ≡ pasted out.old at s.now }
{
    let start = at.min(out.len());
    let n = s.len().min(out.len() - start);
    for i in 0..n {
        out[start + i] = s[i];
    }
}

// Writes so many zeros over the buffer from position `at` on; what finds no room is left out.
#[tactic(auto, using(crate::proofs::Pastes::lent_zeros))]
pub fn clear(out: &mut [u8], at: usize, length: usize)
    ensures { out.new ≡ pasted out.old at (replicate length 0) }
{
    let start = at.min(out.len());
    let n = length.min(out.len() - start);
    out[start..start + n].fill(0);
}
