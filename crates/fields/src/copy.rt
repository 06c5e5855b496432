// Bytes copied into a slice.
ghost use Rattle.std.specs.Prelude.{◌≡◌, ◌+◌, ◌≤◌, length};
ghost use Rattle.std.proofs.lemmas.List.Edits.{sets};

// Copies s into out from an offset on.
pub fn copy_in(out: &mut [u8], at: usize, s: &[u8])
    requires { at + length s.now ≤ length out.old }
    ensures { out.new ≡ sets out.old at s.now }
{
    // not `copy_from_slice`, which asks C for memmove
    for i in 0..s.len() {
        out[at + i] = s[i];
    }
}
