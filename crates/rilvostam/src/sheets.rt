// The proof sheet of short numerals (02, S-8) for C. Thin, as the functions of lib.rt.
ghost use Rattle.std.specs.Prelude.{◌≡◌, length};
ghost use Rattle.sheet.specs.Answer.{answer, output};

// The page of the proof sheet from a position on, at the front of the output. Refuses nothing.
pub fn rilvostam_proof_sheet(position: u64, out: &mut [u8], at: &mut u64, next: &mut u64) -> u32
    ensures status { result ≡ 0 }
    ensures bytes { at.new ≡ (answer position (length out.old)).bytes }
    ensures after { next.new ≡ (answer position (length out.old)).next }
    ensures output { out.new ≡ output position out.old }
{
    let page = sheet::proof_sheet(position, out);
    *at = page.bytes as u64;
    *next = page.next;
    0
}
