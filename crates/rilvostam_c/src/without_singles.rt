// The C call of 02's S-12: the numbers of a line, without singles that may not stand.
ghost use Rattle.std.specs.Prelude.{◌≡◌, length};
ghost use Rattle.numbers.specs.Call.{add_numbers_without_singles, out_after};
ghost use Rattle.rilvostam.specs.Exported.{call_told};

// The written numbers of a line as a listing of edges, behind those given; some singles are inactive in it.
#[unsafe(no_mangle)]
pub extern "C" fn rilvostam_add_numbers_without_singles(
    line: &[u8],
    table: &[u8],
    edges: &[u8],
    work: &mut [u8],
    out: &mut [u8],
    at: &mut u64,
) -> u32
    ensures status { result ≡ (call_told (add_numbers_without_singles line.now table.now
        edges.now (length work.old) (length out.old))).status }
    ensures place { at.new ≡ (call_told
        (add_numbers_without_singles line.now table.now edges.now
        (length work.old) (length out.old))).at }
    ensures output { out.new
        ≡ out_after out.old (add_numbers_without_singles line.now table.now
        edges.now (length work.old) (length out.old)) }
{
    rilvostam::without_singles::rilvostam_add_numbers_without_singles(
        line, table, edges, work, out, at,
    )
}
