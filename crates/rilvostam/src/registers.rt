// The C call for many lines with one table. Thin, as the functions of lib.rt.
ghost use Rattle.std.specs.Prelude.{◌≡◌, length};
ghost use Rattle.lines.specs.Pages.{add_numbers_to_lines, out_after};
ghost use Rattle.lines.specs.Told.{lines_told};

// A page of the lines' entries, at the front of the output: each what `rilvostam_add_numbers` tells of its line.
pub fn rilvostam_add_numbers_to_lines(
    lines: &[u8],
    table: &[u8],
    work: &mut [u8],
    out: &mut [u8],
    at: &mut u64,
    next: &mut u64,
) -> u32
    ensures status { result ≡ (lines_told (add_numbers_to_lines lines.now table.now
        (length work.old) (length out.old))).status }
    ensures bytes { at.new ≡ (lines_told (add_numbers_to_lines lines.now table.now
        (length work.old) (length out.old))).at }
    ensures after { next.new ≡ (lines_told (add_numbers_to_lines lines.now table.now
        (length work.old) (length out.old))).next }
    ensures output { out.new
        ≡ out_after out.old (add_numbers_to_lines lines.now table.now
        (length work.old) (length out.old)) }
{
    let answer = lines::add_numbers_to_lines(lines, table, work, out);
    let page = lines::told::page_told(answer);
    *at = page.at;
    *next = page.next;
    page.status
}
