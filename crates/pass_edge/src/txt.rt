// The txt of a stored edge of the pass list (01, "From characters to edges", "Five passes"): its record's rom or the character itself, its digits, or its value.
ghost use Rattle.std.specs.Prelude.{suc, ◌≤◌, ◌<◌, length};
ghost use Rattle.text.specs.Text.{chars};
ghost use Rattle.text.specs.Line.{max_chars};
ghost use Rattle.pass_list.specs.StoredEdge.{StoredEdge, EdgeIs};
ghost use Rattle.pass_list.specs.Edges.{digits_text, txt_of};
ghost use Rattle.numbers.specs.Ready.{Offsets};
ghost use Rattle.pass_edge.specs.Grounded.{LegalAt, StoredIs};
ghost use Rattle.pass_edge.specs.Texts.{char_txt, Front};

use pass_list::kind::{is_character, is_row};
use pass_list::record::PassEdge;
use table::bits;
use text::Place;
use text::check::PLACES;

// The txt of a character whose record was checked: rom, or else the character.
fn char_txt(
    buf: &mut [u8],
    line: &[u8],
    offs: &[usize; PLACES],
    table: &[u8],
    at: usize,
    start: Place,
    end: Place,
) -> usize
    requires { Offsets line.now offs.now × (start.0 ≤ end.0) × (end.0 ≤ length (chars line.now))
        × (length (chars line.now) ≤ max_chars)
        × (length (char_txt (chars line.now) table.now at start.0 end.0) ≤ length buf.old)
        × LegalAt table.now at }
    ensures { Front buf.old buf.new result
        (char_txt (chars line.now) table.now at start.0 end.0) }
{
    if table[at + 4] / bits::ROM % 2 == 1 {
        return crate::put_text(buf, crate::rom_at(table, at));
    }
    crate::put_text(buf, crate::line_part(line, offs, start, end))
}

// The digits of a row over its places go to the front of a buffer, the point in its place (02, S-13): how many bytes.
fn row_txt(buf: &mut [u8], len: usize, value: u64, decimals: u16) -> usize
    requires { (len ≤ length buf.old) × (decimals ≤ 15) × (0 < decimals → suc (suc decimals) ≤ len) }
    ensures { Front buf.old buf.new result (digits_text decimals len value) }
{
    if decimals == 0 {
        whole::decimal::put_padded(buf, 0, len, value);
        return len;
    }
    let after = decimals as usize;
    let before = len - 1 - after;
    let power = decimals::power_of_ten(decimals as u64);
    whole::decimal::put_padded(buf, 0, before, value / power);
    buf[before] = b'.';
    // no more than the last digits of the value
    whole::decimal::put_padded(buf, before + 1, after, value);
    len
}

// The txt of a stored edge goes to the front of a buffer: how many bytes. D1 keeps leading zeros, the other joined txt is the value.
pub fn txt_of(
    buf: &mut [u8],
    line: &[u8],
    offs: &[usize; PLACES],
    table: &[u8],
    edge: PassEdge,
) -> usize
    requires { Offsets line.now offs.now × ((i : StoredEdge) × StoredIs line.now table.now edge i)
        × (length (chars line.now) ≤ max_chars) × (max_chars ≤ length buf.old) }
    ensures { (i : StoredEdge) → EdgeIs edge i
        → Front buf.old buf.new result (txt_of (chars line.now) table.now i) }
{
    let kind = edge.kind;
    if is_character(kind) {
        return char_txt(
            buf,
            line,
            offs,
            table,
            edge.record_at.0,
            edge.start,
            edge.end,
        );
    }
    let value = whole::exact_u64(edge.num.value);
    if is_row(kind) {
        let len = edge.end.0 - edge.start.0;
        return row_txt(buf, len, value, edge.num.decimals);
    }
    whole::decimal::put_decimal(buf, 0, value)
}
