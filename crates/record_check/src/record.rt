// A record of the table: its layout (01, cause 4) and what it may hold (cause 5), in one walk. Its strings are looked at in `record_check::texts`, its numbers in
// `record_check::number_fields`, its code point in `record_check::code_point`, and the rule of the type "digit" in `table::digit`.
ghost use Rattle.std.specs.Prelude.{◌≡◌, true, ◌+◌, ◌≤◌, length};
ghost use Rattle.text.specs.Text.{well_formed};
ghost use Rattle.fields.specs.Fields.{le_at};
ghost use Rattle.table.specs.Layout.{bit, map_field, text, optional, read_fields};
ghost use Rattle.table.specs.Check.{all_of, legal_record};
ghost use Rattle.fields.specs.Part.{part_of};
ghost use Rattle.table.specs.Answers.{optionally, opt_text, Within, TextWithin};
ghost use Rattle.record_check.specs.Look.{look_field};
ghost use Rattle.record_check.specs.Content.{texts_fine, rest_fine};
ghost use Rattle.record_check.specs.RecordCheck.{RecordCheckIs};

use crate::code_point::legal_code_point;
use crate::number_fields::numbers_look;
use fields::Part;
use table::bits;
use table::digit::legal_digit;
use table::layout::text_at;
use table::shape::Cause;
use text::Offset;

// Whether a part that is there is UTF-8.
fn well_formed_if(s: &[u8], p: Part, there: bool) -> bool
    requires { Within s.now p }
    ensures { result ≡ all_of well_formed (optionally there (part_of s.now p)) }
{
    if there {
        crate::texts::well_formed(s, p)
    } else {
        true
    }
}

fn legal_texts(s: &[u8], map: u8, kind: Part, rom: Part, script: Part) -> bool
    requires { Within s.now kind × Within s.now rom × Within s.now script }
    ensures { result ≡ texts_fine map (part_of s.now kind) (part_of s.now rom)
        (part_of s.now script) }
{
    if !crate::texts::well_formed(s, kind) {
        return false;
    }
    if !well_formed_if(s, rom, map / bits::ROM % 2 == 1) {
        return false;
    }
    well_formed_if(s, script, map / bits::SCRIPT % 2 == 1)
}

// What the fields hold beside code point and numbers, where those are legal: the digit rule, whose value stands at an offset, and the strings.
fn legal_rest(s: &[u8], head: bool, map: u8, at: usize, kind: Part, rom: Part, script: Part) -> bool
    requires at_in_bounds { bit map 1 ≡ true → at + 8 ≤ length s.now }
    requires within { Within s.now kind × Within s.now rom × Within s.now script }
    ensures { result ≡ rest_fine head map (le_at s.now at 8) (part_of s.now kind)
        (part_of s.now rom) (part_of s.now script) }
{
    if !head {
        return false;
    }
    if !legal_digit(s, map, at, kind, rom) {
        return false;
    }
    legal_texts(s, map, kind, rom, script)
}

// A string that is there or absent.
// Kept as an empty part where it is absent and not an Option: `fields_look` has the map, whose bit says it, as `table::layout::NumProp` does.
fn opt_text_at(s: &[u8], at: usize, there: bool) -> Option<(Part, usize)>
    ensures result_value { opt_text there s.now result ≡ optional there text s.now at }
    ensures within { TextWithin s.now result }
{
    if there {
        text_at(s, at)
    } else {
        let absent = Part {
            at: Offset(0),
            len: 0,
        };
        Some((absent, at))
    }
}

// The fields behind the code point and the map: whether they make a legal record, and the offset behind them.
fn fields_look(s: &[u8], code: u32, map: u8, at: usize, least: u64) -> Option<(bool, usize)>
    ensures { look_field result ≡ map_field (legal_record least) (read_fields code map s.now at) }
{
    let (kind, rom_at) = text_at(s, at)?;
    let (rom, value_at) = opt_text_at(s, rom_at, map / bits::ROM % 2 == 1)?;
    let (numbers, script_at) = numbers_look(s, map, value_at)?;
    let (script, next) = opt_text_at(s, script_at, map / bits::SCRIPT % 2 == 1)?;
    let head = numbers & legal_code_point(code, least);
    Some((legal_rest(s, head, map, value_at, kind, rom, script), next))
}

// The record at an offset, whatever its form.
pub fn check_record(s: &[u8], at: usize, least: u64) -> Result<(u32, usize), Cause>
    ensures { RecordCheckIs s.now at least result }
{
    if s.len() < 5 {
        return Err(Cause::Layout);
    }
    if s.len() - 5 < at {
        return Err(Cause::Layout);
    }
    let code = fields::u32_at(s, at);
    let map = s[at + 4];
    if 128 <= map {
        return Err(Cause::Layout);
    }
    let (legal, next) = fields_look(s, code, map, at + 5, least).ok_or(Cause::Layout)?;
    if legal {
        Ok((code, next))
    } else {
        Err(Cause::Content)
    }
}
