// The items of a table up to where they end: the strings of a list, and the records, whose index is made on the way. Crate `table_check` reads a whole table by them.
ghost use Rattle.std.specs.Prelude.{◌≡◌, length};
ghost use Rattle.table.specs.Layout.{text};
ghost use Rattle.table.specs.Check.{item, legal_mark, read_texts, read_list, read_records};
ghost use Rattle.table.specs.Answers.{end_of};
ghost use Rattle.table.specs.Filter.{index_size};
ghost use Rattle.record_check.specs.RecordCheck.{RecordCheckIs};
ghost use Rattle.table_check.specs.Indexed.{ItemsIndexed};

use record_check::plain::plain_at;
use record_check::record::check_record;
use record_check::texts::legal_mark;
use table::filter::mark_char;
use table::index::{Index, RecordRun, index_record};
use table::layout::text_at;
use table::shape::{Cause, TableRefusal};

fn mark_item(s: &[u8], at: usize) -> Result<usize, TableRefusal>
    ensures { result ≡ end_of (item at legal_mark (text s.now at)) }
{
    let (p, next) = text_at(s, at).ok_or(Cause::Layout.refusal_at(at))?;
    if legal_mark(s, p) {
        Ok(next)
    } else {
        Err(Cause::Content.refusal_at(at))
    }
}

// The strings of a list, n of them.
fn texts_end(s: &[u8], from: usize, n: usize) -> Result<usize, TableRefusal>
    ensures { result ≡ end_of (read_texts n s.now from) }
{
    let mut at = from;
    for _ in 0..n {
        at = mark_item(s, at)?;
    }
    Ok(at)
}

// A list: its count, then its strings.
pub fn list_end(s: &[u8], at: usize) -> Result<usize, TableRefusal>
    ensures { result ≡ end_of (read_list s.now at) }
{
    if s.len() <= at {
        return Err(Cause::Layout.refusal_at(at));
    }
    let n = s[at] as usize;
    texts_end(s, at + 1, n)
}

// A record. Most are told by few tests.
fn record_item(s: &[u8], at: usize, least: u64) -> Result<(u32, usize), Cause>
    ensures { RecordCheckIs s.now at least result }
{
    match plain_at(s, at, least) {
        Some((code, next)) => Ok((code, next)),
        None => check_record(s, at, least),
    }
}

// The records, n of them, their code points rising. Their index is made on the way, with its filter, and how many entries it has.
pub fn records_end(
    s: &[u8],
    from: usize,
    n: usize,
    offs: &mut [u32],
    entries: &mut usize,
) -> Result<usize, TableRefusal>
    requires { length offs.old ≡ index_size }
    ensures value { result ≡ end_of (read_records n 0 s.now from) }
    ensures indexed { ItemsIndexed s.now from n offs.new entries.new result }
{
    let mut at = from;
    let mut least: u64 = 0;
    let mut index = Index { n: 0, due: n };
    for i in 0..n {
        *entries = index.n;
        let (code, next) = record_item(s, at, least).map_err(|cause| cause.refusal_at(at))?;
        mark_char(offs, code);
        let here = RecordRun {
            at: at,
            left: n - i,
        };
        index = index_record(offs, index, n, here);
        at = next;
        least = code as u64 + 1;
    }
    *entries = index.n;
    Ok(at)
}
