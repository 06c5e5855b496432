// The check of a table for C: refusals 4 and 5 as the call would give them, without a line. Thin, as the functions of lib.rt.
ghost use Rattle.std.specs.Prelude.{◌≡◌};
ghost use Rattle.table.specs.Check.{read_table};
ghost use Rattle.rilvostam.specs.TableTold.{table_told};

use table::index::INDEX_SIZE;

// The count of a table's records, or why the bytes are none.
pub fn rilvostam_check_table(table: &[u8], at: &mut u64) -> u32
    ensures status { result ≡ (table_told (read_table table.now)).status }
    ensures place { at.new ≡ (table_told (read_table table.now)).at }
{
    let mut offs = [0u32; INDEX_SIZE];
    let mut entries: usize = 0;
    match table_check::check_table(table, &mut offs, &mut entries) {
        Ok(shape) => {
            *at = shape.count as u64;
            0
        }
        Err(r) => {
            *at = r.at.0 as u64;
            r.cause.number() as u32
        }
    }
}
