// The tables that the library has, in 01's form: the plain table of 01 and the formal one of 02, S-11; and whether a table is regular. What is answered is in
// specs/Tables.antt.
ghost use Rattle.std.specs.Prelude.{◌≡◌, length};
ghost use Rattle.grammar.specs.Formal.{formal_bytes};
ghost use Rattle.grammar.specs.PlainBytes.{plain_bytes};
ghost use Rattle.numbers.specs.Call.{out_after};
ghost use Rattle.rilvostam.specs.Exported.{call_told};
ghost use Rattle.regular.specs.CheckRegular.{check_regular};
ghost use Rattle.rilvostam.specs.Tables.{supplied, regular_told};

// The plain table.
#[unsafe(no_mangle)]
pub extern "C" fn rilvostam_plain_table(out: &mut [u8], at: &mut u64) -> u32
    ensures status { result ≡ (call_told (supplied plain_bytes (length out.old))).status }
    ensures place { at.new ≡ (call_told (supplied plain_bytes (length out.old))).at }
    ensures output { out.new
        ≡ out_after out.old (supplied plain_bytes (length out.old)) }
{
    rilvostam::tables::rilvostam_plain_table(out, at)
}

// The formal table.
#[unsafe(no_mangle)]
pub extern "C" fn rilvostam_formal_table(out: &mut [u8], at: &mut u64) -> u32
    ensures status { result ≡ (call_told (supplied formal_bytes (length out.old))).status }
    ensures place { at.new ≡ (call_told (supplied formal_bytes (length out.old))).at }
    ensures output { out.new
        ≡ out_after out.old (supplied formal_bytes (length out.old)) }
{
    rilvostam::tables::rilvostam_formal_table(out, at)
}

// Whether a table is regular.
#[unsafe(no_mangle)]
pub extern "C" fn rilvostam_regular_table(table: &[u8], at: &mut u64) -> u32
    ensures status { result ≡ (regular_told (check_regular table.now)).status }
    ensures place { at.new ≡ (regular_told (check_regular table.now)).at }
{
    rilvostam::tables::rilvostam_regular_table(table, at)
}
