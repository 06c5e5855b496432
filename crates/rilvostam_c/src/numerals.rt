// The calls on single numerals (02, S-1, S-4, S-9 and S-10) for C. They are thin, as those of lib.rt.
ghost use Rattle.std.specs.Prelude.{◌≡◌, length};
ghost use Rattle.numeral.specs.Field.{field_of};
ghost use Rattle.worn.specs.Worn as worn;
ghost use Rattle.writing.specs.Written.{written, output};
ghost use Rattle.weights.specs.Weighed as weighed;
ghost use Rattle.rilvostam.specs.Numerals.{written_told, field_told, weights_told, worn_told};

// The numeral of a number, at the front of the output.
#[unsafe(no_mangle)]
pub extern "C" fn rilvostam_write_number(number: u64, out: &mut [u8], at: &mut u64) -> u32
    ensures status { result ≡ (written_told (written number (length out.old))).status }
    ensures place { at.new ≡ (written_told (written number (length out.old))).at }
    ensures output { out.new ≡ output number out.old }
{
    rilvostam::numerals::rilvostam_write_number(number, out, at)
}

// Is the line one number?
#[unsafe(no_mangle)]
pub extern "C" fn rilvostam_read_field(line: &[u8], is_number: &mut u8, at: &mut u64) -> u32
    ensures status { result ≡ (field_told (field_of line.now)).status }
    ensures number { is_number.new ≡ (field_told (field_of line.now)).number }
    ensures value { at.new ≡ (field_told (field_of line.now)).at }
{
    rilvostam::numerals::rilvostam_read_field(line, is_number, at)
}

// The weight of each 一 to 九 of a line, at the front of the output.
#[unsafe(no_mangle)]
pub extern "C" fn rilvostam_weights(line: &[u8], out: &mut [u8], at: &mut u64) -> u32
    ensures status { result
        ≡ (weights_told (weighed.weigh line.now (length out.old))).status }
    ensures count { at.new
        ≡ (weights_told (weighed.weigh line.now (length out.old))).at }
    ensures output { out.new ≡ weighed.output line.now out.old }
{
    rilvostam::numerals::rilvostam_weights(line, out, at)
}

// The characters that may have stood at the line's □, each in a row with the line's value, at the front of the output.
#[unsafe(no_mangle)]
pub extern "C" fn rilvostam_worn_character(line: &[u8], out: &mut [u8], at: &mut u64) -> u32
    ensures status { result ≡ (worn_told (worn.worn line.now (length out.old))).status }
    ensures place { at.new ≡ (worn_told (worn.worn line.now (length out.old))).at }
    ensures output { out.new ≡ worn.output line.now out.old }
{
    rilvostam::numerals::rilvostam_worn_character(line, out, at)
}
