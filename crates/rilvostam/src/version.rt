// The version of the library that is linked, for C: a program may be built with the header of another one.
ghost use Rattle.std.specs.Prelude.{◌≡◌};
ghost use Rattle.rilvostam.specs.Version.{version};

// One number: its ten thousands are major, the hundreds below them minor, the rest patch.
pub fn rilvostam_version() -> u32
    ensures { result ≡ version }
{
    100
}
