ghost use Rattle.std.specs.Prelude.{pos, unsigned_abs, ◌*ℤ◌, ◌≡◌, ◌≤◌};

/// A length of the file, in mm, as the plant has it.
pub(crate) fn nanometres(mm: i64) -> i64
    requires { unsigned_abs mm ≤ 8796093 }
    ensures { result ≡ mm *ℤ pos 1000000 }
{
    mm * 1_000_000
}

/// A heading of the file, in hundredths of a degree, as the plant has it.
pub(crate) fn nanodegrees(hundredths: i64) -> i64
    requires { unsigned_abs hundredths ≤ 35999 }
    ensures { result ≡ hundredths *ℤ pos 10000000 }
{
    hundredths * 10_000_000
}
