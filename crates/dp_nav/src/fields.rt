//! The fields of a line.
ghost use Rattle.std.specs.Prelude.{◌≡◌, ◌≤◌, MatchResult, Ok, Err};
ghost use Rattle.dp_text.specs.{texts_of};
ghost use Rattle.dp_nav.specs.Fields as Fields;

use crate::Skip;

/// A field, counted from 1.
pub(crate) fn field<'a>(fields: &[&'a [u8]], index: usize) -> Result<&'a [u8], Skip>
    requires { 1 ≤ index }
    ensures { MatchResult result (λ text. Fields.field index (texts_of fields.now) ≡ Ok text.now)
        (λ skip. Fields.field index (texts_of fields.now) ≡ Err skip) }
{
    fields
        .get(index - 1)
        .copied()
        .ok_or(Skip::BadField { index })
}
