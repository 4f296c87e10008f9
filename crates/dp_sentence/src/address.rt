//! The address field.
ghost use Rattle.std.specs.Prelude.{◌≡◌};
ghost use Rattle.dp_sentence.specs.{formatter_of, talker_of};

/// The talker and the formatter of an address.
pub(crate) fn talker_and_formatter(address: &[u8]) -> (&[u8], &[u8])
    ensures talker { result.0.now ≡ talker_of address.now }
    ensures formatter { result.1.now ≡ formatter_of address.now }
{
    let is_standard = address.len() == 5 && address[0] != b'P';
    address.split_at(if is_standard { 2 } else { address.len() })
}
