//! One look over the body of a line.
ghost use Rattle.std.specs.Prelude.{◌≡◌, ◌≤◌, count_by, length};
ghost use Rattle.std.specs.List.{list_any};
ghost use Rattle.dp_sentence.specs.{checksum, is_bad, is_comma};

const COMMA: u8 = b',';

/// What one look over a text finds.
#[derive(Clone, Copy)]
pub(crate) struct Found {
    /// The exclusive-or of all bytes.
    pub sum: u8,
    /// Whether a byte is outside 32 to 126.
    pub bad: bool,
    /// How many commas there are.
    pub commas: u8,
}

/// Looks at each byte once. It goes to the end and branches at no byte, so that many bytes are done at a time.
#[tactic(auto, unfolding(crate::specs::Checksum::checksum))]
pub(crate) fn look(text: &[u8]) -> Found
    requires { length text.now ≤ 255 }
    ensures sum { result.sum ≡ checksum text.now }
    ensures bad { result.bad ≡ list_any is_bad text.now }
    ensures commas { result.commas ≡ count_by is_comma text.now }
{
    let mut sum = 0;
    let mut bad = false;
    let mut commas = 0;
    for byte in text {
        sum ^= *byte;
        bad |= *byte < 32 || *byte > 126;
        commas += u8::from(*byte == COMMA);
    }
    Found { sum, bad, commas }
}
