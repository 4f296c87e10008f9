ghost use Rattle.std.specs.Prelude.{◌≡◌, ◌≤◌, ◌<◌, ◌^◌, IfSome, unsigned_abs};
ghost use Rattle.dp_text.specs.{decimal_of, number_of};

/// The most digits of a number.
const DIGITS: usize = 18;

/// The number of 1 to 18 decimal digits, with an optional `-` in front; none where the text is anything else.
pub fn number(text: &[u8]) -> Option<i64>
    ensures value { result ≡ number_of text.now }
    ensures bound { IfSome result (λ n. unsigned_abs n < 10 ^ 18) }
{
    let Some((first, digits)) = text.split_first() else {
        return None;
    };
    if *first == b'-' {
        let size = decimal(digits, DIGITS)?;
        Some(-(size as i64))
    } else {
        let size = decimal(text, DIGITS)?;
        Some(size as i64)
    }
}

/// The number of 1 to `most` decimal digits; none where the text is anything else.
pub fn decimal(text: &[u8], most: usize) -> Option<u64>
    requires { most ≤ 18 }
    ensures value { result ≡ decimal_of most text.now }
    ensures bound { IfSome result (λ n. n < 10 ^ 18) }
{
    if text.is_empty() || text.len() > most {
        return None;
    }
    let mut value = 0u64;
    for byte in text {
        if !byte.is_ascii_digit() {
            return None;
        }
        value = value * 10 + u64::from(*byte - b'0');
    }
    Some(value)
}
