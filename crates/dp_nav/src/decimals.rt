//! Decimal numbers as they stand in fields: `4807.038`.
ghost use Rattle.std.specs.Prelude.{◌≡◌, ◌<◌, ◌≤◌, ◌^◌, length, take, IfSome, MatchOption, false, true};
ghost use Rattle.std.specs.List.{list_all, prefix_len};
ghost use Rattle.std.specs.Char.{is_ascii_digit};
ghost use Rattle.dp_text.specs.{decimal_of, digits_after};
ghost use Rattle.dp_nav.specs.Decimals as Decimals;
ghost use Rattle.dp_nav.specs.Decimals.{is_decimal};

/// The most digits of a decimal.
pub(crate) const MOST_DIGITS: usize = 20;

/// The most digits of a number.
const NUMBER_DIGITS: usize = 18;

/// The digits of a decimal before its point, and those after it.
#[derive(Clone, Copy)]
pub(crate) struct Decimal<'a> {
    pub whole: &'a [u8],
    pub decimals: &'a [u8],
}

/// The decimal that a text is, as a whole number of 10^-k.
#[tactic(auto, unfolding(crate::specs::Decimals::scaled_of))]
pub(crate) fn scaled(text: &[u8], k: usize) -> Option<u128>
    requires { k ≤ 3 }
    ensures value { result ≡ Decimals.scaled_of k text.now }
    ensures bound { IfSome result (λ n. n < 10 ^ 24) }
{
    let decimal = Decimal::read(text)?;
    let whole = wide(decimal.whole)?;
    Some(whole * 10u128.pow(k as u32) + u128::from(kept(decimal.decimals, k)))
}

/// The number of 1 to 20 digits.
fn wide(digits: &[u8]) -> Option<u128>
    ensures value { result ≡ decimal_of 20 digits.now }
    ensures bound { IfSome result (λ n. n < 10 ^ 20) }
{
    if digits.is_empty() || digits.len() > MOST_DIGITS {
        return None;
    }
    let mut number = 0u128;
    for byte in digits {
        if !byte.is_ascii_digit() {
            return None;
        }
        number = number * 10 + u128::from(*byte - b'0');
    }
    Some(number)
}

impl<'a> Decimal<'a> {
    /// The decimal that a text is.
    #[tactic(auto, unfolding(crate::specs::Decimals::is_decimal))]
    pub(crate) fn read(text: &'a [u8]) -> Option<Decimal<'a>>
        ensures { MatchOption result (is_decimal text.now ≡ false)
            (λ d. (is_decimal text.now ≡ true) × (d.whole.now ≡ Decimals.whole text.now)
            × (d.decimals.now ≡ Decimals.decimals text.now)) }
    {
        let decimal = Decimal::cut(text)?;
        if decimal.is_sound() {
            Some(decimal)
        } else {
            None
        }
    }

    /// What comes before the first point, and what comes after it; none where something else than digits comes before it.
    fn cut(text: &'a [u8]) -> Option<Decimal<'a>>
        ensures { MatchOption result (list_all is_ascii_digit (Decimals.whole text.now) ≡ false)
            (λ d. (list_all is_ascii_digit (Decimals.whole text.now) ≡ true)
            × (d.whole.now ≡ Decimals.whole text.now)
            × (d.decimals.now ≡ Decimals.decimals text.now)) }
    {
        let at = digits_len(text);
        if at >= text.len() {
            return Some(Decimal {
                whole: text,
                decimals: &[],
            });
        }
        if text[at] != b'.' {
            return None;
        }
        Some(Decimal {
            whole: &text[..at],
            decimals: &text[at + 1..],
        })
    }

    /// One digit or more, then nothing, or a point and any digits, none too; at most 20 digits.
    fn is_sound(&self) -> bool
        requires { list_all is_ascii_digit self.now.whole.now ≡ true }
        ensures { result ≡ Decimals.is_sound self.now.whole.now self.now.decimals.now }
    {
        !self.whole.is_empty()
            && all_digits(self.decimals)
            && self.whole.len() + self.decimals.len() <= MOST_DIGITS
    }
}

/// How many digits a text begins with.
fn digits_len(text: &[u8]) -> usize
    ensures { result ≡ prefix_len is_ascii_digit text.now }
{
    text.iter().take_while(|byte| byte.is_ascii_digit()).count()
}

/// Whether all bytes are digits.
pub(crate) fn all_digits(text: &[u8]) -> bool
    ensures { result ≡ list_all is_ascii_digit text.now }
{
    text.iter().all(|byte| byte.is_ascii_digit())
}

/// The first `k` decimals as a whole number of 10^-k.
#[tactic(auto, unfolding(crate::specs::Decimals::kept))]
fn kept(decimals: &[u8], k: usize) -> u64
    requires { k ≤ 9 }
    ensures value { result ≡ Decimals.kept k decimals.now }
    ensures bound { result < 10 ^ k }
{
    let prefix = prefix(decimals, k);
    number(prefix) * power(k - prefix.len())
}

/// The first `k` bytes, or all where there are fewer.
pub(crate) fn prefix(text: &[u8], k: usize) -> &[u8]
    ensures value { result.now ≡ take k text.now }
    ensures few { length result.now ≤ k }
{
    if text.len() < k { text } else { &text[..k] }
}

/// The number of up to 18 digits, 0 where there are none.
fn number(digits: &[u8]) -> u64
    requires { length digits.now ≤ 18 }
    ensures value { result ≡ Decimals.number digits.now }
    ensures bound { result < 10 ^ length digits.now }
{
    dp_text::decimal(digits, NUMBER_DIGITS).unwrap_or(0)
}

/// A power of ten.
pub(crate) fn power(k: usize) -> u64
    requires { k ≤ 9 }
    ensures { result ≡ 10 ^ k }
{
    match k {
        0 => 1,
        1 => 10,
        2 => 100,
        3 => 1_000,
        4 => 10_000,
        5 => 100_000,
        6 => 1_000_000,
        7 => 10_000_000,
        8 => 100_000_000,
        _ => 1_000_000_000,
    }
}
