//! How a row of a table is read: a string that is parted at signs, with numbers as words.

/// What stands before the first of a sign, and what stands behind it; all and nothing where there is none.
pub fn cut(text: &str, sign: char) -> (&str, &str) {
    text.split_once(sign).unwrap_or((text, ""))
}

/// The parts of a word between its commas, up to five; empty ones at the end.
pub fn parts(word: &str) -> [&str; 5] {
    let (a, rest) = cut(word, ',');
    let (b, rest) = cut(rest, ',');
    let (c, rest) = cut(rest, ',');
    let (d, e) = cut(rest, ',');
    [a, b, c, d, e]
}

/// A whole number; a word that is none reads as the least number, which no row has, so that its row fails.
pub fn number(word: &str) -> i64 {
    word.parse().unwrap_or(i64::MIN)
}

/// A whole number from 0; a word that is none reads as the largest number, which no row has.
pub fn natural(word: &str) -> u64 {
    word.parse().unwrap_or(u64::MAX)
}
