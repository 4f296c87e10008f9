ghost use Rattle.std.specs.Prelude.{◌≡◌, ◌<◌, MatchOption, IfSome, Some, None, length};
ghost use Rattle.std.specs.List.{position};
ghost use Rattle.dp_text.specs.{cut_of, is_space, parts_of, texts_of};

use arrayvec::ArrayVec;

/// What comes before the first space, and what comes after it; none where there is no space.
pub fn cut(text: &[u8]) -> Option<(&[u8], &[u8])>
    ensures { MatchOption result (cut_of text.now ≡ None)
        (λ p. cut_of text.now ≡ Some (p.0.now, p.1.now)) }
{
    let at = first_space(text)?;
    Some((&text[..at], &text[at + 1..]))
}

fn first_space(text: &[u8]) -> Option<usize>
    ensures value { result ≡ position is_space text.now }
    ensures bound { IfSome result (λ at. at < length text.now) }
{
    text.iter().position(|b| *b == b' ')
}

/// The parts between single spaces; none where there are more than `N`.
pub fn split_parts<'a, const N: usize>(text: &'a [u8]) -> Option<ArrayVec<&'a [u8], N>>
    ensures { MatchOption result (N < length (parts_of text.now))
        (λ parts. texts_of parts.items ≡ parts_of text.now) }
{
    let mut parts: ArrayVec<&'a [u8], N> = ArrayVec::new();
    let mut rest = text;
    while let Some((part, after)) = cut(rest) {
        if parts.is_full() {
            return None;
        }
        parts.push(part);
        rest = after;
    }
    if parts.is_full() {
        return None;
    }
    parts.push(rest);
    Some(parts)
}
