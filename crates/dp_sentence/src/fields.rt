//! The parts of a body between its commas.
ghost use Rattle.std.specs.Prelude.{◌≡◌, ◌+◌, ◌<◌, ◌≤◌, [], ◌∷◌, drop, length, map, slice_index_or, take};
ghost use Rattle.std.specs.List.{position_or_len};
ghost use Rattle.dp_sentence.specs.{is_comma, parts};

use arrayvec::ArrayVec;

const COMMA: u8 = b',';

/// The address of a body with this many commas, whose first data fields are kept, as many as there is room for.
pub(crate) fn split<'a, const N: usize>(
    body: &'a [u8],
    commas: u8,
    into: &mut ArrayVec<&'a [u8], N>,
) -> &'a [u8]
    requires commas { length (parts body.now) ≡ commas + 1 }
    requires empty { into.old.items ≡ [] }
    ensures address { result.now ≡ slice_index_or (parts body.now) 0 [] }
    ensures kept { map (λ field. field.now) into.new.items ≡ take N (drop 1 (parts body.now)) }
{
    if commas == 0 {
        return body;
    }
    let (address, rest) = cut(body);
    keep(rest, commas - 1, into);
    address
}

/// Keeps the first parts of a text with this many commas, as many as there is room for.
fn keep<'a, const N: usize>(rest: &'a [u8], commas: u8, into: &mut ArrayVec<&'a [u8], N>)
    requires commas { length (parts rest.now) ≡ commas + 1 }
    requires empty { into.old.items ≡ [] }
    ensures { map (λ field. field.now) into.new.items ≡ take N (parts rest.now) }
{
    let mut rest = rest;
    let mut commas = commas;
    while commas > 0 {
        if into.is_full() {
            return;
        }
        let (field, more) = cut(rest);
        into.push(field);
        rest = more;
        commas -= 1;
    }
    if into.is_full() {
        return;
    }
    into.push(rest);
}

/// The bytes before the first comma, and those after it.
fn cut(text: &[u8]) -> (&[u8], &[u8])
    requires { 1 < length (parts text.now) }
    ensures { parts text.now ≡ result.0.now ∷ parts result.1.now }
{
    let at = comma_place(text);
    (&text[..at], &text[at + 1..])
}

/// The place of the first comma. Since there is one, the end of the text needs no look.
fn comma_place(text: &[u8]) -> usize
    requires { 1 < length (parts text.now) }
    ensures place { result ≡ position_or_len is_comma text.now }
    ensures within { result < length text.now }
{
    let mut at = 0;
    while text[at] != COMMA {
        at += 1;
    }
    at
}
