ghost use Rattle.std.specs.Prelude.{◌≡◌, ◌<◌, MatchOption, IfSome, [], ◌∷◌, length};
ghost use Rattle.std.specs.List.{position};
ghost use Rattle.dp_text.specs.{is_newline, lines_of, stripped};

/// The next line, and what comes after it; none where no line is left.
///
/// Where the text `goes_on` past its end, what follows its last line feed isn't a line yet.
pub fn next_line(text: &[u8], goes_on: bool) -> Option<(&[u8], &[u8])>
    ensures next { MatchOption result (lines_of goes_on text.now ≡ [])
        (λ p. lines_of goes_on text.now ≡ p.0.now ∷ lines_of goes_on p.1.now) }
    ensures shorter { IfSome result (λ p. length p.1.now < length text.now) }
{
    let Some(at) = first_newline(text) else {
        if goes_on || text.is_empty() {
            return None;
        }
        return Some((text, &[]));
    };
    Some((strip(&text[..at]), &text[at + 1..]))
}

fn first_newline(text: &[u8]) -> Option<usize>
    ensures value { result ≡ position is_newline text.now }
    ensures bound { IfSome result (λ at. at < length text.now) }
{
    text.iter().position(|b| *b == b'\n')
}

/// A line without the carriage return before its end.
fn strip(line: &[u8]) -> &[u8]
    ensures { result.now ≡ stripped line.now }
{
    if let [prefix @ .., b'\r'] = line {
        prefix
    } else {
        line
    }
}
