//! One line of a record that is made.
ghost use Rattle.std.specs.Prelude.{◌≡◌, ◌≤◌, ◌<◌, ◌+◌, ◌^◌, ◌++◌, length};
ghost use Rattle.std.specs.Fmt.{signed_decimal};
ghost use Rattle.arrayvec.specs.ArrayVec.{array_vec_len};
ghost use Rattle.dp_sentence.specs.{checksum};
ghost use Rattle.dp_sentence.specs.Written.{closed, digit_of};
ghost use Rattle.dp_script.specs.{state_after};
ghost use Rattle.dp_script.specs.Made as made;

use crate::generator::Generator;
use arrayvec::ArrayVec;
use dp_text::{append, append_decimal, append_number};

/// Room for a line of a record.
pub(crate) const LINE: usize = 192;

/// Room for what a wire says.
const SAID: usize = 64;

/// Room for the body of a sentence.
const BODY: usize = 48;

/// Replaces the content by the line at a place of a second, 0 to 8: positions, headings, winds.
#[tactic(auto, unfolding(crate::specs::Made::line_at, crate::specs::Made::draws_at))]
pub(crate) fn write_line(
    into: &mut ArrayVec<u8, LINE>,
    second: u64,
    place: u64,
    generator: &mut Generator,
)
    requires second { second < 2 ^ 32 }
    requires place { place < 9 }
    ensures line { into.new.items ≡ made.line_at second place generator.old.state }
    ensures state { generator.new.state
        ≡ state_after (made.draws_at place) generator.old.state }
{
    if place < 3 {
        let north = generator.draw();
        let east = generator.draw();
        write_place(into, second, place, north, east);
    } else if place < 6 {
        write_heading(into, second, place - 3, generator.draw());
    } else {
        write_wind(into, second, place - 6, generator.draw());
    }
}

#[tactic(auto, unfolding(crate::specs::Made::place_line))]
fn write_place(into: &mut ArrayVec<u8, LINE>, second: u64, i: u64, north: u64, east: u64)
    requires { second < 2 ^ 32 }
    ensures { into.new.items ≡ made.place_line second i north east }
{
    let mut said = ArrayVec::new();
    append(&mut said, b"L ");
    append_number(&mut said, coordinate(north));
    append(&mut said, b" ");
    append_number(&mut said, coordinate(east));
    write_wire(into, second, b" pos", i, &said);
}

/// A coordinate in millimetres, from -500 to 500.
fn coordinate(draw: u64) -> i64
    ensures { result ≡ made.coordinate_of draw }
{
    (draw % 1001) as i64 - 500
}

#[tactic(auto, unfolding(crate::specs::Made::heading_line))]
fn write_heading(into: &mut ArrayVec<u8, LINE>, second: u64, i: u64, draw: u64)
    requires { second < 2 ^ 32 }
    ensures { into.new.items ≡ made.heading_line second i draw }
{
    write_wire(into, second, b" gyro", i, &closed(&heading_body(draw)));
}

#[tactic(auto, unfolding(crate::specs::Made::heading_body))]
fn heading_body(draw: u64) -> ArrayVec<u8, BODY>
    ensures { result.items ≡ made.heading_body draw }
{
    let mut body = ArrayVec::new();
    append(&mut body, b"HEHDT,000.");
    append_decimal(&mut body, draw % 10);
    append(&mut body, b",T");
    body
}

#[tactic(auto, unfolding(crate::specs::Made::wind_line))]
fn write_wind(into: &mut ArrayVec<u8, LINE>, second: u64, i: u64, draw: u64)
    requires { second < 2 ^ 32 }
    ensures { into.new.items ≡ made.wind_line second i draw }
{
    write_wire(into, second, b" wind", i, &closed(&wind_body(draw)));
}

#[tactic(auto, unfolding(crate::specs::Made::wind_body))]
fn wind_body(draw: u64) -> ArrayVec<u8, BODY>
    ensures { result.items ≡ made.wind_body draw }
{
    let mut body = ArrayVec::new();
    append(&mut body, b"WIMWV,045.0,R,0");
    append_decimal(&mut body, draw % 10);
    append(&mut body, b".0,M,A");
    body
}

/// Replaces the content by a wire's line.
#[tactic(auto, unfolding(crate::specs::Made::wire_line))]
fn write_wire(
    into: &mut ArrayVec<u8, LINE>,
    second: u64,
    stem: &[u8],
    i: u64,
    said: &ArrayVec<u8, SAID>,
)
    requires second { second < 2 ^ 32 }
    requires stem { length stem.now ≤ 5 }
    ensures { into.new.items ≡ made.wire_line second stem.now i said.now.items }
{
    into.clear();
    append_decimal(into, 1000 * second);
    append(into, stem);
    append_decimal(into, i);
    append(into, b" ");
    append(into, said);
    append(into, b"\n");
}

/// The sentence of a body: `$`, the body, `*` and the two digits of its checksum.
#[tactic(auto, unfolding(dp_sentence::specs::Written::closed))]
fn closed(body: &ArrayVec<u8, BODY>) -> ArrayVec<u8, SAID>
    ensures { result.items ≡ closed body.now.items }
{
    let sum = checksum(body);
    let mut sentence = ArrayVec::new();
    append(&mut sentence, b"$");
    append(&mut sentence, body);
    append(&mut sentence, &[b'*', digit(sum / 16), digit(sum % 16)]);
    sentence
}

/// The exclusive-or of all bytes.
#[tactic(auto, unfolding(dp_sentence::specs::Checksum::checksum))]
fn checksum(bytes: &[u8]) -> u8
    ensures { result ≡ checksum bytes.now }
{
    let mut sum = 0;
    for byte in bytes {
        sum ^= *byte;
    }
    sum
}

/// The upper-case hexadecimal digit of a number below 16.
fn digit(number: u8) -> u8
    requires { number < 16 }
    ensures { result ≡ digit_of number }
{
    if number < 10 {
        b'0' + number
    } else {
        b'A' - 10 + number
    }
}
