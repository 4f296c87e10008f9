//! GGA: Global Positioning System fix data (IEC 61162-1, among the approved sentences, formatter GGA).
//!
//! ```text
//! $--GGA,hhmmss.ss,llll.ll,a,yyyyy.yy,a,x,xx,x.x,x.x,M,x.x,M,x.x,xxxx*hh
//! $GPGGA,123519,4807.038,N,01131.000,E,1,08,0.9,545.4,M,46.9,M,,*47
//! ```
//!
//! | Field | Form | What it says | Read |
//! |---|---|---|---|
//! | 1 | `hhmmss.ss` | time of the fix, UTC | |
//! | 2, 3 | `llll.ll`, `a` | latitude in degrees, two digits, and minutes; `N` or `S` | second, third |
//! | 4, 5 | `yyyyy.yy`, `a` | longitude in degrees, three digits, and minutes; `E` or `W` | fourth, fifth |
//! | 6 | `x` | quality of the fix | first |
//! | 7, 8 | `xx`, `x.x` | number of satellites in use, horizontal dilution of precision | |
//! | 9, 10 | `x.x`, `M` | antenna altitude over mean sea level, metres | |
//! | 11, 12 | `x.x`, `M` | geoidal separation, metres | |
//! | 13, 14 | `x.x`, `xxxx` | age of the differential data, reference station | |
//!
//! The standard's qualities are 0 no fix, 1 standard service, 2 differential, 3 precise service, 4 real time kinematic, 5 the same with
//! floating integers, 6 estimated, 7 manual input, 8 simulator. Leading zeros are always there, so degrees and minutes have four or five
//! digits before the point; the point and the decimals may be left out.
//!
//! This project's own are: qualities 1 to 5 count as a fix, and 0, 6, 7 and 8 as none; an angle has at most 20 digits; seven decimals of
//! the minute are kept and those past them cut, before the angle is compared with 90 or 180 degrees; a point with no decimals after it is
//! fine. The reading of the example is the latitude 28870380000 and the longitude 6910000000, in 10^-7 minute.
ghost use Rattle.std.specs.Prelude.{◌≡◌, ◌≤◌, ◌*◌, IfOk, IfSome, unsigned_abs};
ghost use Rattle.dp_text.specs.{texts_of};
ghost use Rattle.dp_nav.specs.Gga as Gga;
ghost use Rattle.dp_nav.specs.ReadingRanges.{IsReadingWithin};

use crate::angles::angle_parts;
use crate::fields::field;
use crate::{Reading, Skip};

/// One whole minute, in 10^-7 minute.
const MINUTE: u64 = 10_000_000;

/// One degree, in 10^-7 minute.
const DEGREE: u64 = 60 * MINUTE;

/// A coordinate of a fix.
#[derive(Clone, Copy)]
pub(crate) enum Coordinate {
    Latitude,
    Longitude,
}

/// The fix of a GGA sentence's fields.
#[tactic(auto, unfolding(crate::specs::Gga::fix_of))]
pub(crate) fn fix(fields: &[&[u8]]) -> Result<Reading, Skip>
    ensures value { result ≡ Gga.fix_of (texts_of fields.now) }
    ensures within { IfOk result IsReadingWithin }
{
    check_quality(fields)?;
    let lat = Coordinate::Latitude.read(fields, 2)?;
    let lon = Coordinate::Longitude.read(fields, 4)?;
    Ok(Reading::Fix { lat, lon })
}

/// Goes on where the quality indicator is one of a fix.
fn check_quality(fields: &[&[u8]]) -> Result<(), Skip>
    ensures { result ≡ Gga.quality_of (texts_of fields.now) }
{
    let is_fix = is_fix(field(fields, 6)?).ok_or(Skip::BadField { index: 6 })?;
    if is_fix { Ok(()) } else { Err(Skip::NotValid) }
}

/// Whether a quality indicator is one of a fix.
fn is_fix(quality: &[u8]) -> Option<bool>
    ensures { result ≡ Gga.is_fix_of quality.now }
{
    match quality {
        [b'1'..=b'5'] => Some(true),
        [b'0' | b'6'..=b'8'] => Some(false),
        _ => None,
    }
}

impl Coordinate {
    /// The coordinate of the angle in field `index` and the letter in the field after it.
    #[tactic(auto, unfolding(crate::specs::Gga::coordinate_of))]
    fn read(self, fields: &[&[u8]], index: usize) -> Result<i64, Skip>
        requires from_one { 1 ≤ index }
        requires few { index ≤ 24 }
        ensures value { result ≡ Gga.coordinate_of self index (texts_of fields.now) }
        ensures bound { IfOk result (λ x. unsigned_abs x ≤ Gga.most_degrees self * 600000000) }
    {
        let angle = self
            .angle(field(fields, index)?)
            .ok_or(Skip::BadField { index })?;
        let index = index + 1;
        let is_negative = self
            .is_negative(field(fields, index)?)
            .ok_or(Skip::BadField { index })?;
        let angle = angle as i64;
        Ok(if is_negative { -angle } else { angle })
    }

    /// An angle in degrees and minutes, in 10^-7 minute.
    #[tactic(auto, unfolding(crate::specs::Gga::angle_of))]
    fn angle(self, text: &[u8]) -> Option<u64>
        ensures value { result ≡ Gga.angle_of self text.now }
        ensures bound { IfSome result (λ angle. angle ≤ Gga.most_degrees self * 600000000) }
    {
        let parts = angle_parts(text, self.degree_digits())?;
        let minutes = parts.minutes;
        let angle = (parts.degrees * 60 + minutes) * MINUTE + parts.rest;
        if minutes < 60 && angle <= self.most_degrees() * DEGREE {
            Some(angle)
        } else {
            None
        }
    }

    /// How many digits the degrees have.
    fn degree_digits(self) -> usize
        ensures value { result ≡ Gga.degree_digits self }
        ensures few { result ≤ 3 }
    {
        match self {
            Coordinate::Latitude => 2,
            Coordinate::Longitude => 3,
        }
    }

    /// The last degree.
    fn most_degrees(self) -> u64
        ensures value { result ≡ Gga.most_degrees self }
        ensures bound { result ≤ 180 }
    {
        match self {
            Coordinate::Latitude => 90,
            Coordinate::Longitude => 180,
        }
    }

    /// Whether the letter after the angle is `S` or `W`, and not `N` or `E`.
    fn is_negative(self, letter: &[u8]) -> Option<bool>
        ensures { result ≡ Gga.is_negative_of self letter.now }
    {
        match (self, letter) {
            (Coordinate::Latitude, [b'N']) | (Coordinate::Longitude, [b'E']) => Some(false),
            (Coordinate::Latitude, [b'S']) | (Coordinate::Longitude, [b'W']) => Some(true),
            _ => None,
        }
    }
}
