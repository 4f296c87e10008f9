//! Lines with what they say on a wire. The expected values come from a reader written apart from this one.
//!
//! A row is `WIRE|LINE|ANSWER`. An answer is a reading (`fix LATITUDE,LONGITUDE`, `place NORTH,EAST`, `heading ANGLE`, `wind ANGLE,SPEED`,
//! `ready`, `lost`), or why there is none: `other` formatter, `invalid` data, or a bad `field` with its number.
use dp_nav::{Reading, Skip, WireKind, plain, sensed};
use dp_plant::Gust;
use dp_sentence::read;
use dp_test_rows::{cut, natural, number, parts};
use std::process::Abort;

#[test]
fn fixes(rt: HostRuntime) {
    let rows = FIXES;
    check_all(&rt, &rows);
}

#[test]
fn headings_and_winds(rt: HostRuntime) {
    let rows = HEADINGS_AND_WINDS;
    check_all(&rt, &rows);
}

#[test]
fn whole_sentences(rt: HostRuntime) {
    let rows = SENTENCES;
    check_all(&rt, &rows);
}

#[test]
fn plain_forms(rt: HostRuntime) {
    let rows = PLAIN_FORMS;
    check_all(&rt, &rows);
}

fn check_all(rt: &impl Abort, rows: &[&str]) {
    for row in rows {
        let (wire, rest) = cut(row, '|');
        let (line, wanted) = cut(rest, '|');
        let said = said(rt, kind(rt, wire), line);
        assert!(rt; is_said(said, wanted), "{row}");
    }
}

fn kind(rt: &impl Abort, wire: &str) -> WireKind {
    if wire == "pos" {
        return WireKind::Position;
    }
    if wire == "gyro" {
        return WireKind::Gyro;
    }
    if wire == "wind" {
        return WireKind::Wind;
    }
    assert!(rt; wire == "grp", "{wire}");
    WireKind::Group
}

/// What a line says on a wire, as a plain form or as a sentence.
fn said(rt: &impl Abort, kind: WireKind, line: &str) -> Result<Reading, Skip> {
    match line.as_bytes() {
        [b'L' | b'G', ..] => plain(kind, line.as_bytes()),
        bytes => sensed(kind, &read(bytes).expect(rt, "a sentence")),
    }
}

fn is_said(said: Result<Reading, Skip>, wanted: &str) -> bool {
    let (word, rest) = cut(wanted, ' ');
    let [first, second, _, _, _] = parts(rest);
    match said {
        Ok(Reading::Fix { lat, lon }) => {
            word == "fix" && lat == number(first) && lon == number(second)
        }
        Ok(Reading::Local { north, east }) => {
            word == "place" && north == number(first) && east == number(second)
        }
        Ok(Reading::Heading(angle)) => word == "heading" && u64::from(angle) == natural(first),
        Ok(Reading::Wind(Gust { angle, speed })) => {
            word == "wind"
                && u64::from(angle) == natural(first)
                && u64::from(speed) == natural(second)
        }
        Ok(Reading::Group(true)) => word == "ready",
        Ok(Reading::Group(false)) => word == "lost",
        Err(Skip::OtherFormatter) => word == "other",
        Err(Skip::NotValid) => word == "invalid",
        Err(Skip::BadField { index }) => word == "field" && index as u64 == natural(first),
    }
}

/// Sentences of a position reference.
const FIXES: &[&str] = &[
    "pos|$GPGGA,,4807.038,N,01131.000,E,1*5E|fix 28870380000,6910000000",
    "pos|$GPGGA,,4807.038,S,01131.000,W,1*51|fix -28870380000,-6910000000",
    "pos|$GPGGA,,4807.038,S,01131.000,E,1*43|fix -28870380000,6910000000",
    "pos|$GPGGA,,4807.038,N,01131.000,W,1*4C|fix 28870380000,-6910000000",
    "pos|$GPGGA,,4807.038,N,01131.000,E,2*5D|fix 28870380000,6910000000",
    "pos|$GPGGA,,4807.038,N,01131.000,E,3*5C|fix 28870380000,6910000000",
    "pos|$GPGGA,,4807.038,N,01131.000,E,4*5B|fix 28870380000,6910000000",
    "pos|$GPGGA,,4807.038,N,01131.000,E,5*5A|fix 28870380000,6910000000",
    "pos|$GPGGA,,0000.,N,00000,E,1*72|fix 0,0",
    "pos|$GPGGA,,0000,S,00000.,W,1*7D|fix 0,0",
    "pos|$GPGGA,,4807.0389999999,N,01131.00000019,E,1*5F|fix 28870389999,6910000001",
    "pos|$GPGGA,,4807.12345678,N,01131.7654321,E,1*6D|fix 28871234567,6917654321",
    "pos|$GPGGA,,4807.1,N,01131.12,E,1*67|fix 28871000000,6911200000",
    "pos|$GPGGA,,9000.00000009,N,18000.00000009,E,1*5C|fix 54000000000,108000000000",
    "pos|$GPGGA,,9000.0,S,18000.0,W,1*53|fix -54000000000,-108000000000",
    "pos|$GPGGA,,8959.9999999,N,17959.9999999,W,1*40|fix 53999999999,-107999999999",
    "pos|$GPGGA,,4859.9999999,N,01131.000,E,1*57|fix 29399999999,6910000000",
    "pos|$GPGGA,,4807.0380000000000001,N,01131.123456789012345,E,1*6F|fix 28870380000,6911234567",
    "pos|$GPGGA,,4807.038,N,01131.000,E,0*5F|invalid",
    "pos|$GPGGA,,4807.038,N,01131.000,E,6*59|invalid",
    "pos|$GPGGA,,4807.038,N,01131.000,E,7*58|invalid",
    "pos|$GPGGA,,4807.038,N,01131.000,E,8*57|invalid",
    "pos|$GPGGA,,x,N,01131.000,E,0*39|invalid",
    "pos|$GPGGA,,9959.9,,,,6*7B|invalid",
    "pos|$GPGGA,,4807.038,N,01131.000,E,9*56|field 6",
    "pos|$GPGGA,,4807.038,N,01131.000,E,*6F|field 6",
    "pos|$GPGGA,,4807.038,N,01131.000,E,11*6F|field 6",
    "pos|$GPGGA,,4807.038,N,01131.000,E,A*2E|field 6",
    "pos|$GPGGA,,4807.038,N,01131.000,E,1.*70|field 6",
    "pos|$GPGGA,,4807.038,N,01131.000,E,/*40|field 6",
    "pos|$GPGGA,,4807.038,N,01131.000,E,:*55|field 6",
    "pos|$GPGGA,,,N,01131.000,E,1*40|field 2",
    "pos|$GPGGA,,x,N,01131.000,E,1*38|field 2",
    "pos|$GPGGA,,480.0,N,01131.000,E,1*62|field 2",
    "pos|$GPGGA,,04807.0,N,01131.000,E,1*65|field 2",
    "pos|$GPGGA,,4860.0,N,01131.000,E,1*54|field 2",
    "pos|$GPGGA,,4899,N,01131.000,E,1*4C|field 2",
    "pos|$GPGGA,,9000.0000001,N,01131.000,E,1*56|field 2",
    "pos|$GPGGA,,9001,N,01131.000,E,1*48|field 2",
    "pos|$GPGGA,,9959,N,01131.000,E,1*4C|field 2",
    "pos|$GPGGA,,-807.0,N,01131.000,E,1*4C|field 2",
    "pos|$GPGGA,,+807.0,N,01131.000,E,1*4A|field 2",
    "pos|$GPGGA,,4807.0.0,N,01131.000,E,1*4B|field 2",
    "pos|$GPGGA,,4807.0a,N,01131.000,E,1*34|field 2",
    "pos|$GPGGA,,4807.03800000000000001,N,01131.000,E,1*5F|field 2",
    "pos|$GPGGA,, 807.0,N,01131.000,E,1*41|field 2",
    "pos|$GPGGA,,4807 ,N,01131.000,E,1*6B|field 2",
    "pos|$GPGGA,,.4807,N,01131.000,E,1*65|field 2",
    "pos|$GPGGA,,48:7.0,N,01131.000,E,1*5F|field 2",
    "pos|$GPGGA,,4807.038,,01131.000,E,1*10|field 3",
    "pos|$GPGGA,,4807.038,n,01131.000,E,1*7E|field 3",
    "pos|$GPGGA,,4807.038,E,01131.000,E,1*55|field 3",
    "pos|$GPGGA,,4807.038,W,01131.000,E,1*47|field 3",
    "pos|$GPGGA,,4807.038,NS,01131.000,E,1*0D|field 3",
    "pos|$GPGGA,,4807.038,N ,01131.000,E,1*7E|field 3",
    "pos|$GPGGA,,4807.038,N,,E,1*72|field 4",
    "pos|$GPGGA,,4807.038,N,1131.000,E,1*6E|field 4",
    "pos|$GPGGA,,4807.038,N,001131.0,E,1*6E|field 4",
    "pos|$GPGGA,,4807.038,N,01160,E,1*44|field 4",
    "pos|$GPGGA,,4807.038,N,18000.0000001,E,1*54|field 4",
    "pos|$GPGGA,,4807.038,N,18001,E,1*4A|field 4",
    "pos|$GPGGA,,4807.038,N,01131.0000000000000000,E,1*6E|field 4",
    "pos|$GPGGA,,4807.038,N,0113/,E,1*5E|field 4",
    "pos|$GPGGA,,4807.038,N,01131.000,,1*1B|field 5",
    "pos|$GPGGA,,4807.038,N,01131.000,e,1*7E|field 5",
    "pos|$GPGGA,,4807.038,N,01131.000,N,1*55|field 5",
    "pos|$GPGGA,,4807.038,N,01131.000,S,1*48|field 5",
    "pos|$GPGGA,,4807.038,N,01131.000,WE,1*09|field 5",
    "pos|$GPGGA,,x,x,x,x,x*2E|field 6",
    "pos|$GPGGA,,x,x,x,x,1*67|field 2",
    "pos|$GPGGA,,4807.038,x,x,x,1*01|field 3",
    "pos|$GPGGA,,4807.038,N,x,x,1*37|field 4",
    "pos|$GPGGA,,9001,x,01131.000,E,1*7E|field 2",
    "pos|$GPGGA,,4807.038,N,18001,x,1*77|field 4",
];

/// Sentences of gyros and wind sensors.
const HEADINGS_AND_WINDS: &[&str] = &[
    "gyro|$HEHDT,90.0,T*16|heading 9000",
    "gyro|$HEHDT,0,T*31|heading 0",
    "gyro|$HEHDT,359.99,T*10|heading 35999",
    "gyro|$HEHDT,360.00,T*1A|heading 0",
    "gyro|$HEHDT,360.009,T*23|heading 0",
    "gyro|$HEHDT,359.999,T*29|heading 35999",
    "gyro|$HEHDT,7.5,T,extra*7B|heading 750",
    "gyro|$HEHDT,00000000000000000090,T*08|heading 9000",
    "gyro|$HETHS,90.0,A*14|heading 9000",
    "gyro|$HETHS,359.99,A*12|heading 35999",
    "gyro|$HETHS,360.00,A*18|heading 0",
    "gyro|$HETHS,0.,A*1D|heading 0",
    "wind|$WIMWV,045.0,R,10.0,N,A*13|wind 4500,5144",
    "wind|$WIMWV,360,R,0,M,A*25|wind 0,0",
    "wind|$WIMWV,359.99,R,99.9999,M,A*1F|wind 35999,99999",
    "wind|$WIMWV,0,R,194.384,N,A*3E|wind 0,99999",
    "wind|$WIMWV,0,R,359.999,K,A*3E|wind 0,99999",
    "wind|$WIMWV,0,R,359.9999,K,A*07|wind 0,99999",
    "wind|$WIMWV,0,R,0.001,N,A*3C|wind 0,0",
    "wind|$WIMWV,0,R,0.003,K,A*3B|wind 0,0",
    "wind|$WIMWV,0,R,0.004,K,A*3C|wind 0,1",
    "gyro|$HETHS,90.0,E*10|invalid",
    "gyro|$HETHS,90.0,M*18|invalid",
    "gyro|$HETHS,90.0,S*06|invalid",
    "gyro|$HETHS,90.0,V*03|invalid",
    "gyro|$HETHS,x,V*6C|invalid",
    "wind|$WIMWV,0,T,10,N,A*14|invalid",
    "wind|$WIMWV,x,T,x,x,A*13|invalid",
    "wind|$WIMWV,0,R,10,N,V*05|invalid",
    "wind|$WIMWV,x,x,x,x,V*28|invalid",
    "gyro|$HEHDT,360.01,T*1B|field 1",
    "gyro|$HEHDT,000000000000000000090,T*38|field 1",
    "gyro|$HEHDT,99999999999999999999,T*01|field 1",
    "gyro|$HEHDT,18446744073709551616,T*03|field 1",
    "gyro|$HEHDT,,T*01|field 1",
    "gyro|$HEHDT,-1,T*1D|field 1",
    "gyro|$HEHDT,x,x*55|field 1",
    "gyro|$HEHDT,90.0,M*0F|field 2",
    "gyro|$HEHDT,90.0,*42|field 2",
    "gyro|$HEHDT,90.0,TT*42|field 2",
    "gyro|$HEHDT,90.0*6E|field 2",
    "gyro|$HEHDT*55|field 1",
    "gyro|$HETHS,360.01,A*19|field 1",
    "gyro|$HETHS,x,A*7B|field 1",
    "gyro|$HETHS,90.0,B*17|field 2",
    "gyro|$HETHS,x,B*78|field 2",
    "gyro|$HETHS,90.0,*55|field 2",
    "gyro|$HETHS,90.0,AA*55|field 2",
    "gyro|$HETHS,90.0*79|field 2",
    "wind|$WIMWV,0,R,100,M,A*21|field 3",
    "wind|$WIMWV,0,R,194.385,N,A*3F|field 3",
    "wind|$WIMWV,0,R,360,K,A*23|field 3",
    "wind|$WIMWV,0,R,99999999999999999999,N,A*13|field 3",
    "wind|$WIMWV,0,R,18446744073709552,M,A*20|field 3",
    "wind|$WIMWV,0,R,100,S,A*3F|field 4",
    "wind|$WIMWV,0,R,10,,A*5C|field 4",
    "wind|$WIMWV,0,R,x,S,A*76|field 3",
    "wind|$WIMWV,0,R,,M,A*10|field 3",
    "wind|$WIMWV,360.01,R,x,S,A*5C|field 1",
    "wind|$WIMWV,x,R,10,N,A*5A|field 1",
    "wind|$WIMWV,x,X,10,N,A*50|field 2",
    "wind|$WIMWV,0,RR,10,N,A*40|field 2",
    "wind|$WIMWV,x,T,10,N,B*5F|field 5",
    "wind|$WIMWV,0,R,10,N,*53|field 5",
    "wind|$WIMWV,0,R,10,N*7F|field 5",
    "wind|$WIMWV*52|field 5",
];

/// Whole sentences, and sentences on other wires.
const SENTENCES: &[&str] = &[
    "pos|$GPGGA,123519,4807.038,N,01131.000,E,1,08,0.9,545.4,M,46.9,M,,*47|fix 28870380000,6910000000",
    "pos|$GPGGA,123519,4807.038,N,01131.000,E,0,08,0.9,545.4,M,46.9,M,,*46|invalid",
    "pos|$GNGGA,123519,4807.038,N,01131.000,E,1*4D|fix 28870380000,6910000000",
    "pos|$GPGGA,123519,4807.038,N,01131.000,E,1,,,,,,,,,,,,,,,,,,*53|fix 28870380000,6910000000",
    "pos|$GPGGA,,0000,N,00000,E,1*5C|fix 0,0",
    "pos|$GPGGA,123519,4807.038,N,01131,,E,1,08,0.9,545.4,M,46.9,M,,*75|field 6",
    "pos|$GPGGA*56|field 6",
    "pos|$GPGGA,123519*77|field 6",
    "pos|$GPGGA,123519,4807.038,N,01131.000,E*4E|field 6",
    "pos|$GPGGA,,,,,,1*67|field 2",
    "gyro|$GPGGA,123519,4807.038,N,01131.000,E,1,08,0.9,545.4,M,46.9,M,,*47|other",
    "wind|$GPGGA,123519,4807.038,N,01131.000,E,1,08,0.9,545.4,M,46.9,M,,*47|other",
    "grp|$GPGGA,123519,4807.038,N,01131.000,E,1,08,0.9,545.4,M,46.9,M,,*47|other",
    "gyro|$GPGGA,123519,4807.038,N,01131.000,E,0,08,0.9,545.4,M,46.9,M,,*46|other",
    "wind|$GPGGA,123519,x,N,01131.000,E,1,08,0.9,545.4,M,46.9,M,,*21|other",
    "grp|$GPGGA*56|other",
    "pos|$GPGLL,4807.038,N,01131.000,E,123519,A*25|other",
    "pos|$HEHDT,90.0,T*16|other",
    "gyro|$HEHDT,90.0,T*16|heading 9000",
    "wind|$WIMWV,045.0,R,10.0,N,A*13|wind 4500,5144",
    "wind|$HEHDT,90.0,T*16|other",
    "pos|$HETHS,90.0,A*14|other",
    "gyro|$WIMWV,045.0,R,10.0,N,A*13|other",
    "gyro|$HEHDG,90.0,T*05|other",
    "wind|$WIVWR,1,R,1,N,,,,*51|other",
    "pos|$GPGGAX,1*13|other",
    "pos|$GPgga,1*6B|other",
    "pos|$*00|other",
    "pos|$PGGAX,1*54|other",
    "pos|$GGA,1*5C|other",
    "pos|$GPGG,1*0A|other",
];

/// Plain forms, and what is near to one.
const PLAIN_FORMS: &[&str] = &[
    "pos|L 0 0|place 0,0",
    "pos|L 1000 -250|place 1000000000,-250000000",
    "pos|L 8796093 0|place 8796093000000,0",
    "pos|L -8796093 8796093|place -8796093000000,8796093000000",
    "pos|L 0 -8796093|place 0,-8796093000000",
    "pos|L -0 -0|place 0,0",
    "pos|L 000000000000000001 -000000000000000002|place 1000000,-2000000",
    "grp|G 1|ready",
    "grp|G 0|lost",
    "pos|L|field 1",
    "pos|L |field 1",
    "pos|LX 1 2|field 1",
    "pos|L1 2|field 1",
    "pos|L\t1 2|field 1",
    "pos|L  1 2|field 1",
    "pos|LL 1 2|field 1",
    "pos|L 8796094 0|field 1",
    "pos|L -8796094 0|field 1",
    "pos|L 8796094 8796094|field 1",
    "pos|L x 0|field 1",
    "pos|L +1 0|field 1",
    "pos|L 1.0 0|field 1",
    "pos|L - 0|field 1",
    "pos|L --1 0|field 1",
    "pos|L 0000000000000000001 0|field 1",
    "pos|L 999999999999999999 0|field 1",
    "pos|L x|field 1",
    "pos|L x y z|field 1",
    "pos|L 1|field 2",
    "pos|L 1 |field 2",
    "pos|L 1 x|field 2",
    "pos|L 1 8796094|field 2",
    "pos|L 1 -8796094|field 2",
    "pos|L 1  2|field 2",
    "pos|L 1 x 3|field 2",
    "pos|L 1 9999999 3|field 2",
    "pos|L 1 2 |field 3",
    "pos|L 1 2 3|field 3",
    "pos|L 1 2 3 4 5 6 7 8 9|field 3",
    "pos|L 1 2  |field 3",
    "grp|G|field 1",
    "grp|G |field 1",
    "grp|G 2|field 1",
    "grp|G 10|field 1",
    "grp|G 1 |field 1",
    "grp|G  1|field 1",
    "grp|G 01|field 1",
    "grp|G1|field 1",
    "grp|G 0 0|field 1",
    "grp|G x|field 1",
    "grp|G\x1f1|field 1",
    "gyro|L 1 2|other",
    "wind|L 1 2|other",
    "grp|L 1 2|other",
    "grp|L|other",
    "gyro|L x|other",
    "pos|G 1|other",
    "gyro|G 0|other",
    "wind|G 1|other",
    "pos|G 2|other",
    "wind|G|other",
];
