//! Lines with what is read of them. The expected values come from a reader written apart from this one.
//!
//! A row of `READ` is `LINE|TALKER|FORMATTER|FIELDS`, with a comma behind each field, a row of `DAMAGED` is `LINE|DAMAGE`, with the damage's
//! numbers behind its word.
use dp_sentence::{Damage, Sentence, read};
use dp_test_rows::{cut, natural};
use std::alloc::Global;
use std::test::Fail;

#[test]
fn sentences_are_read(rt: HostRuntime) {
    let rows = READ;
    for row in rows {
        let (line, wanted) = cut(row, '|');
        let sentence = read(line.as_bytes()).expect(&rt, "a sentence");
        assert!(rt; is_sentence(&sentence, wanted), "{row}");
    }
}

fn is_sentence(sentence: &Sentence, wanted: &str) -> bool {
    let (talker, rest) = cut(wanted, '|');
    let (formatter, fields) = cut(rest, '|');
    sentence.talker == talker.as_bytes()
        && sentence.formatter == formatter.as_bytes()
        && are_fields(sentence, fields)
}

fn are_fields(sentence: &Sentence, wanted: &str) -> bool {
    let mut rest = wanted;
    for field in sentence.fields.as_slice() {
        let Some((want, behind)) = rest.split_once(',') else {
            return false;
        };
        if *field != want.as_bytes() {
            return false;
        }
        rest = behind;
    }
    rest.is_empty()
}

#[test]
fn lines_are_damaged(rt: HostRuntime) {
    let rows = DAMAGED;
    for row in rows {
        let (line, wanted) = cut(row, '|');
        let damage = read(line.as_bytes()).err().expect(&rt, "a damaged line");
        assert!(rt; is_damage(damage, wanted), "{row}");
    }
}

/// Each byte of a sentence is replaced by one that stands in none.
#[test]
fn hurt_sentences_are_damaged(rt: HostRuntime) -> Result<(), Fail> {
    let line = "$GPGGA,123519,4807.038,N,01131.000,E,1,08,0.9,545.4,M,46.9,M,,*47";
    for at in 0..line.len() {
        assert!(rt; is_hurt(rt.alloc(), line, at, 0)?, "0 at {at}");
        assert!(rt; is_hurt(rt.alloc(), line, at, 0x80)?, "0x80 at {at}");
    }
    Ok(())
}

/// A sentence with this byte at a place is damaged.
fn is_hurt(alloc: Global, line: &str, at: usize, byte: u8) -> Result<bool, Fail> {
    let mut hurt = line.as_bytes().to_vec(alloc)?;
    if let Some(old) = hurt.get_mut(at) {
        *old = byte;
    }
    Ok(read(&hurt).is_err())
}

fn is_damage(damage: Damage, wanted: &str) -> bool {
    let (word, rest) = cut(wanted, ' ');
    let (first, second) = cut(rest, ' ');
    match damage {
        Damage::TooLong { length } => word == "toolong" && length as u64 == natural(first),
        Damage::NoStart => word == "nostart",
        Damage::BadByte { place } => word == "badbyte" && place as u64 == natural(first),
        Damage::NoSum => word == "nosum",
        Damage::BadSum { said, found } => {
            word == "badsum"
                && u64::from(said) == natural(first)
                && u64::from(found) == natural(second)
        }
        Damage::TooManyFields => word == "toomanyfields",
    }
}

const READ: &[&str] = &[
    "$GPGGA,123519,4807.038,N,01131.000,E,1,08,0.9,545.4,M,46.9,M,,*47|GP|GGA|123519,4807.038,N,01131.000,E,1,08,0.9,545.4,M,46.9,M,,,",
    "$*00|||",
    "$HEHDT,0.5,T*2A|HE|HDT|0.5,T,",
    "$HEHDT,0.5,T*2a|HE|HDT|0.5,T,",
    "$HEHDT,15.5,T*1e|HE|HDT|15.5,T,",
    "$GPGL,1*01|GPGL||1,",
    "$GPGGAX,1*13|GPGGAX||1,",
    "$PABCD,1*49|PABCD||1,",
    "$pABCD,1*69|pA|BCD|1,",
    "$P*50|P||",
    "$GPGGA*56|GP|GGA|",
    "$,,,*2C|||,,,",
    "$ ~ ~,~ *72| ~ ~||~ ,",
    "$A*B$C,*47*4B|A*|B$C|*47,",
    "$WIMWV,215.0,R,12.5,M,A*10|WI|MWV|215.0,R,12.5,M,A,",
    "$GPGSV,1,2,3,4,5,6,7,8,9,10,11,12,13,14,15,16,17,18,19,20,21,22,23,24*63|GP|GSV|1,2,3,4,5,6,7,8,9,10,11,12,13,14,15,16,17,18,19,20,21,22,23,24,",
    "$,,,,,,,,,,,,,,,,,,,,,,,,*00|||,,,,,,,,,,,,,,,,,,,,,,,,",
    "$GPTXT,01,01,01,abcdefghijklmnopqrstuvwxyzabcdefghijklmnopqrstuvwxyzabcdefghijklmnopqrstuvwxyzabcdefghijklmnopqrstuvwxyzabcdefghijklmnopqrstuvwxyzabcdefghijk*35|GP|TXT|01,01,01,abcdefghijklmnopqrstuvwxyzabcdefghijklmnopqrstuvwxyzabcdefghijklmnopqrstuvwxyzabcdefghijklmnopqrstuvwxyzabcdefghijklmnopqrstuvwxyzabcdefghijk,",
];

const DAMAGED: &[&str] = &[
    "$GPTXT,01,01,01,abcdefghijklmnopqrstuvwxyzabcdefghijklmnopqrstuvwxyzabcdefghijklmnopqrstuvwxyzabcdefghijklmnopqrstuvwxyzabcdefghijklmnopqrstuvwxyzabcdefghijkl*59|toolong 161",
    "GPTXT,01,01,01,abcdefghijklmnopqrstuvwxyzabcdefghijklmnopqrstuvwxyzabcdefghijklmnopqrstuvwxyzabcdefghijklmnopqrstuvwxyzabcdefghijklmnopqrstuvwxyzabcdefghijkl*590|toolong 161",
    "\x1f\x1f\x1f\x1f\x1f\x1f\x1f\x1f\x1f\x1f\x1f\x1f\x1f\x1f\x1f\x1f\x1f\x1f\x1f\x1f\x1f\x1f\x1f\x1f\x1f\x1f\x1f\x1f\x1f\x1f\x1f\x1f\x1f\x1f\x1f\x1f\x1f\x1f\x1f\x1f\x1f\x1f\x1f\x1f\x1f\x1f\x1f\x1f\x1f\x1f\x1f\x1f\x1f\x1f\x1f\x1f\x1f\x1f\x1f\x1f\x1f\x1f\x1f\x1f\x1f\x1f\x1f\x1f\x1f\x1f\x1f\x1f\x1f\x1f\x1f\x1f\x1f\x1f\x1f\x1f\x1f\x1f\x1f\x1f\x1f\x1f\x1f\x1f\x1f\x1f\x1f\x1f\x1f\x1f\x1f\x1f\x1f\x1f\x1f\x1f\x1f\x1f\x1f\x1f\x1f\x1f\x1f\x1f\x1f\x1f\x1f\x1f\x1f\x1f\x1f\x1f\x1f\x1f\x1f\x1f\x1f\x1f\x1f\x1f\x1f\x1f\x1f\x1f\x1f\x1f\x1f\x1f\x1f\x1f\x1f\x1f\x1f\x1f\x1f\x1f\x1f\x1f\x1f\x1f\x1f\x1f\x1f\x1f\x1f\x1f\x1f\x1f\x1f\x1f\x1f\x1f\x1f\x1f\x1f\x1f\x1f|toolong 161",
    "xxxxxxxxxxxxxxxxxxxxxxxxxxxxxxxxxxxxxxxxxxxxxxxxxxxxxxxxxxxxxxxxxxxxxxxxxxxxxxxxxxxxxxxxxxxxxxxxxxxxxxxxxxxxxxxxxxxxxxxxxxxxxxxxxxxxxxxxxxxxxxxxxxxxxxxxxxxxxxxxxxxxxxxxxxxxxxxxxxxxxxxxxxxxxxxxxxxxxxxx|toolong 200",
    "$GPTXT,01,01,01,abcdefghijklmnopqrstuvwxyzabcdefghijklmnopqrstuvwxyzabcdefghijklmnopqrstuvwxyzabcdefghijklmnopqrstuvwxyzabcdefghijklmnopqrstuvwxyzabcdefghijk*35 |toolong 161",
    "|nostart",
    "GPGGA,1*00|nostart",
    " $GP*17|nostart",
    "\x1fGP*17|nostart",
    "\x7f|nostart",
    "*00|nostart",
    "!AIVDM,1*00|nostart",
    "#*00|nostart",
    "%*00|nostart",
    "$\x1f|badbyte 1",
    "$\x7f|badbyte 1",
    "$GPGGA\x1f,1*00|badbyte 6",
    "$GPGGA\x7f,1*00|badbyte 6",
    "$GPGGA,123519,4807.038,N,01131.000,E,1,08,0.9,545.4,M,46.9,M,,*47\r|badbyte 65",
    "$GPGGA,123519,4807.038,N,01131.000,E,1,08,0.9,545.4,M,46.9,M,,*47\r\n|badbyte 65",
    "$GPGGA,123519,4807.038,N,01131.000,E,1,08,0.9,545.4,M,46.9,M,,*47\n|badbyte 65",
    "$GPGGA,1*4\x7f|badbyte 10",
    "$GPGGA,1\x1f47|badbyte 8",
    "$\x00\x7f*00|badbyte 1",
    "$GP\x1fGGA,1*54|badbyte 3",
    "$GP\x7fGGA,1*34|badbyte 3",
    "$GPGGA,\u{e9}*00|badbyte 7",
    "$\x09GP|badbyte 1",
    "$GPTXT,01,01,01,abcdefghijklmnopqrstuvwxyzabcdefghijklmnopqrstuvwxyzabcdefghijklmnopqrstuvwxyzabcdefghijklmnopqrstuvwxyzabcdefghijklmnopqrstuvwxyzabcdefghijk*3\x1f|badbyte 159",
    "$GP\x7f,,,,,,,,,,,,,,,,,,,,,,,,,,,,,,|badbyte 3",
    "$|nosum",
    "$GP|nosum",
    "$*0|nosum",
    "$GPGGA,1|nosum",
    "$GPGGA,1*4|nosum",
    "$GPGGA,1*|nosum",
    "$GPGGA,1*4G|nosum",
    "$GPGGA,1*G4|nosum",
    "$GPGGA,1*4g|nosum",
    "$GPGGA,1*/0|nosum",
    "$GPGGA,1*:0|nosum",
    "$GPGGA,1*0@|nosum",
    "$GPGGA,1*0`|nosum",
    "$GPGGA,1*123|nosum",
    "$GPGGA,1+47|nosum",
    "$GPGGA,147*|nosum",
    "$GPGGA,1*47 |nosum",
    "$GP*0x|nosum",
    "$,,,,,,,,,,,,,,,,,,,,,,,,,*0|nosum",
    "$*47*|nosum",
    "$GPGGA,123519,4807.038,N,01131.000,E,1,08,0.9,545.4,M,46.9,M,,*46|badsum 70 71",
    "$*01|badsum 1 0",
    "$*10|badsum 16 0",
    "$*FF|badsum 255 0",
    "$*ff|badsum 255 0",
    "$GPGGA,1*00|badsum 0 75",
    "$HPGGA,123519,4807.038,N,01131.000,E,1,08,0.9,545.4,M,46.9,M,,*47|badsum 71 72",
    "$GPGGA,123519,4807.038,N,01131.000,E,1,08,0.9,545.4,M,46.9,M,,*74|badsum 116 71",
    "$GPGGA,123519,4807.038,N,01131.000,E,1,08,0.9,545.4,M,46.9,M,.*47|badsum 71 69",
    "$GPGGA,123519,4807.038,N,01131.000,E,1,08,0.9,545.4,M,46.9,N,,*47|badsum 71 68",
    "$**00|badsum 0 42",
    "$A*40|badsum 64 65",
    "$A*42|badsum 66 65",
    "$,,,,,,,,,,,,,,,,,,,,,,,,,*00|badsum 0 44",
    "$GPGSV,1,2,3,4,5,6,7,8,9,10,11,12,13,14,15,16,17,18,19,20,21,22,23,24,25*00|badsum 0 72",
    "$GPGSV,1,2,3,4,5,6,7,8,9,10,11,12,13,14,15,16,17,18,19,20,21,22,23,24,25*48|toomanyfields",
    "$,,,,,,,,,,,,,,,,,,,,,,,,,*2C|toomanyfields",
    "$,,,,,,,,,,,,,,,,,,,,,,,,,,*00|toomanyfields",
    "$GPGGA,,,,,,,,,,,,,,,,,,,,,,,,,*7a|toomanyfields",
    "$,,,,,,,,,,,,,,,,,,,,,,,,,,,,,,,,,,,,,,,,,,,,,,,,,,,,,,,,,,,,,,,,,,,,,,,,,,,,,,,,,,,,,,,,,,,,,,,,,,,,,,,,,,,,,,,,,,,,,,,,,,,,,,,,,,,,,,,,,,,,,,,,,,,,,,,,,,,,*00|toomanyfields",
];
