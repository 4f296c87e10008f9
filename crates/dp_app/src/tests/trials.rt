use super::*;

/// Records that are made of a number and replayed on the sample plant, and words that are no number: `words~~~code~text`.
#[test]
fn trials_are_summed_up(rt: HostRuntime) -> Result<(), Fail> {
    let plant = text_of(rt.alloc(), S1)?;
    let rows: &[&str] = &[
        "trial plant 0~~~0~cycles 3600\nfresh 21600\nheld 0\nzero 0\nsum 168461238\n",
        "trial plant 0000000001~~~0~cycles 3600\nfresh 21600\nheld 0\nzero 0\nsum 166467810\n",
        "trial plant 4294967295~~~0~cycles 3600\nfresh 21600\nheld 0\nzero 0\nsum 169583996\n",
        "trial plant 4294967296~~~2~fault usage\n",
        "trial plant 00000000001~~~2~fault usage\n",
        "trial plant +1~~~2~fault usage\n",
        "trial plant 1x~~~2~fault usage\n",
        "trial plant~~~2~fault usage\n",
        "trial plant 0 0~~~2~fault usage\n",
        "trial 0 plant~~~2~fault usage\n",
        "trial none 0~~~3~fault read plant\n",
        "trial script 0~~~5~fault plant missing plant.version\n",
        "make~~~2~fault usage\n",
        "make 4294967296~~~2~fault usage\n",
        "make 00000000000~~~2~fault usage\n",
        "make x~~~2~fault usage\n",
        "make 0 0~~~2~fault usage\n",
    ];
    all_told(&rt, rt.alloc(), &plant, rows)
}

/// The record of a number.
#[test]
fn a_record_is_made(rt: HostRuntime) -> Result<(), Fail> {
    is_made(
        &rt,
        rt.alloc(),
        "make 0~0 pos0 L -477 -254\n0 pos1 L ~3599000 wind2 $WIMWV,045.0,R,07.0,M,A*16\n",
    )?;
    is_made(
        &rt,
        rt.alloc(),
        "make 4294967295~0 pos0 L -173 -391\n0 pos1 L 135 365\n~,M,A*",
    )?;
    Ok(())
}

/// How a made record begins, what it has behind that, and how many lines it has: `words~first~behind`.
fn is_made(rt: &impl Abort, alloc: Global, row: &str) -> Result<(), Fail> {
    let (line, rest) = cut(row, '~');
    let (first, behind) = cut(rest, '~');
    let seen = told(rt, alloc, line, Vec::new(alloc))?;
    let (code, text) = cut(&seen, '~');
    is_same(rt, code, "0", row);
    assert!(rt; text.starts_with(first), "on {row}");
    assert!(rt; text.contains(behind), "on {row}");
    assert_eq!(rt; text.lines().count(), 32_400, "on {row}");
    Ok(())
}

/// What each sensor says once a second: one position in a sentence of 160 bytes.
const WATCH: &[&str] = &[
    "pos0 $GPGGA,123519,4807.0380012,N,01131.0000034,E,1,08,0.9,545.4,M,46.9,M,,000000000000000000000000000000000000000000000000000000000000000000000000000000000000000*73",
    "pos1 $GPGGA,123519,4807.038,N,01131.000,E,1,08,0.9,545.4,M,46.9,M,,*47",
    "pos2 $GPGGA,123519,4807.039,N,01131.001,E,2,08,0.9,545.4,M,46.9,M,,*44",
    "gyro0 $HEHDT,0.1,T*2E",
    "gyro1 $HEHDT,359.9,T*29",
    "gyro2 $HEHDT,0.0,T*2F",
    "wind0 $WIMWV,045.0,R,10.0,N,A*13",
    "wind1 $WIMWV,046.0,R,05.1,M,A*16",
    "wind2 $WIMWV,044.0,R,18.0,K,A*1F",
];

/// A minute with all sensors at work: 60 blocks, and each ballot is fresh.
#[test]
fn a_minute_is_played(rt: HostRuntime) -> Result<(), Fail> {
    let plant = text_of(rt.alloc(), S1)?;
    let record = minute(rt.alloc())?;
    let files = named(rt.alloc(), &plant, record.as_bytes(), b"")?;
    let seen = told(&rt, rt.alloc(), REPLAY, files)?;
    is_whole_minute(&rt, &seen);
    Ok(())
}

/// What the sensors say in a minute.
fn minute(alloc: Global) -> Result<String, Fail> {
    let mut record = String::new(alloc);
    for second in 0..60 {
        append_second(alloc, &mut record, second)?;
    }
    Ok(record)
}

/// What they say in a second.
fn append_second(alloc: Global, record: &mut String, second: u64) -> Result<(), Fail> {
    for line in WATCH {
        record.push_str(&format!(in alloc; "{second}000 {line}\n")?)?;
    }
    Ok(())
}

/// The blocks of a minute, with six fresh ballots each.
fn is_whole_minute(rt: &impl Abort, seen: &str) {
    assert!(rt; seen.starts_with("0~cycle 0 LLL\n"));
    assert!(rt; seen.ends_with("\nend 60\n"));
    assert_eq!(rt; fresh_ballots(seen), 360);
}

/// How many ballots of an output are fresh.
fn fresh_ballots(text: &str) -> u64 {
    let mut fresh: u64 = 0;
    for line in text.lines() {
        if line.starts_with("t") && line.contains(" F ") {
            fresh = fresh.saturating_add(1);
        }
    }
    fresh
}
