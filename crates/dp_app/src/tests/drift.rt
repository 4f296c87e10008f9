//! Tables of drifts.
//!
//! A row is `words~~record~code~text`, with no script; code and text are those of a program that was written apart from this one.
use super::{all_told, cut_at};
use dp_test_rows::samples::{S1, text_of};
use std::alloc::Global;
use std::test::Fail;

/// The sample plant: a group of it gives as much as the other.
#[test]
fn drifts_of_the_sample_plant_are_told(rt: HostRuntime) -> Result<(), Fail> {
    let plant = text_of(rt.alloc(), S1)?;
    let rows: &[&str] = &[
        // no demand at all
        "drift plant record 1000 60~\
         ~\
         ~0~group 0 held\ngroup 1 held\nend 2\n",
        // a record that ends with a group lost: there is no case for both
        "drift plant record 1000 60~\
         ~0 grp1 G 0\n1000 pos0 L 0 0\n\
         ~0~group 0 nocase\nend 1\n",
        // a group that came back
        "drift plant record 1000 60~\
         ~0 grp1 G 0\n1000 grp1 G 1\n\
         ~0~group 0 held\ngroup 1 held\nend 2\n",
        // no way at all is left
        "drift plant record 0 1~\
         ~0 wind0 $WIMWV,090.0,R,25.0,M,A*1E\n1000 wind0 $WIMWV,090.0,R,25.0,M,A*1E\n\
         ~0~group 0 past 1\ngroup 1 past 1\nend 2\n",
        // strong wind from abeam
        "drift plant record 1000 60~\
         ~0 wind0 $WIMWV,090.0,R,25.0,M,A*1E\n1000 wind0 $WIMWV,090.0,R,25.0,M,A*1E\n\
         ~0~group 0 past 14\ngroup 1 past 14\nend 2\n",
        // within a limit of 1000 km, and past it
        "drift plant record 1000000000 3~\
         ~0 wind0 $WIMWV,090.0,R,25.0,M,A*1E\n1000 wind0 $WIMWV,090.0,R,25.0,M,A*1E\n\
         ~0~group 0 within 0 -59950018\ngroup 1 within 0 -59950018\nend 2\n",
        "drift plant record 1000000000 1048576~\
         ~0 wind0 $WIMWV,090.0,R,25.0,M,A*1E\n\
         ~0~group 0 past 125799\ngroup 1 past 125799\nend 2\n",
        // a time that falls, with zeros before the numbers
        "drift plant record 0000000001 0000060~\
         ~0 pos0 L 1 1\n5000 pos0 L 1 1\n4000 pos0 L 1 1\n\
         ~7~fault record 3 back 5000 4000\n",
        // a group that the plant doesn't have
        "drift plant record 1 60~\
         ~0 grp2 G 0\n\
         ~7~fault record 1 unknown\n",
        // 2^20 cycles
        "drift plant record 1 60~\
         ~1048576000 pos0 L 0 0\n\
         ~10~fault long cycles 1048576\n",
    ];
    all_told(&rt, rt.alloc(), &plant, rows)
}

/// A plant that gives little sway to starboard without group 1.
#[test]
fn drifts_of_a_narrow_plant_are_told(rt: HostRuntime) -> Result<(), Fail> {
    let plant = narrow_plant(rt.alloc())?;
    let rows: &[&str] = &[
        // no demand at all
        "drift plant record 1000 60~\
         ~\
         ~0~group 0 held\ngroup 1 held\nend 2\n",
        // wind that one group alone can't meet
        "drift plant record 1000 60~\
         ~0 wind0 $WIMWV,090.0,R,08.0,M,A*11\n1000 wind0 $WIMWV,090.0,R,08.0,M,A*11\n\
         ~0~group 0 held\ngroup 1 past 12\nend 2\n",
        // the first cycle of several
        "drift plant record 1 3~\
         ~0 wind0 $WIMWV,090.0,R,08.0,M,A*11\n1000 wind0 $WIMWV,090.0,R,08.0,M,A*11\n\
         ~0~group 0 held\ngroup 1 past 1\nend 2\n",
        // no case for both
        "drift plant record 1000 600~\
         ~0 wind0 $WIMWV,090.0,R,08.0,M,A*11\n1000 wind0 $WIMWV,090.0,R,08.0,M,A*11\n2000 grp1 G 0\n\
         ~0~group 0 nocase\nend 1\n",
        // one demand
        "drift plant record 60 60~\
         ~0 wind0 $WIMWV,090.0,R,08.0,M,A*11\n\
         ~0~group 0 held\ngroup 1 past 3\nend 2\n",
        // 59 demands, of which two are the wind's
        "drift plant record 1000 600~\
         ~0 wind0 $WIMWV,090.0,R,25.0,M,A*1E\n1000 wind0 $WIMWV,090.0,R,25.0,M,A*1E\n58000 pos0 L 0 0\n\
         ~0~group 0 held\ngroup 1 past 63\nend 2\n",
        // 60 demands
        "drift plant record 1000 600~\
         ~0 wind0 $WIMWV,090.0,R,25.0,M,A*1E\n1000 wind0 $WIMWV,090.0,R,25.0,M,A*1E\n59000 pos0 L 0 0\n\
         ~0~group 0 held\ngroup 1 past 64\nend 2\n",
        // the first of 61 fell out, and what is left is just met
        "drift plant record 1000 600~\
         ~0 wind0 $WIMWV,090.0,R,25.0,M,A*1E\n1000 wind0 $WIMWV,090.0,R,25.0,M,A*1E\n60000 pos0 L 0 0\n\
         ~0~group 0 held\ngroup 1 held\nend 2\n",
        // both fell out
        "drift plant record 1000 600~\
         ~0 wind0 $WIMWV,090.0,R,25.0,M,A*1E\n1000 wind0 $WIMWV,090.0,R,25.0,M,A*1E\n61000 pos0 L 0 0\n\
         ~0~group 0 held\ngroup 1 held\nend 2\n",
    ];
    all_told(&rt, rt.alloc(), &plant, rows)
}

/// Words that are no command, and files that aren't there: `words~~~code~text`.
#[test]
fn words_of_drifts_are_told(rt: HostRuntime) -> Result<(), Fail> {
    let plant = text_of(rt.alloc(), S1)?;
    let rows: &[&str] = &[
        "drift~~~2~fault usage\n",
        "drift plant~~~2~fault usage\n",
        "drift plant record~~~2~fault usage\n",
        "drift plant record 1~~~2~fault usage\n",
        "drift plant record 1 60 1~~~2~fault usage\n",
        "drift plant record 1000000000 1048576~~~0~group 0 held\ngroup 1 held\nend 2\n",
        "drift plant record 1000000001 60~~~2~fault usage\n",
        "drift plant record 00000000001 60~~~2~fault usage\n",
        "drift plant record x 60~~~2~fault usage\n",
        "drift plant record +1 60~~~2~fault usage\n",
        "drift plant record 1 0~~~2~fault usage\n",
        "drift plant record 1 1048577~~~2~fault usage\n",
        "drift plant record 1 00000001~~~2~fault usage\n",
        "drift plant record 1 60x~~~2~fault usage\n",
        "drift plant none 1 60~~~3~fault read record\n",
        "drift none record 1 60~~~3~fault read plant\n",
        "drift none none 1 60~~~3~fault read plant\n",
        "drift record plant 1 60~~~5~fault plant missing plant.version\n",
    ];
    all_told(&rt, rt.alloc(), &plant, rows)
}

/// The sample plant with another greatest sway where group 1 is lost.
fn narrow_plant(alloc: Global) -> Result<String, Fail> {
    let sample = text_of(alloc, S1)?;
    let (before, case) = cut_at(&sample, "lost = 2");
    let (low, rest) = cut_at(case, "hi = [45000000, 20000000");
    let middle = "lost = 2";
    let high = "hi = [45000000, 500000";
    Ok(format!(in alloc; "{before}{middle}{low}{high}{rest}")?)
}
