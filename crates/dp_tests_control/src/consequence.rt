//! Mean demands on the sample plant, with the groups that could not be lost then.
//!
//! A row is `LOST~SURGE,SWAY,YAW~BITS~GROUPS`: the lost groups as bits, the mean demand, and the groups whose loss isn't survived, as bits and as
//! a list with a comma behind each.
use crate::words::below;
use dp_consequence::{check, check_bits};
use dp_test_rows::samples::S1;
use dp_test_rows::{cut, number, parts, plant_with};
use std::process::Abort;

#[test]
fn names_the_groups_of_the_sample_plant(rt: HostRuntime) {
    let plant = plant_with(rt.alloc(), S1).expect(&rt, "a plant");
    let rows = ROWS;
    for row in rows {
        let (lost, rest) = cut(row, '~');
        let (demand, rest) = cut(rest, '~');
        let (bits, groups) = cut(rest, '~');
        let lost = below(&rt, 4, lost);
        let mean = mean(demand);
        assert_eq!(rt;
            check_bits(&plant, lost, mean),
            below(&rt, 4, bits),
            "{row}"
        );
        let named = check(&plant, lost, mean);
        assert!(rt; are_groups(&rt, named.as_slice(), groups), "{row}");
    }
}

fn mean(demand: &str) -> [i64; 3] {
    let [surge, sway, yaw, _, _] = parts(demand);
    [number(surge), number(sway), number(yaw)]
}

fn are_groups(rt: &impl Abort, groups: &[u8], wanted: &str) -> bool {
    let mut rest = wanted;
    for group in groups {
        let (first, behind) = cut(rest, ',');
        if first.is_empty() || *group != below(rt, 8, first) {
            return false;
        }
        rest = behind;
    }
    rest.is_empty()
}

const ROWS: &[&str] = &[
    "0~46000000,0,0~3~0,1,",
    "0~45000000,0,0~0~",
    "0~-45000000,20000000,-40000000~0~",
    "0~0,-20000001,0~3~0,1,",
    "0~0,0,40000001~3~0,1,",
    "1~0,0,0~2~1,",
    "2~0,0,0~1~0,",
    "3~0,0,0~0~",
];
