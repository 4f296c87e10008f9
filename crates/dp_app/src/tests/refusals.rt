//! Records and scripts that are refused at a line.
//!
//! A row is `script~record~code~text`, as for whole replays.
use super::all_play;
use std::test::Fail;

/// The first faulty line of a script, and its kind.
#[test]
fn scripts_are_judged(rt: HostRuntime) -> Result<(), Fail> {
    let rows: &[&str] = &[
        // script out of order
        "3 usual\n2 usual\n\
         ~0 pos0 L 1000 0\n0 pos1 L 1000 0\n0 pos2 L 1000 0\n1000 pos0 L 1000 0\n1000 pos1 L 1000 0\n1000 pos2 L 1000 0\n2000 pos0 L 1000 0\n2000 pos1 L 1000 0\n2000 pos2 L 1000 0\n\
         ~8~fault script 2 order\n",
        // a lone CR at the end of the script
        "1 run 0\n1 orders 0\r\
         ~0 pos0 L 9 9\n\
         ~8~fault script 2 number\n",
        // unknown verb
        "0 usual\n0 fly 0\n0 run x\n\
         ~0 pos0 L 9 9\n\
         ~8~fault script 2 verb\n",
        // a verb with a letter too many
        "0 lies 0 1 0 0\n\
         ~0 pos0 L 9 9\n\
         ~8~fault script 1 verb\n",
        // a wrong number of parts
        "# one\n\n0 run 0 1\n\
         ~0 pos0 L 9 9\n\
         ~8~fault script 3 verb\n",
        // a number that is none
        "0 usual\n1 orders x\n\
         ~0 pos0 L 9 9\n\
         ~8~fault script 2 number\n",
        // a computer below zero
        "0 run -1\n\
         ~0 pos0 L 9 9\n\
         ~8~fault script 1 number\n",
        // no number at the end
        "0 run \n\
         ~0 pos0 L 9 9\n\
         ~8~fault script 1 number\n",
        // a number of 19 digits
        "0 say 0 0 4611686018427387904\n\
         ~0 pos0 L 9 9\n\
         ~8~fault script 1 number\n",
        // computer 3
        "0 usual\n0 stop 3\n\
         ~0 pos0 L 9 9\n\
         ~8~fault script 2 range\n",
        // voter 12
        "0 order 0 12\n\
         ~0 pos0 L 9 9\n\
         ~8~fault script 1 range\n",
        // a cycle of 2^20
        "1048576 usual\n\
         ~0 pos0 L 9 9\n\
         ~8~fault script 1 range\n",
        // a place past 2^43
        "0 skew 0 8796093022208 8796093022209\n\
         ~0 pos0 L 9 9\n\
         ~8~fault script 1 range\n",
        // a line of 193 bytes
        "0 usual                                                                                                                                                                                          \n0 run 9\n\
         ~0 pos0 L 9 9\n\
         ~8~fault script 1 verb\n",
        // range before order
        "5 usual\n4 run 3\n\
         ~0 pos0 L 9 9\n\
         ~8~fault script 2 range\n",
        // number before range
        "1048576 run x\n\
         ~0 pos0 L 9 9\n\
         ~8~fault script 1 number\n",
        // a cycle that falls
        "1 usual\n# x\n0 usual\n\
         ~0 pos0 L 9 9\n\
         ~8~fault script 3 order\n",
        // both files are faulty: the script is named
        "0 fly\n\
         ~x\n\
         ~8~fault script 1 verb\n",
    ];
    all_play(&rt, rt.alloc(), rows)
}

/// The first faulty line of a record and its kind, after the cycles before it.
#[test]
fn records_are_judged(rt: HostRuntime) -> Result<(), Fail> {
    let rows: &[&str] = &[
        // long
        "~0 pos0 L 9 9\n0 pos1 L 9 77777777777777777777777777777777777777777777777777777777777777777777777777777777777777777777777777777777777777777777777777777777777777777777777777777777777777777777777777777777777777\n\
         ~7~fault record 2 long\n",
        // notime
        "~0 pos0 L 9 9\n1000 pos0 L 9 9\n pos0 L 9 9\n\
         ~7~cycle 0 LLL\nt0 F 0 0 0 0\nt1 F 0 0 0 0\nt2 F 0 0 0 0\nfault record 3 notime\n",
        // badtime, 16 digits
        "~0 pos0 L 9 9\n0000000000001000 pos0 L 9 9\n\
         ~7~fault record 2 badtime\n",
        // badtime, no space
        "~000000000000000 pos0 L 9 9\n1000\n\
         ~7~fault record 2 badtime\n",
        // back after five cycles
        "~0 pos0 L 0 0\n1000 pos0 L 0 0\n2000 pos0 L 0 0\n3000 pos0 L 0 0\n4000 pos0 L 0 0\n5000 pos0 L 0 0\n4000 pos0 L 0 0\n\
         ~7~cycle 0 LLL\nt0 F 0 0 0 0\nt1 F 0 0 0 0\nt2 F 0 0 0 0\ncycle 1 LLL\nt0 F 0 0 0 0\nt1 F 0 0 0 0\nt2 F 0 0 0 0\ncycle 2 LLL\nt0 F 0 0 0 0\nt1 F 0 0 0 0\nt2 F 0 0 0 0\ncycle 3 LLL\nt0 F 0 0 0 0\nt1 F 0 0 0 0\nt2 F 0 0 0 0\ncycle 4 LLL\nt0 F 0 0 0 0\nt1 F 0 0 0 0\nt2 F 0 0 0 0\nfault record 7 back 5000 4000\n",
        // the same without the last line and its line feed
        "~0 pos0 L 0 0\n1000 pos0 L 0 0\n2000 pos0 L 0 0\n3000 pos0 L 0 0\n4000 pos0 L 0 0\n5000 pos0 L 0 0\
         ~0~cycle 0 LLL\nt0 F 0 0 0 0\nt1 F 0 0 0 0\nt2 F 0 0 0 0\ncycle 1 LLL\nt0 F 0 0 0 0\nt1 F 0 0 0 0\nt2 F 0 0 0 0\ncycle 2 LLL\nt0 F 0 0 0 0\nt1 F 0 0 0 0\nt2 F 0 0 0 0\ncycle 3 LLL\nt0 F 0 0 0 0\nt1 F 0 0 0 0\nt2 F 0 0 0 0\ncycle 4 LLL\nt0 F 0 0 0 0\nt1 F 0 0 0 0\nt2 F 0 0 0 0\ncycle 5 LLL\nt0 F 0 0 0 0\nt1 F 0 0 0 0\nt2 F 0 0 0 0\nend 6\n",
        // nowire
        "~0 pos0 L 9 9\n2500  pos0 L 9 9\n\
         ~7~fault record 2 nowire\n",
        // unknown, and a line of the same cycle before it
        "~0 pos0 L 9 9\n1000 pos0 L 9 9\n1001 pos3 L 0 0\n\
         ~7~cycle 0 LLL\nt0 F 0 0 0 0\nt1 F 0 0 0 0\nt2 F 0 0 0 0\nfault record 3 unknown\n",
        // a group that the plant does not have
        "~0 grp1 G 1\n0 grp2 G 1\n\
         ~7~fault record 2 unknown\n",
        // 2^20 cycles
        "~1048576000 pos0 L 0 0\n\
         ~10~fault long cycles 1048576\n",
        // 2^20 cycles on an unknown wire
        "~0 pos0 L 0 0\n1048576000 pos9 L 0 0\n\
         ~7~fault record 2 unknown\n",
        // back before nowire
        "~5 pos0 L 0 0\n\n4 \n\
         ~7~fault record 3 back 5 4\n",
        // 2^20 cycles come before a later faulty line
        "~0 pos0 L 9 9\n1000 pos0 L 9 9\n1048576000 pos0 L 0 0\n1 \n\
         ~10~cycle 0 LLL\nt0 F 0 0 0 0\nt1 F 0 0 0 0\nt2 F 0 0 0 0\nfault long cycles 1048576\n",
        // fifteen digits of a time
        "~999999999999999 pos0 x\n\
         ~10~fault long cycles 999999999999\n",
        // the last cycle that may be, on no wire
        "~1048575999 \n\
         ~7~fault record 1 nowire\n",
        // back within a cycle
        "~1007 pos0 x\n1006 pos0 x\n\
         ~7~cycle 0 LLL\nt0 F 0 0 0 0\nt1 F 0 0 0 0\nt2 F 0 0 0 0\nfault record 2 back 1007 1006\n",
        // two carriage returns, and empty lines that are counted
        "~\n\r\n0 pos0 L 1 2\n\n\r\r\n\
         ~7~fault record 5 notime\n",
        // a time below zero
        "~-1 pos0 L 0 0\n\
         ~7~fault record 1 notime\n",
        // a line of 192 bytes is read
        "~0 pos0 L 9 9\n0 pos1 L 9 7777777777777777777777777777777777777777777777777777777777777777777777777777777777777777777777777777777777777777777777777777777777777777777777777777777777777777777777777777777777777\r\n1000 pos0 L 0 0\n\
         ~0~cycle 0 LLL\nt0 F 0 0 0 0\nt1 F 0 0 0 0\nt2 F 0 0 0 0\ncycle 1 LLL\nt0 F -615 -615 -615 -615\nt1 F -615 -615 -615 -615\nt2 F 0 0 0 0\nend 2\n",
    ];
    all_play(&rt, rt.alloc(), rows)
}
