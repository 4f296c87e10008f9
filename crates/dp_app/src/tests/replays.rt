//! Whole replays: what each act of a script does.
//!
//! A row is `script~record~code~text`; code and text are those of a program that was written apart from this one.
use super::all_play;
use std::test::Fail;

/// Runs and orders, alone and in the usual order.
#[test]
fn usual_acts_are_played(rt: HostRuntime) -> Result<(), Fail> {
    let rows: &[&str] = &[
        // nothing at all
        "~\
         ~0~end 0\n",
        // constant at 1000 with the usual acts
        "~0 pos0 L 1000 0\n0 pos1 L 1000 0\n0 pos2 L 1000 0\n1000 pos0 L 1000 0\n1000 pos1 L 1000 0\n1000 pos2 L 1000 0\n2000 pos0 L 1000 0\n2000 pos1 L 1000 0\n2000 pos2 L 1000 0\n\
         ~0~cycle 0 LLL\nt0 F 0 0 0 0\nt1 F 0 0 0 0\nt2 F 0 0 0 0\ncycle 1 LLL\nt0 F -68360 -68360 -68360 -68360\nt1 F 0 0 0 0\nt2 F 0 0 0 0\ncycle 2 LLL\nt0 F -131397 -131397 -131397 -131397\nt1 F 0 0 0 0\nt2 F 0 0 0 0\nend 3\n",
        // usual twice: nothing waits, and the orders are repeated
        "1 usual\n1 usual\n\
         ~0 pos0 L 1000 0\n0 pos1 L 1000 0\n0 pos2 L 1000 0\n1000 pos0 L 1000 0\n1000 pos1 L 1000 0\n1000 pos2 L 1000 0\n2000 pos0 L 1000 0\n2000 pos1 L 1000 0\n2000 pos2 L 1000 0\n\
         ~0~cycle 0 LLL\nt0 F 0 0 0 0\nt1 F 0 0 0 0\nt2 F 0 0 0 0\ncycle 1 LLL\nt0 F -68360 -68360 -68360 -68360\nt1 F 0 0 0 0\nt2 F 0 0 0 0\ncycle 2 LLL\nt0 F -131397 -131397 -131397 -131397\nt1 F 0 0 0 0\nt2 F 0 0 0 0\nend 3\n",
        // orders before the run are of the cycle before
        "1 orders 0\n1 orders 1\n1 orders 2\n1 run 0\n1 run 1\n1 run 2\n\
         ~0 pos0 L 1000 0\n0 pos1 L 1000 0\n0 pos2 L 1000 0\n1000 pos0 L 1000 0\n1000 pos1 L 1000 0\n1000 pos2 L 1000 0\n2000 pos0 L 1000 0\n2000 pos1 L 1000 0\n2000 pos2 L 1000 0\n\
         ~0~cycle 0 LLL\nt0 F 0 0 0 0\nt1 F 0 0 0 0\nt2 F 0 0 0 0\ncycle 1 LLL\nt0 H 0 - - -\nt1 H 0 - - -\nt2 H 0 - - -\ncycle 2 LLL\nt0 F -131397 -131397 -131397 -131397\nt1 F 0 0 0 0\nt2 F 0 0 0 0\nend 3\n",
        // orders in cycle 0 before any run: none is sent
        "0 orders 0\n0 orders 1\n0 orders 2\n\
         ~0 pos0 L 1000 0\n1000 pos0 L 1000 0\n\
         ~0~cycle 0 LLL\nt0 H 0 - - -\nt1 H 0 - - -\nt2 H 0 - - -\ncycle 1 LLL\nt0 H 0 - - -\nt1 H 0 - - -\nt2 H 0 - - -\nend 2\n",
        // two equal orders are fresh
        "1 run 0\n1 run 2\n1 orders 2\n1 orders 0\n\
         ~0 pos0 L 1000 0\n0 pos1 L 1000 0\n0 pos2 L 1000 0\n1000 pos0 L 1000 0\n1000 pos1 L 1000 0\n1000 pos2 L 1000 0\n2000 pos0 L 1000 0\n2000 pos1 L 1000 0\n2000 pos2 L 1000 0\n\
         ~0~cycle 0 LLL\nt0 F 0 0 0 0\nt1 F 0 0 0 0\nt2 F 0 0 0 0\ncycle 1 LLL\nt0 F -68360 -68360 - -68360\nt1 F 0 0 - 0\nt2 F 0 0 - 0\ncycle 2 LLL\nt0 F -131397 -131397 - -131397\nt1 F 0 0 - 0\nt2 F 0 0 - 0\nend 3\n",
        // one order to each voter in turn
        "1 run 0\n1 run 1\n1 run 2\n1 order 0 0\n1 order 1 0\n1 order 1 1\n1 order 2 1\n1 order 2 2\n1 order 0 2\n\
         ~0 pos0 L 1000 0\n0 pos1 L 1000 0\n0 pos2 L 1000 0\n1000 pos0 L 1000 0\n1000 pos1 L 1000 0\n1000 pos2 L 1000 0\n2000 pos0 L 1000 0\n2000 pos1 L 1000 0\n2000 pos2 L 1000 0\n\
         ~0~cycle 0 LLL\nt0 F 0 0 0 0\nt1 F 0 0 0 0\nt2 F 0 0 0 0\ncycle 1 LLL\nt0 F -68360 -68360 -68360 -\nt1 F 0 - 0 0\nt2 F 0 0 - 0\ncycle 2 LLL\nt0 F -131397 -131397 -131397 -131397\nt1 F 0 0 0 0\nt2 F 0 0 0 0\nend 3\n",
        // orders to voters that are not there
        "1 run 0\n1 run 1\n1 order 0 3\n1 order 1 11\n1 say 2 5 7\n1 orders 0\n1 orders 1\n\
         ~0 pos0 L 1000 0\n0 pos1 L 1000 0\n0 pos2 L 1000 0\n1000 pos0 L 1000 0\n1000 pos1 L 1000 0\n1000 pos2 L 1000 0\n2000 pos0 L 1000 0\n2000 pos1 L 1000 0\n2000 pos2 L 1000 0\n\
         ~0~cycle 0 LLL\nt0 F 0 0 0 0\nt1 F 0 0 0 0\nt2 F 0 0 0 0\ncycle 1 LLL\nt0 F -68360 -68360 -68360 -\nt1 F 0 0 0 -\nt2 F 0 0 0 -\ncycle 2 LLL\nt0 F -131397 -131397 -131397 -\nt1 F 0 0 0 -\nt2 F 0 0 0 -\nend 3\n",
        // two runs in a cycle: the second is idle
        "1 run 0\n1 run 0\n1 run 1\n1 run 1\n1 orders 0\n1 orders 1\n\
         ~0 pos0 L 1000 0\n0 pos1 L 1000 0\n0 pos2 L 1000 0\n1000 pos0 L 1000 0\n1000 pos1 L 1000 0\n1000 pos2 L 1000 0\n2000 pos0 L 1000 0\n2000 pos1 L 1000 0\n2000 pos2 L 1000 0\n\
         ~0~cycle 0 LLL\nt0 F 0 0 0 0\nt1 F 0 0 0 0\nt2 F 0 0 0 0\ncycle 1 LLL\nt0 F -68360 -68360 -68360 -\nt1 F 0 0 0 -\nt2 F 0 0 0 -\ncycle 2 LLL\nt0 F -131397 -131397 -131397 -\nt1 F 0 0 0 -\nt2 F 0 0 0 -\nend 3\n",
        // a computer that lags is stale, until it has caught up
        "1 run 0\n1 run 1\n1 orders 0\n1 orders 1\n2 usual\n3 run 2\n3 usual\n\
         ~0 pos0 L 1000 0\n1000 pos0 L 1000 0\n2000 pos0 L 1000 0\n3000 pos0 L 1000 0\n4000 pos0 L 1000 0\n5000 pos0 L 1000 0\n\
         ~0~cycle 0 LLL\nt0 F 0 0 0 0\nt1 F 0 0 0 0\nt2 F 0 0 0 0\ncycle 1 LLL\nt0 F -68360 -68360 -68360 -\nt1 F 0 0 0 -\nt2 F 0 0 0 -\ncycle 2 LLL\nt0 F -131397 -131397 -131397 -\nt1 F 0 0 0 -\nt2 F 0 0 0 -\ncycle 3 LLL\nt0 F -189356 -189356 -189356 -189356\nt1 F 0 0 0 0\nt2 F 0 0 0 0\ncycle 4 LLL\nt0 F -242480 -242480 -242480 -242480\nt1 F 0 0 0 0\nt2 F 0 0 0 0\ncycle 5 LLL\nt0 F -291005 -291005 -291005 -291005\nt1 F 0 0 0 0\nt2 F 0 0 0 0\nend 6\n",
        // cycles after the last one do nothing
        "2 usual\n3 stop 0\n1048575 stop 1\n\
         ~0 pos0 L 1000 0\n0 pos1 L 1000 0\n0 pos2 L 1000 0\n1000 pos0 L 1000 0\n1000 pos1 L 1000 0\n1000 pos2 L 1000 0\n2000 pos0 L 1000 0\n2000 pos1 L 1000 0\n2000 pos2 L 1000 0\n\
         ~0~cycle 0 LLL\nt0 F 0 0 0 0\nt1 F 0 0 0 0\nt2 F 0 0 0 0\ncycle 1 LLL\nt0 F -68360 -68360 -68360 -68360\nt1 F 0 0 0 0\nt2 F 0 0 0 0\ncycle 2 LLL\nt0 F -131397 -131397 -131397 -131397\nt1 F 0 0 0 0\nt2 F 0 0 0 0\nend 3\n",
        // remarks, empty lines and both line ends
        "# a remark\r\n\r\n1 say 2 1 5\r\n###########################################################################################################################################################################################################################################################\n\n1 usual\r\n# 1 stop 0\n\
         ~0 pos0 L 1000 0\n0 pos1 L 1000 0\n0 pos2 L 1000 0\n1000 pos0 L 1000 0\n1000 pos1 L 1000 0\n1000 pos2 L 1000 0\n2000 pos0 L 1000 0\n2000 pos1 L 1000 0\n2000 pos2 L 1000 0\n\
         ~0~cycle 0 LLL\nt0 F 0 0 0 0\nt1 F 0 0 0 0\nt2 F 0 0 0 0\ncycle 1 LLL\nt0 F -68360 -68360 -68360 -68360\nt1 F 0 0 0 5\nt2 F 0 0 0 0\ncycle 2 LLL\nt0 F -131397 -131397 -131397 -131397\nt1 F 0 0 0 0\nt2 F 0 0 0 0\nend 3\n",
        // no line feed at the end of either file
        "1 stop 0\n1 usual\
         ~0 pos0 L 1000 0\n0 pos1 L 1000 0\n0 pos2 L 1000 0\n1000 pos0 L 1000 0\n1000 pos1 L 1000 0\n1000 pos2 L 1000 0\n2000 pos0 L 1000 0\n2000 pos1 L 1000 0\n2000 pos2 L 1000 0\
         ~0~cycle 0 LLL\nt0 F 0 0 0 0\nt1 F 0 0 0 0\nt2 F 0 0 0 0\ncycle 1 OLL\nt0 F -68360 - -68360 -68360\nt1 F 0 - 0 0\nt2 F 0 - 0 0\ncycle 2 OLL\nt0 F -131397 - -131397 -131397\nt1 F 0 - 0 0\nt2 F 0 - 0 0\nend 3\n",
    ];
    all_play(&rt, rt.alloc(), rows)
}

/// Cycles without two equal ballots: the force is held, and then zero.
#[test]
fn forces_are_held(rt: HostRuntime) -> Result<(), Fail> {
    let rows: &[&str] = &[
        // held five times, zero, and fresh again
        "2 run 0\n2 run 1\n2 run 2\n3 run 0\n3 run 1\n3 run 2\n4 run 0\n4 run 1\n4 run 2\n5 run 0\n5 run 1\n5 run 2\n6 run 0\n6 run 1\n6 run 2\n7 run 0\n7 run 1\n7 run 2\n8 usual\n\
         ~0 pos0 L 1000 0\n1000 pos0 L 1000 0\n2000 pos0 L 1000 0\n3000 pos0 L 1000 0\n4000 pos0 L 1000 0\n5000 pos0 L 1000 0\n6000 pos0 L 1000 0\n7000 pos0 L 1000 0\n8000 pos0 L 1000 0\n9000 pos0 L 1000 0\n\
         ~0~cycle 0 LLL\nt0 F 0 0 0 0\nt1 F 0 0 0 0\nt2 F 0 0 0 0\ncycle 1 LLL\nt0 F -68360 -68360 -68360 -68360\nt1 F 0 0 0 0\nt2 F 0 0 0 0\ncycle 2 LLL\nt0 H -68360 - - -\nt1 H 0 - - -\nt2 H 0 - - -\ncycle 3 LLL\nt0 H -68360 - - -\nt1 H 0 - - -\nt2 H 0 - - -\ncycle 4 LLL\nt0 H -68360 - - -\nt1 H 0 - - -\nt2 H 0 - - -\ncycle 5 LLL\nt0 H -68360 - - -\nt1 H 0 - - -\nt2 H 0 - - -\ncycle 6 LLL\nt0 H -68360 - - -\nt1 H 0 - - -\nt2 H 0 - - -\ncycle 7 LLL\nt0 Z 0 - - -\nt1 Z 0 - - -\nt2 Z 0 - - -\ncycle 8 LLL\nt0 F -375182 -375182 -375182 -375182\nt1 F 0 0 0 0\nt2 F 0 0 0 0\ncycle 9 LLL\nt0 F -375182 -375182 -375182 -375182\nt1 F 0 0 0 0\nt2 F 0 0 0 0\nend 10\n",
        // the fifth cycle without a fresh ballot is held, the sixth is zero, from the start
        "0 run 1\n1 run 1\n2 run 1\n3 run 1\n4 run 1\n5 run 1\n6 run 1\n\
         ~0 pos0 L 1000 0\n1000 pos0 L 1000 0\n2000 pos0 L 1000 0\n3000 pos0 L 1000 0\n4000 pos0 L 1000 0\n5000 pos0 L 1000 0\n6000 pos0 L 1000 0\n\
         ~0~cycle 0 LLL\nt0 H 0 - - -\nt1 H 0 - - -\nt2 H 0 - - -\ncycle 1 LLL\nt0 H 0 - - -\nt1 H 0 - - -\nt2 H 0 - - -\ncycle 2 LLL\nt0 H 0 - - -\nt1 H 0 - - -\nt2 H 0 - - -\ncycle 3 LLL\nt0 H 0 - - -\nt1 H 0 - - -\nt2 H 0 - - -\ncycle 4 LLL\nt0 H 0 - - -\nt1 H 0 - - -\nt2 H 0 - - -\ncycle 5 LLL\nt0 Z 0 - - -\nt1 Z 0 - - -\nt2 Z 0 - - -\ncycle 6 LLL\nt0 Z 0 - - -\nt1 Z 0 - - -\nt2 Z 0 - - -\nend 7\n",
        // a fresh ballot between starts the count anew
        "2 run 0\n2 run 1\n2 run 2\n3 run 0\n3 run 1\n3 run 2\n4 run 0\n4 run 1\n4 run 2\n6 run 0\n6 run 1\n6 run 2\n7 run 0\n7 run 1\n7 run 2\n8 run 0\n8 run 1\n8 run 2\n9 run 0\n9 run 1\n9 run 2\n10 run 0\n10 run 1\n10 run 2\n11 run 0\n11 run 1\n11 run 2\n\
         ~0 pos0 L 1000 0\n1000 pos0 L 1000 0\n2000 pos0 L 1000 0\n3000 pos0 L 1000 0\n4000 pos0 L 1000 0\n5000 pos0 L 1000 0\n6000 pos0 L 1000 0\n7000 pos0 L 1000 0\n8000 pos0 L 1000 0\n9000 pos0 L 1000 0\n10000 pos0 L 1000 0\n11000 pos0 L 1000 0\n\
         ~0~cycle 0 LLL\nt0 F 0 0 0 0\nt1 F 0 0 0 0\nt2 F 0 0 0 0\ncycle 1 LLL\nt0 F -68360 -68360 -68360 -68360\nt1 F 0 0 0 0\nt2 F 0 0 0 0\ncycle 2 LLL\nt0 H -68360 - - -\nt1 H 0 - - -\nt2 H 0 - - -\ncycle 3 LLL\nt0 H -68360 - - -\nt1 H 0 - - -\nt2 H 0 - - -\ncycle 4 LLL\nt0 H -68360 - - -\nt1 H 0 - - -\nt2 H 0 - - -\ncycle 5 LLL\nt0 F -291005 -291005 -291005 -291005\nt1 F 0 0 0 0\nt2 F 0 0 0 0\ncycle 6 LLL\nt0 H -291005 - - -\nt1 H 0 - - -\nt2 H 0 - - -\ncycle 7 LLL\nt0 H -291005 - - -\nt1 H 0 - - -\nt2 H 0 - - -\ncycle 8 LLL\nt0 H -291005 - - -\nt1 H 0 - - -\nt2 H 0 - - -\ncycle 9 LLL\nt0 H -291005 - - -\nt1 H 0 - - -\nt2 H 0 - - -\ncycle 10 LLL\nt0 H -291005 - - -\nt1 H 0 - - -\nt2 H 0 - - -\ncycle 11 LLL\nt0 Z 0 - - -\nt1 Z 0 - - -\nt2 Z 0 - - -\nend 12\n",
    ];
    all_play(&rt, rt.alloc(), rows)
}

/// Computers that say what they were not asked to.
#[test]
fn lies_are_outvoted(rt: HostRuntime) -> Result<(), Fail> {
    let rows: &[&str] = &[
        // said force goes before the order of its computer
        "1 run 0\n1 run 1\n1 run 2\n1 say 1 0 999\n1 orders 0\n1 orders 1\n1 orders 2\n\
         ~0 pos0 L 1000 0\n0 pos1 L 1000 0\n0 pos2 L 1000 0\n1000 pos0 L 1000 0\n1000 pos1 L 1000 0\n1000 pos2 L 1000 0\n\
         ~0~cycle 0 LLL\nt0 F 0 0 0 0\nt1 F 0 0 0 0\nt2 F 0 0 0 0\ncycle 1 LLL\nt0 F -68360 -68360 999 -68360\nt1 F 0 0 0 0\nt2 F 0 0 0 0\nend 2\n",
        // said out of the limits is refused, and may be said again
        "1 say 0 0 50000001\n1 say 0 0 50000000\n1 say 1 0 -50000001\n1 say 1 0 -50000000\n1 say 2 0 7\n\
         ~0 pos0 L 1000 0\n0 pos1 L 1000 0\n0 pos2 L 1000 0\n1000 pos0 L 1000 0\n1000 pos1 L 1000 0\n1000 pos2 L 1000 0\n2000 pos0 L 1000 0\n2000 pos1 L 1000 0\n2000 pos2 L 1000 0\n\
         ~0~cycle 0 LLL\nt0 F 0 0 0 0\nt1 F 0 0 0 0\nt2 F 0 0 0 0\ncycle 1 LLL\nt0 F 7 50000000 -50000000 7\nt1 H 0 - - -\nt2 H 0 - - -\ncycle 2 LLL\nt0 H 7 - - -\nt1 H 0 - - -\nt2 H 0 - - -\nend 3\n",
        // limits of the other thrusters
        "1 say 0 1 -30000001\n1 say 1 1 -30000000\n1 say 2 1 30000000\n1 say 0 2 60000000\n1 say 1 2 60000001\n1 say 2 2 -60000000\n\
         ~0 pos0 L 1000 0\n0 pos1 L 1000 0\n0 pos2 L 1000 0\n1000 pos0 L 1000 0\n1000 pos1 L 1000 0\n1000 pos2 L 1000 0\n2000 pos0 L 1000 0\n2000 pos1 L 1000 0\n2000 pos2 L 1000 0\n\
         ~0~cycle 0 LLL\nt0 F 0 0 0 0\nt1 F 0 0 0 0\nt2 F 0 0 0 0\ncycle 1 LLL\nt0 H 0 - - -\nt1 H 0 - -30000000 30000000\nt2 H 0 60000000 - -60000000\ncycle 2 LLL\nt0 H 0 - - -\nt1 H 0 - - -\nt2 H 0 - - -\nend 3\n",
        // one liar among three changes nothing
        "1 say 2 0 50000000\n1 usual\n2 say 2 0 -50000000\n2 say 2 1 12\n2 usual\n\
         ~0 pos0 L 1000 0\n0 pos1 L 1000 0\n0 pos2 L 1000 0\n1000 pos0 L 1000 0\n1000 pos1 L 1000 0\n1000 pos2 L 1000 0\n2000 pos0 L 1000 0\n2000 pos1 L 1000 0\n2000 pos2 L 1000 0\n\
         ~0~cycle 0 LLL\nt0 F 0 0 0 0\nt1 F 0 0 0 0\nt2 F 0 0 0 0\ncycle 1 LLL\nt0 F -68360 -68360 -68360 50000000\nt1 F 0 0 0 0\nt2 F 0 0 0 0\ncycle 2 LLL\nt0 F -131397 -131397 -131397 -50000000\nt1 F 0 0 0 12\nt2 F 0 0 0 0\nend 3\n",
        // two said alike are fresh
        "1 say 0 0 123\n1 say 1 0 123\n\
         ~0 pos0 L 1000 0\n0 pos1 L 1000 0\n0 pos2 L 1000 0\n1000 pos0 L 1000 0\n1000 pos1 L 1000 0\n1000 pos2 L 1000 0\n2000 pos0 L 1000 0\n2000 pos1 L 1000 0\n2000 pos2 L 1000 0\n\
         ~0~cycle 0 LLL\nt0 F 0 0 0 0\nt1 F 0 0 0 0\nt2 F 0 0 0 0\ncycle 1 LLL\nt0 F 123 123 123 -\nt1 H 0 - - -\nt2 H 0 - - -\ncycle 2 LLL\nt0 H 123 - - -\nt1 H 0 - - -\nt2 H 0 - - -\nend 3\n",
        // said in the name of a stopped computer
        "0 usual\n1 stop 2\n1 say 2 0 -68360\n1 run 0\n1 orders 0\n\
         ~0 pos0 L 1000 0\n0 pos1 L 1000 0\n0 pos2 L 1000 0\n1000 pos0 L 1000 0\n1000 pos1 L 1000 0\n1000 pos2 L 1000 0\n2000 pos0 L 1000 0\n2000 pos1 L 1000 0\n2000 pos2 L 1000 0\n\
         ~0~cycle 0 LLL\nt0 F 0 0 0 0\nt1 F 0 0 0 0\nt2 F 0 0 0 0\ncycle 1 LLO\nt0 F -68360 -68360 - -68360\nt1 H 0 0 - -\nt2 H 0 0 - -\ncycle 2 LLO\nt0 H -68360 -131397 - -\nt1 H 0 0 - -\nt2 H 0 0 - -\nend 3\n",
    ];
    all_play(&rt, rt.alloc(), rows)
}

/// Computers that reckon from a wrong place.
#[test]
fn skewed_computers_are_played(rt: HostRuntime) -> Result<(), Fail> {
    let rows: &[&str] = &[
        // skew of computer 1, constant at 0
        "1 skew 1 1000000000 0\n1 usual\n\
         ~0 pos0 L 0 0\n0 pos1 L 0 0\n0 pos2 L 0 0\n1000 pos0 L 0 0\n1000 pos1 L 0 0\n1000 pos2 L 0 0\n2000 pos0 L 0 0\n2000 pos1 L 0 0\n2000 pos2 L 0 0\n\
         ~0~cycle 0 LLL\nt0 F 0 0 0 0\nt1 F 0 0 0 0\nt2 F 0 0 0 0\ncycle 1 LLL\nt0 F 0 0 -156250 0\nt1 F 0 0 0 0\nt2 F 0 0 0 0\ncycle 2 LLL\nt0 F 0 0 -83984 0\nt1 F 0 0 0 0\nt2 F 0 0 0 0\nend 3\n",
        // skew in cycle 0
        "0 skew 0 5000000 -5000000\n0 usual\n\
         ~0 pos0 L 1000 0\n0 pos1 L 1000 0\n0 pos2 L 1000 0\n1000 pos0 L 1000 0\n1000 pos1 L 1000 0\n1000 pos2 L 1000 0\n2000 pos0 L 1000 0\n2000 pos1 L 1000 0\n2000 pos2 L 1000 0\n\
         ~0~cycle 0 LLL\nt0 F 0 -782 0 0\nt1 F 0 781 0 0\nt2 F 0 0 0 0\ncycle 1 LLL\nt0 F -68360 -68780 -68360 -68360\nt1 F 0 420 0 0\nt2 F 0 0 0 0\ncycle 2 LLL\nt0 F -131397 -131483 -131397 -131397\nt1 F 0 86 0 0\nt2 F 0 0 0 0\nend 3\n",
        // skew after the usual acts shows a cycle later
        "1 usual\n1 skew 2 -1000000000 1000000000\n\
         ~0 pos0 L 1000 0\n0 pos1 L 1000 0\n0 pos2 L 1000 0\n1000 pos0 L 1000 0\n1000 pos1 L 1000 0\n1000 pos2 L 1000 0\n2000 pos0 L 1000 0\n2000 pos1 L 1000 0\n2000 pos2 L 1000 0\n\
         ~0~cycle 0 LLL\nt0 F 0 0 0 0\nt1 F 0 0 0 0\nt2 F 0 0 0 0\ncycle 1 LLL\nt0 F -68360 -68360 -68360 -68360\nt1 F 0 0 0 0\nt2 F 0 0 0 0\ncycle 2 LLL\nt0 F -131397 -131397 -131397 156249\nt1 F 0 0 0 -156250\nt2 F 0 0 0 0\nend 3\n",
        // skew to the corners of the frame
        "1 skew 0 8796093022208 -8796093022208\n1 usual\n2 skew 1 -8796093022208 8796093022208\n2 usual\n\
         ~0 pos0 L 0 0\n0 pos1 L 0 0\n0 pos2 L 0 0\n1000 pos0 L 0 0\n1000 pos1 L 0 0\n1000 pos2 L 0 0\n2000 pos0 L 0 0\n2000 pos1 L 0 0\n2000 pos2 L 0 0\n3000 pos0 L 0 0\n3000 pos1 L 0 0\n3000 pos2 L 0 0\n\
         ~0~cycle 0 LLL\nt0 F 0 0 0 0\nt1 F 0 0 0 0\nt2 F 0 0 0 0\ncycle 1 LLL\nt0 F 0 -50000000 0 0\nt1 F 0 30000000 0 0\nt2 F 0 0 0 0\ncycle 2 LLL\nt0 F 0 -50000000 50000000 0\nt1 F 0 30000000 -30000000 0\nt2 F 0 0 0 0\ncycle 3 LLL\nt0 F 0 -50000000 50000000 0\nt1 F 0 30000000 -30000000 0\nt2 F 0 0 0 0\nend 4\n",
        // all three skewed alike
        "1 skew 0 9 9\n1 skew 1 9 9\n1 skew 2 9 9\n1 usual\n\
         ~0 pos0 L 1000 0\n0 pos1 L 1000 0\n0 pos2 L 1000 0\n1000 pos0 L 1000 0\n1000 pos1 L 1000 0\n1000 pos2 L 1000 0\n2000 pos0 L 1000 0\n2000 pos1 L 1000 0\n2000 pos2 L 1000 0\n\
         ~0~cycle 0 LLL\nt0 F 0 0 0 0\nt1 F 0 0 0 0\nt2 F 0 0 0 0\ncycle 1 LLL\nt0 F -1 -1 -1 -1\nt1 F -1 -1 -1 -1\nt2 F 0 0 0 0\ncycle 2 LLL\nt0 F -68360 -68360 -68360 -68360\nt1 F 1 1 1 1\nt2 F 0 0 0 0\nend 3\n",
        // all three skewed apart: the middle one is voted
        "1 skew 0 1000000000 0\n1 skew 1 2000000000 0\n1 skew 2 3000000000 0\n1 usual\n\
         ~0 pos0 L 1000 0\n0 pos1 L 1000 0\n0 pos2 L 1000 0\n1000 pos0 L 1000 0\n1000 pos1 L 1000 0\n1000 pos2 L 1000 0\n2000 pos0 L 1000 0\n2000 pos1 L 1000 0\n2000 pos2 L 1000 0\n\
         ~0~cycle 0 LLL\nt0 F 0 0 0 0\nt1 F 0 0 0 0\nt2 F 0 0 0 0\ncycle 1 LLL\nt0 F -312500 -156250 -312500 -468750\nt1 F 0 0 0 0\nt2 F 0 0 0 0\ncycle 2 LLL\nt0 F -236328 -152344 -236328 -320311\nt1 F 0 0 0 0\nt2 F 0 0 0 0\nend 3\n",
        // leading zeros, and -0 for a coordinate
        "001 skew 02 -0 000000000000000009\n0001 usual\n\
         ~0 pos0 L 1000 0\n0 pos1 L 1000 0\n0 pos2 L 1000 0\n1000 pos0 L 1000 0\n1000 pos1 L 1000 0\n1000 pos2 L 1000 0\n2000 pos0 L 1000 0\n2000 pos1 L 1000 0\n2000 pos2 L 1000 0\n\
         ~0~cycle 0 LLL\nt0 F 0 0 0 0\nt1 F 0 0 0 0\nt2 F 0 0 0 0\ncycle 1 LLL\nt0 F -68360 -68360 -68360 0\nt1 F 0 0 0 -1\nt2 F 0 0 0 0\ncycle 2 LLL\nt0 F -131397 -131397 -131397 -68360\nt1 F 0 0 0 1\nt2 F 0 0 0 0\nend 3\n",
    ];
    all_play(&rt, rt.alloc(), rows)
}

/// Computers that were stopped.
#[test]
fn stopped_computers_are_played(rt: HostRuntime) -> Result<(), Fail> {
    let rows: &[&str] = &[
        // stop of each in turn
        "0 usual\n0 stop 0\n1 usual\n1 stop 1\n2 usual\n2 stop 2\n\
         ~0 pos0 L 1000 0\n1000 pos0 L 1000 0\n2000 pos0 L 1000 0\n3000 pos0 L 1000 0\n\
         ~0~cycle 0 OLL\nt0 F 0 0 0 0\nt1 F 0 0 0 0\nt2 F 0 0 0 0\ncycle 1 OOL\nt0 F -68360 - -68360 -68360\nt1 F 0 - 0 0\nt2 F 0 - 0 0\ncycle 2 OOO\nt0 H -68360 - - -131397\nt1 H 0 - - 0\nt2 H 0 - - 0\ncycle 3 OOO\nt0 H -68360 - - -\nt1 H 0 - - -\nt2 H 0 - - -\nend 4\n",
        // stopped before its orders are sent
        "1 run 0\n1 run 1\n1 run 2\n1 stop 1\n1 orders 0\n1 orders 1\n1 orders 2\n\
         ~0 pos0 L 1000 0\n0 pos1 L 1000 0\n0 pos2 L 1000 0\n1000 pos0 L 1000 0\n1000 pos1 L 1000 0\n1000 pos2 L 1000 0\n2000 pos0 L 1000 0\n2000 pos1 L 1000 0\n2000 pos2 L 1000 0\n\
         ~0~cycle 0 LLL\nt0 F 0 0 0 0\nt1 F 0 0 0 0\nt2 F 0 0 0 0\ncycle 1 LOL\nt0 F -68360 -68360 - -68360\nt1 F 0 0 - 0\nt2 F 0 0 - 0\ncycle 2 LOL\nt0 F -131397 -131397 - -131397\nt1 F 0 0 - 0\nt2 F 0 0 - 0\nend 3\n",
        // a stopped computer is not skewed, does not run and is not overrun
        "0 stop 2\n0 skew 2 1000000000 0\n0 usual\n1 stop 2\n1 usual\n\
         ~0 pos0 L 500 0\n18000 pos0 L 500 0\n\
         ~0~cycle 0 LLO\nt0 F 0 0 0 -\nt1 F 0 0 0 -\nt2 F 0 0 0 -\ncycle 1 LLO\nt0 F -34180 -34180 -34180 -\nt1 F 0 0 0 -\nt2 F 0 0 0 -\ncycle 2 LLO\nt0 F -65698 -65698 -65698 -\nt1 F 0 0 0 -\nt2 F 0 0 0 -\ncycle 3 LLO\nt0 F -94678 -94678 -94678 -\nt1 F 0 0 0 -\nt2 F 0 0 0 -\ncycle 4 LLO\nt0 F -121240 -121240 -121240 -\nt1 F 0 0 0 -\nt2 F 0 0 0 -\ncycle 5 LLO\nt0 F -121240 -121240 -121240 -\nt1 F 0 0 0 -\nt2 F 0 0 0 -\ncycle 6 LLO\nt0 F -121240 -121240 -121240 -\nt1 F 0 0 0 -\nt2 F 0 0 0 -\ncycle 7 LLO\nt0 F -121240 -121240 -121240 -\nt1 F 0 0 0 -\nt2 F 0 0 0 -\ncycle 8 LLO\nt0 F -121240 -121240 -121240 -\nt1 F 0 0 0 -\nt2 F 0 0 0 -\ncycle 9 LLO\nt0 F -121240 -121240 -121240 -\nt1 F 0 0 0 -\nt2 F 0 0 0 -\ncycle 10 LLO\nt0 F -121240 -121240 -121240 -\nt1 F 0 0 0 -\nt2 F 0 0 0 -\ncycle 11 LLO\nt0 F -121240 -121240 -121240 -\nt1 F 0 0 0 -\nt2 F 0 0 0 -\ncycle 12 LLO\nt0 F -121240 -121240 -121240 -\nt1 F 0 0 0 -\nt2 F 0 0 0 -\ncycle 13 LLO\nt0 F -121240 -121240 -121240 -\nt1 F 0 0 0 -\nt2 F 0 0 0 -\ncycle 14 LLO\nt0 F -121240 -121240 -121240 -\nt1 F 0 0 0 -\nt2 F 0 0 0 -\ncycle 15 LLO\nt0 F -121240 -121240 -121240 -\nt1 F 0 0 0 -\nt2 F 0 0 0 -\ncycle 16 LLO\nt0 F -121240 -121240 -121240 -\nt1 F 0 0 0 -\nt2 F 0 0 0 -\ncycle 17 LLO\nt0 F -121240 -121240 -121240 -\nt1 F 0 0 0 -\nt2 F 0 0 0 -\ncycle 18 LLO\nt0 F -121240 -121240 -121240 -\nt1 F 0 0 0 -\nt2 F 0 0 0 -\nend 19\n",
    ];
    all_play(&rt, rt.alloc(), rows)
}

/// Computers that more than 16 frames wait for.
#[test]
fn overrun_computers_are_played(rt: HostRuntime) -> Result<(), Fail> {
    let rows: &[&str] = &[
        // computer 2 is overrun at cycle 16
        "0 run 0\n0 run 1\n0 orders 0\n0 orders 1\n1 run 0\n1 run 1\n1 orders 0\n1 orders 1\n2 run 0\n2 run 1\n2 orders 0\n2 orders 1\n3 run 0\n3 run 1\n3 orders 0\n3 orders 1\n4 run 0\n4 run 1\n4 orders 0\n4 orders 1\n5 run 0\n5 run 1\n5 orders 0\n5 orders 1\n6 run 0\n6 run 1\n6 orders 0\n6 orders 1\n7 run 0\n7 run 1\n7 orders 0\n7 orders 1\n8 run 0\n8 run 1\n8 orders 0\n8 orders 1\n9 run 0\n9 run 1\n9 orders 0\n9 orders 1\n10 run 0\n10 run 1\n10 orders 0\n10 orders 1\n11 run 0\n11 run 1\n11 orders 0\n11 orders 1\n12 run 0\n12 run 1\n12 orders 0\n12 orders 1\n13 run 0\n13 run 1\n13 orders 0\n13 orders 1\n14 run 0\n14 run 1\n14 orders 0\n14 orders 1\n15 run 0\n15 run 1\n15 orders 0\n15 orders 1\n16 run 0\n16 run 1\n16 orders 0\n16 orders 1\n\
         ~0 pos0 L 1000 0\n0 pos1 L 1000 0\n0 pos2 L 1000 0\n1000 pos0 L 1000 0\n1000 pos1 L 1000 0\n1000 pos2 L 1000 0\n2000 pos0 L 1000 0\n2000 pos1 L 1000 0\n2000 pos2 L 1000 0\n3000 pos0 L 1000 0\n3000 pos1 L 1000 0\n3000 pos2 L 1000 0\n4000 pos0 L 1000 0\n4000 pos1 L 1000 0\n4000 pos2 L 1000 0\n5000 pos0 L 1000 0\n5000 pos1 L 1000 0\n5000 pos2 L 1000 0\n6000 pos0 L 1000 0\n6000 pos1 L 1000 0\n6000 pos2 L 1000 0\n7000 pos0 L 1000 0\n7000 pos1 L 1000 0\n7000 pos2 L 1000 0\n8000 pos0 L 1000 0\n8000 pos1 L 1000 0\n8000 pos2 L 1000 0\n9000 pos0 L 1000 0\n9000 pos1 L 1000 0\n9000 pos2 L 1000 0\n10000 pos0 L 1000 0\n10000 pos1 L 1000 0\n10000 pos2 L 1000 0\n11000 pos0 L 1000 0\n11000 pos1 L 1000 0\n11000 pos2 L 1000 0\n12000 pos0 L 1000 0\n12000 pos1 L 1000 0\n12000 pos2 L 1000 0\n13000 pos0 L 1000 0\n13000 pos1 L 1000 0\n13000 pos2 L 1000 0\n14000 pos0 L 1000 0\n14000 pos1 L 1000 0\n14000 pos2 L 1000 0\n15000 pos0 L 1000 0\n15000 pos1 L 1000 0\n15000 pos2 L 1000 0\n16000 pos0 L 1000 0\n16000 pos1 L 1000 0\n16000 pos2 L 1000 0\n\
         ~0~cycle 0 LLL\nt0 F 0 0 0 -\nt1 F 0 0 0 -\nt2 F 0 0 0 -\ncycle 1 LLL\nt0 F -68360 -68360 -68360 -\nt1 F 0 0 0 -\nt2 F 0 0 0 -\ncycle 2 LLL\nt0 F -131397 -131397 -131397 -\nt1 F 0 0 0 -\nt2 F 0 0 0 -\ncycle 3 LLL\nt0 F -189356 -189356 -189356 -\nt1 F 0 0 0 -\nt2 F 0 0 0 -\ncycle 4 LLL\nt0 F -242480 -242480 -242480 -\nt1 F 0 0 0 -\nt2 F 0 0 0 -\ncycle 5 LLL\nt0 F -291005 -291005 -291005 -\nt1 F 0 0 0 -\nt2 F 0 0 0 -\ncycle 6 LLL\nt0 F -335163 -335163 -335163 -\nt1 F 0 0 0 -\nt2 F 0 0 0 -\ncycle 7 LLL\nt0 F -375182 -375182 -375182 -\nt1 F 0 0 0 -\nt2 F 0 0 0 -\ncycle 8 LLL\nt0 F -375182 -375182 -375182 -\nt1 F 0 0 0 -\nt2 F 0 0 0 -\ncycle 9 LLL\nt0 F -375182 -375182 -375182 -\nt1 F 0 0 0 -\nt2 F 0 0 0 -\ncycle 10 LLL\nt0 F -375182 -375182 -375182 -\nt1 F 0 0 0 -\nt2 F 0 0 0 -\ncycle 11 LLL\nt0 F -375182 -375182 -375182 -\nt1 F 0 0 0 -\nt2 F 0 0 0 -\ncycle 12 LLL\nt0 F -375182 -375182 -375182 -\nt1 F 0 0 0 -\nt2 F 0 0 0 -\ncycle 13 LLL\nt0 F -375182 -375182 -375182 -\nt1 F 0 0 0 -\nt2 F 0 0 0 -\ncycle 14 LLL\nt0 F -375182 -375182 -375182 -\nt1 F 0 0 0 -\nt2 F 0 0 0 -\ncycle 15 LLL\nt0 F -375182 -375182 -375182 -\nt1 F 0 0 0 -\nt2 F 0 0 0 -\ncycle 16 LLA\nt0 F -375182 -375182 -375182 -\nt1 F 0 0 0 -\nt2 F 0 0 0 -\nend 17\n",
        // 16 frames may wait: the 16 are run in one cycle
        "0 run 0\n0 run 1\n0 orders 0\n0 orders 1\n1 run 0\n1 run 1\n1 orders 0\n1 orders 1\n2 run 0\n2 run 1\n2 orders 0\n2 orders 1\n3 run 0\n3 run 1\n3 orders 0\n3 orders 1\n4 run 0\n4 run 1\n4 orders 0\n4 orders 1\n5 run 0\n5 run 1\n5 orders 0\n5 orders 1\n6 run 0\n6 run 1\n6 orders 0\n6 orders 1\n7 run 0\n7 run 1\n7 orders 0\n7 orders 1\n8 run 0\n8 run 1\n8 orders 0\n8 orders 1\n9 run 0\n9 run 1\n9 orders 0\n9 orders 1\n10 run 0\n10 run 1\n10 orders 0\n10 orders 1\n11 run 0\n11 run 1\n11 orders 0\n11 orders 1\n12 run 0\n12 run 1\n12 orders 0\n12 orders 1\n13 run 0\n13 run 1\n13 orders 0\n13 orders 1\n14 run 0\n14 run 1\n14 orders 0\n14 orders 1\n15 run 2\n15 run 2\n15 run 2\n15 run 2\n15 run 2\n15 run 2\n15 run 2\n15 run 2\n15 run 2\n15 run 2\n15 run 2\n15 run 2\n15 run 2\n15 run 2\n15 run 2\n15 run 2\n15 run 0\n15 run 1\n15 orders 0\n15 orders 1\n15 orders 2\n\
         ~0 pos0 L 1000 -500\n16000 pos0 L 1000 -500\n\
         ~0~cycle 0 LLL\nt0 F 0 0 0 -\nt1 F 0 0 0 -\nt2 F 0 0 0 -\ncycle 1 LLL\nt0 F -68360 -68360 -68360 -\nt1 F 34180 34180 34180 -\nt2 F 0 0 0 -\ncycle 2 LLL\nt0 F -131397 -131397 -131397 -\nt1 F 65699 65699 65699 -\nt2 F 0 0 0 -\ncycle 3 LLL\nt0 F -189356 -189356 -189356 -\nt1 F 94680 94680 94680 -\nt2 F 0 0 0 -\ncycle 4 LLL\nt0 F -242480 -242480 -242480 -\nt1 F 121243 121243 121243 -\nt2 F 0 0 0 -\ncycle 5 LLL\nt0 F -242480 -242480 -242480 -\nt1 F 121243 121243 121243 -\nt2 F 0 0 0 -\ncycle 6 LLL\nt0 F -242480 -242480 -242480 -\nt1 F 121243 121243 121243 -\nt2 F 0 0 0 -\ncycle 7 LLL\nt0 F -242480 -242480 -242480 -\nt1 F 121243 121243 121243 -\nt2 F 0 0 0 -\ncycle 8 LLL\nt0 F -242480 -242480 -242480 -\nt1 F 121243 121243 121243 -\nt2 F 0 0 0 -\ncycle 9 LLL\nt0 F -242480 -242480 -242480 -\nt1 F 121243 121243 121243 -\nt2 F 0 0 0 -\ncycle 10 LLL\nt0 F -242480 -242480 -242480 -\nt1 F 121243 121243 121243 -\nt2 F 0 0 0 -\ncycle 11 LLL\nt0 F -242480 -242480 -242480 -\nt1 F 121243 121243 121243 -\nt2 F 0 0 0 -\ncycle 12 LLL\nt0 F -242480 -242480 -242480 -\nt1 F 121243 121243 121243 -\nt2 F 0 0 0 -\ncycle 13 LLL\nt0 F -242480 -242480 -242480 -\nt1 F 121243 121243 121243 -\nt2 F 0 0 0 -\ncycle 14 LLL\nt0 F -242480 -242480 -242480 -\nt1 F 121243 121243 121243 -\nt2 F 0 0 0 -\ncycle 15 LLL\nt0 F -242480 -242480 -242480 -242480\nt1 F 121243 121243 121243 121243\nt2 F 0 0 0 0\ncycle 16 LLL\nt0 F -242480 -242480 -242480 -242480\nt1 F 121243 121243 121243 121243\nt2 F 0 0 0 0\nend 17\n",
        // all three are overrun
        "0 orders 0\n1 orders 0\n2 orders 0\n3 orders 0\n4 orders 0\n5 orders 0\n6 orders 0\n7 orders 0\n8 orders 0\n9 orders 0\n10 orders 0\n11 orders 0\n12 orders 0\n13 orders 0\n14 orders 0\n15 orders 0\n16 orders 0\n17 orders 0\n\
         ~0 pos0 L 1000 -500\n17000 pos0 L 1000 -500\n\
         ~0~cycle 0 LLL\nt0 H 0 - - -\nt1 H 0 - - -\nt2 H 0 - - -\ncycle 1 LLL\nt0 H 0 - - -\nt1 H 0 - - -\nt2 H 0 - - -\ncycle 2 LLL\nt0 H 0 - - -\nt1 H 0 - - -\nt2 H 0 - - -\ncycle 3 LLL\nt0 H 0 - - -\nt1 H 0 - - -\nt2 H 0 - - -\ncycle 4 LLL\nt0 H 0 - - -\nt1 H 0 - - -\nt2 H 0 - - -\ncycle 5 LLL\nt0 Z 0 - - -\nt1 Z 0 - - -\nt2 Z 0 - - -\ncycle 6 LLL\nt0 Z 0 - - -\nt1 Z 0 - - -\nt2 Z 0 - - -\ncycle 7 LLL\nt0 Z 0 - - -\nt1 Z 0 - - -\nt2 Z 0 - - -\ncycle 8 LLL\nt0 Z 0 - - -\nt1 Z 0 - - -\nt2 Z 0 - - -\ncycle 9 LLL\nt0 Z 0 - - -\nt1 Z 0 - - -\nt2 Z 0 - - -\ncycle 10 LLL\nt0 Z 0 - - -\nt1 Z 0 - - -\nt2 Z 0 - - -\ncycle 11 LLL\nt0 Z 0 - - -\nt1 Z 0 - - -\nt2 Z 0 - - -\ncycle 12 LLL\nt0 Z 0 - - -\nt1 Z 0 - - -\nt2 Z 0 - - -\ncycle 13 LLL\nt0 Z 0 - - -\nt1 Z 0 - - -\nt2 Z 0 - - -\ncycle 14 LLL\nt0 Z 0 - - -\nt1 Z 0 - - -\nt2 Z 0 - - -\ncycle 15 LLL\nt0 Z 0 - - -\nt1 Z 0 - - -\nt2 Z 0 - - -\ncycle 16 AAA\nt0 Z 0 - - -\nt1 Z 0 - - -\nt2 Z 0 - - -\ncycle 17 AAA\nt0 Z 0 - - -\nt1 Z 0 - - -\nt2 Z 0 - - -\nend 18\n",
        // an overrun computer does not run, is not skewed and orders nothing, but may be stopped
        "0 run 0\n0 run 1\n0 orders 0\n0 orders 1\n1 run 0\n1 run 1\n1 orders 0\n1 orders 1\n2 run 0\n2 run 1\n2 orders 0\n2 orders 1\n3 run 0\n3 run 1\n3 orders 0\n3 orders 1\n4 run 0\n4 run 1\n4 orders 0\n4 orders 1\n5 run 0\n5 run 1\n5 orders 0\n5 orders 1\n6 run 0\n6 run 1\n6 orders 0\n6 orders 1\n7 run 0\n7 run 1\n7 orders 0\n7 orders 1\n8 run 0\n8 run 1\n8 orders 0\n8 orders 1\n9 run 0\n9 run 1\n9 orders 0\n9 orders 1\n10 run 0\n10 run 1\n10 orders 0\n10 orders 1\n11 run 0\n11 run 1\n11 orders 0\n11 orders 1\n12 run 0\n12 run 1\n12 orders 0\n12 orders 1\n13 run 0\n13 run 1\n13 orders 0\n13 orders 1\n14 run 0\n14 run 1\n14 orders 0\n14 orders 1\n15 run 0\n15 run 1\n15 orders 0\n15 orders 1\n16 run 0\n16 run 1\n16 orders 0\n16 orders 1\n17 skew 2 5 5\n17 usual\n18 stop 2\n18 usual\n\
         ~0 pos0 L 1000 -500\n19000 pos0 L 1000 -500\n\
         ~0~cycle 0 LLL\nt0 F 0 0 0 -\nt1 F 0 0 0 -\nt2 F 0 0 0 -\ncycle 1 LLL\nt0 F -68360 -68360 -68360 -\nt1 F 34180 34180 34180 -\nt2 F 0 0 0 -\ncycle 2 LLL\nt0 F -131397 -131397 -131397 -\nt1 F 65699 65699 65699 -\nt2 F 0 0 0 -\ncycle 3 LLL\nt0 F -189356 -189356 -189356 -\nt1 F 94680 94680 94680 -\nt2 F 0 0 0 -\ncycle 4 LLL\nt0 F -242480 -242480 -242480 -\nt1 F 121243 121243 121243 -\nt2 F 0 0 0 -\ncycle 5 LLL\nt0 F -242480 -242480 -242480 -\nt1 F 121243 121243 121243 -\nt2 F 0 0 0 -\ncycle 6 LLL\nt0 F -242480 -242480 -242480 -\nt1 F 121243 121243 121243 -\nt2 F 0 0 0 -\ncycle 7 LLL\nt0 F -242480 -242480 -242480 -\nt1 F 121243 121243 121243 -\nt2 F 0 0 0 -\ncycle 8 LLL\nt0 F -242480 -242480 -242480 -\nt1 F 121243 121243 121243 -\nt2 F 0 0 0 -\ncycle 9 LLL\nt0 F -242480 -242480 -242480 -\nt1 F 121243 121243 121243 -\nt2 F 0 0 0 -\ncycle 10 LLL\nt0 F -242480 -242480 -242480 -\nt1 F 121243 121243 121243 -\nt2 F 0 0 0 -\ncycle 11 LLL\nt0 F -242480 -242480 -242480 -\nt1 F 121243 121243 121243 -\nt2 F 0 0 0 -\ncycle 12 LLL\nt0 F -242480 -242480 -242480 -\nt1 F 121243 121243 121243 -\nt2 F 0 0 0 -\ncycle 13 LLL\nt0 F -242480 -242480 -242480 -\nt1 F 121243 121243 121243 -\nt2 F 0 0 0 -\ncycle 14 LLL\nt0 F -242480 -242480 -242480 -\nt1 F 121243 121243 121243 -\nt2 F 0 0 0 -\ncycle 15 LLL\nt0 F -242480 -242480 -242480 -\nt1 F 121243 121243 121243 -\nt2 F 0 0 0 -\ncycle 16 LLA\nt0 F -242480 -242480 -242480 -\nt1 F 121243 121243 121243 -\nt2 F 0 0 0 -\ncycle 17 LLA\nt0 F -242480 -242480 -242480 -\nt1 F 121243 121243 121243 -\nt2 F 0 0 0 -\ncycle 18 LLO\nt0 F -242480 -242480 -242480 -\nt1 F 121243 121243 121243 -\nt2 F 0 0 0 -\ncycle 19 LLO\nt0 F -242480 -242480 -242480 -\nt1 F 121243 121243 121243 -\nt2 F 0 0 0 -\nend 20\n",
    ];
    all_play(&rt, rt.alloc(), rows)
}

/// States that are told, lied about and taken, and new software: how a computer comes back.
#[test]
fn exchanged_states_are_played(rt: HostRuntime) -> Result<(), Fail> {
    let rows: &[&str] = &[
        // a stopped computer comes back, with two frames waiting
        "1 stop 2\n1 usual\n2 restart 2\n2 usual\n3 orders 0\n4 tell 0 2\n4 tell 1 2\n4 run 0\n4 run 0\n4 run 1\n4 run 1\n4 run 2\n4 run 2\n4 orders 0\n4 orders 1\n4 orders 2\n\
         ~0 pos0 L 1000 0\n0 pos1 L 1000 0\n0 pos2 L 1000 0\n1000 pos0 L 1000 0\n1000 pos1 L 1000 0\n1000 pos2 L 1000 0\n2000 pos0 L 1000 0\n2000 pos1 L 1000 0\n2000 pos2 L 1000 0\n3000 pos0 L 1000 0\n3000 pos1 L 1000 0\n3000 pos2 L 1000 0\n4000 pos0 L 1000 0\n4000 pos1 L 1000 0\n4000 pos2 L 1000 0\n\
         ~0~cycle 0 LLL\nt0 F 0 0 0 0\nt1 F 0 0 0 0\nt2 F 0 0 0 0\ncycle 1 LLO\nt0 F -68360 -68360 -68360 -\nt1 F 0 0 0 -\nt2 F 0 0 0 -\ncycle 2 LLA\nt0 F -131397 -131397 -131397 -\nt1 F 0 0 0 -\nt2 F 0 0 0 -\ncycle 3 LLA\nt0 H -131397 - - -\nt1 H 0 - - -\nt2 H 0 - - -\ncycle 4 LLL\nt0 F -242480 -242480 -242480 -242480\nt1 F 0 0 0 0\nt2 F 0 0 0 0\nend 5\n",
        // a lie to one that comes back, and then the truth
        "2 restart 2\n2 usual\n2 tell 0 2\n2 lie 1 2 1000000000 0\n3 usual\n3 tell 0 2\n3 tell 1 2\n\
         ~0 pos0 L 1000 0\n0 pos1 L 1000 0\n0 pos2 L 1000 0\n1000 pos0 L 1000 0\n1000 pos1 L 1000 0\n1000 pos2 L 1000 0\n2000 pos0 L 1000 0\n2000 pos1 L 1000 0\n2000 pos2 L 1000 0\n3000 pos0 L 1000 0\n3000 pos1 L 1000 0\n3000 pos2 L 1000 0\n\
         ~0~cycle 0 LLL\nt0 F 0 0 0 0\nt1 F 0 0 0 0\nt2 F 0 0 0 0\ncycle 1 LLL\nt0 F -68360 -68360 -68360 -68360\nt1 F 0 0 0 0\nt2 F 0 0 0 0\ncycle 2 LLA\nt0 F -131397 -131397 -131397 -\nt1 F 0 0 0 -\nt2 F 0 0 0 -\ncycle 3 LLL\nt0 F -189356 -189356 -189356 -\nt1 F 0 0 0 -\nt2 F 0 0 0 -\nend 4\n",
        // new software on each computer in turn; software 1 reads nothing of software 2
        "1 upgrade 2\n1 usual\n2 usual\n2 tell 0 2\n2 tell 1 2\n3 upgrade 1\n3 usual\n3 tell 0 1\n3 tell 2 1\n4 restart 0\n4 usual\n4 tell 1 0\n4 tell 2 0\n5 upgrade 0\n5 usual\n5 tell 1 0\n5 tell 2 0\n\
         ~0 pos0 L 1000 0\n0 pos1 L 1000 0\n0 pos2 L 1000 0\n1000 pos0 L 1000 0\n1000 pos1 L 1000 0\n1000 pos2 L 1000 0\n2000 pos0 L 1000 0\n2000 pos1 L 1000 0\n2000 pos2 L 1000 0\n3000 pos0 L 1000 0\n3000 pos1 L 1000 0\n3000 pos2 L 1000 0\n4000 pos0 L 1000 0\n4000 pos1 L 1000 0\n4000 pos2 L 1000 0\n5000 pos0 L 1000 0\n5000 pos1 L 1000 0\n5000 pos2 L 1000 0\n\
         ~0~cycle 0 LLL\nt0 F 0 0 0 0\nt1 F 0 0 0 0\nt2 F 0 0 0 0\ncycle 1 LLA\nt0 F -68360 -68360 -68360 -\nt1 F 0 0 0 -\nt2 F 0 0 0 -\ncycle 2 LLL\nt0 F -131397 -131397 -131397 -\nt1 F 0 0 0 -\nt2 F 0 0 0 -\ncycle 3 LLL\nt0 F -189356 -189356 - -189356\nt1 F 0 0 - 0\nt2 F 0 0 - 0\ncycle 4 ALL\nt0 F -242480 - -242480 -242480\nt1 F 0 - 0 0\nt2 F 0 - 0 0\ncycle 5 LLL\nt0 F -291005 - -291005 -291005\nt1 F 0 - 0 0\nt2 F 0 - 0 0\nend 6\n",
        // one liar after another: 1 says, starts again and comes back; then 2 is skewed
        "1 say 1 0 999\n1 usual\n2 restart 1\n2 run 0\n2 run 2\n2 tell 0 1\n2 tell 2 1\n2 orders 0\n2 orders 2\n3 skew 2 1000000000 0\n3 usual\n\
         ~0 pos0 L 1000 0\n0 pos1 L 1000 0\n0 pos2 L 1000 0\n1000 pos0 L 1000 0\n1000 pos1 L 1000 0\n1000 pos2 L 1000 0\n2000 pos0 L 1000 0\n2000 pos1 L 1000 0\n2000 pos2 L 1000 0\n3000 pos0 L 1000 0\n3000 pos1 L 1000 0\n3000 pos2 L 1000 0\n\
         ~0~cycle 0 LLL\nt0 F 0 0 0 0\nt1 F 0 0 0 0\nt2 F 0 0 0 0\ncycle 1 LLL\nt0 F -68360 -68360 999 -68360\nt1 F 0 0 0 0\nt2 F 0 0 0 0\ncycle 2 LLL\nt0 F -131397 -131397 - -131397\nt1 F 0 0 - 0\nt2 F 0 0 - 0\ncycle 3 LLL\nt0 F -189356 -189356 -189356 -156250\nt1 F 0 0 0 0\nt2 F 0 0 0 0\nend 4\n",
        // a stopped computer says; an aligning one lies and sends junk; one computer alone brings nobody back
        "1 stop 1\n1 say 1 0 777\n1 usual\n2 restart 1\n2 restart 2\n2 usual\n3 run 0\n3 tell 0 1\n3 lie 2 1 5 5\n3 junk 2 1 4450533100\n3 junk 2 1 00\n3 orders 0\n4 run 0\n4 tell 0 1\n4 tell 0 1\n4 tell 0 2\n4 orders 0\n\
         ~0 pos0 L 1000 0\n0 pos1 L 1000 0\n0 pos2 L 1000 0\n1000 pos0 L 1000 0\n1000 pos1 L 1000 0\n1000 pos2 L 1000 0\n2000 pos0 L 1000 0\n2000 pos1 L 1000 0\n2000 pos2 L 1000 0\n3000 pos0 L 1000 0\n3000 pos1 L 1000 0\n3000 pos2 L 1000 0\n4000 pos0 L 1000 0\n4000 pos1 L 1000 0\n4000 pos2 L 1000 0\n\
         ~0~cycle 0 LLL\nt0 F 0 0 0 0\nt1 F 0 0 0 0\nt2 F 0 0 0 0\ncycle 1 LOL\nt0 F -68360 -68360 777 -68360\nt1 F 0 0 - 0\nt2 F 0 0 - 0\ncycle 2 LAA\nt0 H -68360 -131397 - -\nt1 H 0 0 - -\nt2 H 0 0 - -\ncycle 3 LAA\nt0 H -68360 -189356 - -\nt1 H 0 0 - -\nt2 H 0 0 - -\ncycle 4 LAA\nt0 H -68360 -242480 - -\nt1 H 0 0 - -\nt2 H 0 0 - -\nend 5\n",
        // offers to a live and to a stopped computer do nothing; nor does a lie of one that isn't live
        "1 usual\n1 tell 0 1\n1 lie 0 1 7 7\n1 stop 2\n1 tell 0 2\n1 tell 1 2\n1 lie 2 0 7 7\n1 tell 2 0\n2 usual\n\
         ~0 pos0 L 1000 0\n0 pos1 L 1000 0\n0 pos2 L 1000 0\n1000 pos0 L 1000 0\n1000 pos1 L 1000 0\n1000 pos2 L 1000 0\n2000 pos0 L 1000 0\n2000 pos1 L 1000 0\n2000 pos2 L 1000 0\n\
         ~0~cycle 0 LLL\nt0 F 0 0 0 0\nt1 F 0 0 0 0\nt2 F 0 0 0 0\ncycle 1 LLO\nt0 F -68360 -68360 -68360 -68360\nt1 F 0 0 0 0\nt2 F 0 0 0 0\ncycle 2 LLO\nt0 F -131397 -131397 -131397 -\nt1 F 0 0 0 -\nt2 F 0 0 0 -\nend 3\n",
        // with junk from 1 to an aligning 2 the orders of 0 and 1 are enough
        "1 restart 2\n1 junk 1 2 ff\n1 usual\n1 junk 1 2 445053320000\n2 usual\n\
         ~0 pos0 L 1000 0\n0 pos1 L 1000 0\n0 pos2 L 1000 0\n1000 pos0 L 1000 0\n1000 pos1 L 1000 0\n1000 pos2 L 1000 0\n2000 pos0 L 1000 0\n2000 pos1 L 1000 0\n2000 pos2 L 1000 0\n\
         ~0~cycle 0 LLL\nt0 F 0 0 0 0\nt1 F 0 0 0 0\nt2 F 0 0 0 0\ncycle 1 LLA\nt0 F -68360 -68360 -68360 -\nt1 F 0 0 0 -\nt2 F 0 0 0 -\ncycle 2 LLA\nt0 F -131397 -131397 -131397 -\nt1 F 0 0 0 -\nt2 F 0 0 0 -\nend 3\n",
        // two that lie alike put a false state into the third: two faulty in one cycle
        "1 restart 2\n1 usual\n1 lie 0 2 1000000000 0\n1 lie 1 2 1000000000 0\n2 usual\n\
         ~0 pos0 L 1000 0\n0 pos1 L 1000 0\n0 pos2 L 1000 0\n1000 pos0 L 1000 0\n1000 pos1 L 1000 0\n1000 pos2 L 1000 0\n2000 pos0 L 1000 0\n2000 pos1 L 1000 0\n2000 pos2 L 1000 0\n\
         ~0~cycle 0 LLL\nt0 F 0 0 0 0\nt1 F 0 0 0 0\nt2 F 0 0 0 0\ncycle 1 LLL\nt0 F -68360 -68360 -68360 -\nt1 F 0 0 0 -\nt2 F 0 0 0 -\ncycle 2 LLL\nt0 F -131397 -131397 -131397 -156250\nt1 F 0 0 0 0\nt2 F 0 0 0 0\nend 3\n",
    ];
    all_play(&rt, rt.alloc(), rows)
}

/// A liar of each kind, and two one after another: every ballot is fresh, with the reference run's force.
#[test]
fn liars_of_each_kind_are_outvoted(rt: HostRuntime) -> Result<(), Fail> {
    let rows: &[&str] = &[
        // computer 1 is skewed
        "1 skew 1 1000000000 0\n1 usual\n2 run 0\n2 run 2\n2 orders 0\n2 orders 2\n3 run 0\n3 run 2\n3 orders 0\n3 orders 2\n\
         ~0 pos0 L 1000 0\n0 pos1 L 1000 0\n0 pos2 L 1000 0\n1000 pos0 L 1000 0\n1000 pos1 L 1000 0\n1000 pos2 L 1000 0\n2000 pos0 L 1000 0\n2000 pos1 L 1000 0\n2000 pos2 L 1000 0\n3000 pos0 L 1000 0\n3000 pos1 L 1000 0\n3000 pos2 L 1000 0\n\
         ~0~cycle 0 LLL\nt0 F 0 0 0 0\nt1 F 0 0 0 0\nt2 F 0 0 0 0\ncycle 1 LLL\nt0 F -68360 -68360 -156250 -68360\nt1 F 0 0 0 0\nt2 F 0 0 0 0\ncycle 2 LLL\nt0 F -131397 -131397 - -131397\nt1 F 0 0 - 0\nt2 F 0 0 - 0\ncycle 3 LLL\nt0 F -189356 -189356 - -189356\nt1 F 0 0 - 0\nt2 F 0 0 - 0\nend 4\n",
        // and says to each voter
        "1 say 1 0 50000000\n1 say 1 1 -30000000\n1 say 1 2 7\n1 run 0\n1 run 2\n1 orders 0\n1 orders 2\n2 say 1 0 -1\n2 say 1 1 -2\n2 say 1 2 -3\n2 usual\n\
         ~0 pos0 L 1000 0\n0 pos1 L 1000 0\n0 pos2 L 1000 0\n1000 pos0 L 1000 0\n1000 pos1 L 1000 0\n1000 pos2 L 1000 0\n2000 pos0 L 1000 0\n2000 pos1 L 1000 0\n2000 pos2 L 1000 0\n\
         ~0~cycle 0 LLL\nt0 F 0 0 0 0\nt1 F 0 0 0 0\nt2 F 0 0 0 0\ncycle 1 LLL\nt0 F -68360 -68360 50000000 -68360\nt1 F 0 0 -30000000 0\nt2 F 0 0 7 0\ncycle 2 LLL\nt0 F -131397 -131397 -1 -131397\nt1 F 0 0 -2 0\nt2 F 0 0 -3 0\nend 3\n",
        // and lies to computer 2, which is aligning: its lie alone is not taken, and the tell of 0 is no match
        "1 restart 2\n1 run 0\n1 run 1\n1 orders 0\n1 orders 1\n1 lie 1 2 1000000000 0\n1 tell 0 2\n2 lie 1 2 -5 7\n2 run 0\n2 run 1\n2 orders 0\n2 orders 1\n\
         ~0 pos0 L 1000 0\n0 pos1 L 1000 0\n0 pos2 L 1000 0\n1000 pos0 L 1000 0\n1000 pos1 L 1000 0\n1000 pos2 L 1000 0\n2000 pos0 L 1000 0\n2000 pos1 L 1000 0\n2000 pos2 L 1000 0\n3000 pos0 L 1000 0\n3000 pos1 L 1000 0\n3000 pos2 L 1000 0\n\
         ~0~cycle 0 LLL\nt0 F 0 0 0 0\nt1 F 0 0 0 0\nt2 F 0 0 0 0\ncycle 1 LLA\nt0 F -68360 -68360 -68360 -\nt1 F 0 0 0 -\nt2 F 0 0 0 -\ncycle 2 LLA\nt0 F -131397 -131397 -131397 -\nt1 F 0 0 0 -\nt2 F 0 0 0 -\ncycle 3 LLA\nt0 F -189356 -189356 -189356 -\nt1 F 0 0 0 -\nt2 F 0 0 0 -\nend 4\n",
        // the true state outvotes a lie: computer 2 takes what 0 and 1 tell alike
        "1 restart 2\n1 lie 1 2 1000000000 0\n1 run 0\n1 run 1\n1 orders 0\n1 orders 1\n1 tell 0 2\n1 tell 1 2\n\
         ~0 pos0 L 1000 0\n0 pos1 L 1000 0\n0 pos2 L 1000 0\n1000 pos0 L 1000 0\n1000 pos1 L 1000 0\n1000 pos2 L 1000 0\n2000 pos0 L 1000 0\n2000 pos1 L 1000 0\n2000 pos2 L 1000 0\n3000 pos0 L 1000 0\n3000 pos1 L 1000 0\n3000 pos2 L 1000 0\n\
         ~0~cycle 0 LLL\nt0 F 0 0 0 0\nt1 F 0 0 0 0\nt2 F 0 0 0 0\ncycle 1 LLL\nt0 F -68360 -68360 -68360 -\nt1 F 0 0 0 -\nt2 F 0 0 0 -\ncycle 2 LLL\nt0 F -131397 -131397 -131397 -131397\nt1 F 0 0 0 0\nt2 F 0 0 0 0\ncycle 3 LLL\nt0 F -189356 -189356 -189356 -189356\nt1 F 0 0 0 0\nt2 F 0 0 0 0\nend 4\n",
        // and sends junk to computer 2
        "1 restart 2\n1 junk 1 2 00\n1 junk 1 2 4450533200\n1 run 0\n1 run 1\n1 orders 0\n1 orders 1\n1 tell 0 2\n1 junk 1 2 ff\n1 tell 1 2\n1 junk 1 2 44505331\n\
         ~0 pos0 L 1000 0\n0 pos1 L 1000 0\n0 pos2 L 1000 0\n1000 pos0 L 1000 0\n1000 pos1 L 1000 0\n1000 pos2 L 1000 0\n2000 pos0 L 1000 0\n2000 pos1 L 1000 0\n2000 pos2 L 1000 0\n3000 pos0 L 1000 0\n3000 pos1 L 1000 0\n3000 pos2 L 1000 0\n\
         ~0~cycle 0 LLL\nt0 F 0 0 0 0\nt1 F 0 0 0 0\nt2 F 0 0 0 0\ncycle 1 LLL\nt0 F -68360 -68360 -68360 -\nt1 F 0 0 0 -\nt2 F 0 0 0 -\ncycle 2 LLL\nt0 F -131397 -131397 -131397 -131397\nt1 F 0 0 0 0\nt2 F 0 0 0 0\ncycle 3 LLL\nt0 F -189356 -189356 -189356 -189356\nt1 F 0 0 0 0\nt2 F 0 0 0 0\nend 4\n",
        // to one that is live too
        "1 junk 1 2 00\n1 lie 1 2 1000000000 0\n1 tell 1 2\n1 usual\n\
         ~0 pos0 L 1000 0\n0 pos1 L 1000 0\n0 pos2 L 1000 0\n1000 pos0 L 1000 0\n1000 pos1 L 1000 0\n1000 pos2 L 1000 0\n2000 pos0 L 1000 0\n2000 pos1 L 1000 0\n2000 pos2 L 1000 0\n\
         ~0~cycle 0 LLL\nt0 F 0 0 0 0\nt1 F 0 0 0 0\nt2 F 0 0 0 0\ncycle 1 LLL\nt0 F -68360 -68360 -68360 -68360\nt1 F 0 0 0 0\nt2 F 0 0 0 0\ncycle 2 LLL\nt0 F -131397 -131397 -131397 -131397\nt1 F 0 0 0 0\nt2 F 0 0 0 0\nend 3\n",
        // and is stopped and says
        "0 usual\n1 stop 1\n1 say 1 0 9\n1 say 1 1 9\n1 say 1 2 9\n1 run 0\n1 run 2\n1 orders 0\n1 orders 2\n2 lie 1 2 0 0\n2 tell 1 2\n2 say 1 0 -9\n2 run 0\n2 run 2\n2 orders 0\n2 orders 2\n\
         ~0 pos0 L 1000 0\n0 pos1 L 1000 0\n0 pos2 L 1000 0\n1000 pos0 L 1000 0\n1000 pos1 L 1000 0\n1000 pos2 L 1000 0\n2000 pos0 L 1000 0\n2000 pos1 L 1000 0\n2000 pos2 L 1000 0\n3000 pos0 L 1000 0\n3000 pos1 L 1000 0\n3000 pos2 L 1000 0\n\
         ~0~cycle 0 LLL\nt0 F 0 0 0 0\nt1 F 0 0 0 0\nt2 F 0 0 0 0\ncycle 1 LOL\nt0 F -68360 -68360 9 -68360\nt1 F 0 0 9 0\nt2 F 0 0 9 0\ncycle 2 LOL\nt0 F -131397 -131397 -9 -131397\nt1 F 0 0 - 0\nt2 F 0 0 - 0\ncycle 3 LOL\nt0 F -189356 -189356 - -189356\nt1 F 0 0 - 0\nt2 F 0 0 - 0\nend 4\n",
        // and is aligning and lies and tells to computer 2
        "1 restart 1\n1 say 1 0 5\n1 lie 1 2 1000000000 0\n1 tell 1 2\n1 junk 1 2 00\n1 run 0\n1 run 2\n1 orders 0\n1 orders 2\n2 say 1 1 5\n2 tell 1 2\n2 run 0\n2 run 2\n2 orders 0\n2 orders 2\n\
         ~0 pos0 L 1000 0\n0 pos1 L 1000 0\n0 pos2 L 1000 0\n1000 pos0 L 1000 0\n1000 pos1 L 1000 0\n1000 pos2 L 1000 0\n2000 pos0 L 1000 0\n2000 pos1 L 1000 0\n2000 pos2 L 1000 0\n3000 pos0 L 1000 0\n3000 pos1 L 1000 0\n3000 pos2 L 1000 0\n\
         ~0~cycle 0 LLL\nt0 F 0 0 0 0\nt1 F 0 0 0 0\nt2 F 0 0 0 0\ncycle 1 LAL\nt0 F -68360 -68360 5 -68360\nt1 F 0 0 - 0\nt2 F 0 0 - 0\ncycle 2 LAL\nt0 F -131397 -131397 - -131397\nt1 F 0 0 5 0\nt2 F 0 0 - 0\ncycle 3 LAL\nt0 F -189356 -189356 - -189356\nt1 F 0 0 - 0\nt2 F 0 0 - 0\nend 4\n",
        // two liars one after another: 1 says, is restarted and takes the state that 0 and 2 tell; then 2 is skewed
        "3 say 1 0 123\n3 say 1 1 -123\n3 say 1 2 123\n3 usual\n4 restart 1\n4 run 0\n4 run 2\n4 tell 0 1\n4 tell 2 1\n4 orders 0\n4 orders 1\n4 orders 2\n5 skew 2 -1000000000 1000000000\n5 usual\n6 usual\n7 usual\n\
         ~0 pos0 L 1000 0\n0 pos1 L 1000 0\n0 pos2 L 1000 0\n1000 pos0 L 1000 0\n1000 pos1 L 1000 0\n1000 pos2 L 1000 0\n2000 pos0 L 1000 0\n2000 pos1 L 1000 0\n2000 pos2 L 1000 0\n3000 pos0 L 1000 0\n3000 pos1 L 1000 0\n3000 pos2 L 1000 0\n4000 pos0 L 1000 0\n4000 pos1 L 1000 0\n4000 pos2 L 1000 0\n5000 pos0 L 1000 0\n5000 pos1 L 1000 0\n5000 pos2 L 1000 0\n6000 pos0 L 1000 0\n6000 pos1 L 1000 0\n6000 pos2 L 1000 0\n7000 pos0 L 1000 0\n7000 pos1 L 1000 0\n7000 pos2 L 1000 0\n\
         ~0~cycle 0 LLL\nt0 F 0 0 0 0\nt1 F 0 0 0 0\nt2 F 0 0 0 0\ncycle 1 LLL\nt0 F -68360 -68360 -68360 -68360\nt1 F 0 0 0 0\nt2 F 0 0 0 0\ncycle 2 LLL\nt0 F -131397 -131397 -131397 -131397\nt1 F 0 0 0 0\nt2 F 0 0 0 0\ncycle 3 LLL\nt0 F -189356 -189356 123 -189356\nt1 F 0 0 -123 0\nt2 F 0 0 123 0\ncycle 4 LLL\nt0 F -242480 -242480 - -242480\nt1 F 0 0 - 0\nt2 F 0 0 - 0\ncycle 5 LLL\nt0 F -291005 -291005 -291005 156249\nt1 F 0 0 0 -156250\nt2 F 0 0 0 0\ncycle 6 LLL\nt0 F -335163 -335163 -335163 15624\nt1 F 0 0 0 -83984\nt2 F 0 0 0 0\ncycle 7 LLL\nt0 F -375182 -375182 -375182 -114279\nt1 F 0 0 0 -17118\nt2 F 0 0 0 0\nend 8\n",
    ];
    all_play(&rt, rt.alloc(), rows)
}
