//! Records of sentences and plain lines, some of them damaged: what each brings, or that it brings nothing.
//!
//! A row is `script~record~code~text`, as for whole replays. In most rows the
//! record's last line brings nothing, and its cycle shows the force that the lines before it ask for.
use super::all_play;
use std::test::Fail;

/// Position fixes.
#[test]
fn fixes_are_read(rt: HostRuntime) -> Result<(), Fail> {
    let rows: &[&str] = &[
        // the sample fix is the origin
        "~0 pos0 $GPGGA,123519,4807.038,N,01131.000,E,1,08,0.9,545.4,M,46.9,M,,*47\n1000 pos0 L 1000 0\n2000 pos0 x\n\
         ~0~cycle 0 LLL\nt0 F 0 0 0 0\nt1 F 0 0 0 0\nt2 F 0 0 0 0\ncycle 1 LLL\nt0 F 0 0 0 0\nt1 F 0 0 0 0\nt2 F 0 0 0 0\ncycle 2 LLL\nt0 F -68360 -68360 -68360 -68360\nt1 F 0 0 0 0\nt2 F 0 0 0 0\nend 3\n",
        // a wrong check is damage, and the run goes on
        "~0 pos0 $GPGGA,123519,4808.038,N,01131.000,E,1,08,0.9,545.4,M,46.9,M,,*46\n1000 pos0 L 0 0\n2000 pos0 x\n\
         ~0~cycle 0 LLL\nt0 F 0 0 0 0\nt1 F 0 0 0 0\nt2 F 0 0 0 0\ncycle 1 LLL\nt0 F 0 0 0 0\nt1 F 0 0 0 0\nt2 F 0 0 0 0\ncycle 2 LLL\nt0 F 0 0 0 0\nt1 F 0 0 0 0\nt2 F 0 0 0 0\nend 3\n",
        // quality 0 is no reading
        "~0 pos0 $GPGGA,123519,4808.038,N,01131.000,E,0,08,0.9,545.4,M,46.9,M,,*49\n1000 pos0 $GPGGA,123519,4807.048,N,01131.000,E,6,08,0.9,545.4,M,46.9,M,,*47\n2000 pos0 $GPGGA,123519,4807.048,N,01131.000,E,5,08,0.9,545.4,M,46.9,M,,*44\n3000 pos0 x\n\
         ~0~cycle 0 LLL\nt0 F 0 0 0 0\nt1 F 0 0 0 0\nt2 F 0 0 0 0\ncycle 1 LLL\nt0 F 0 0 0 0\nt1 F 0 0 0 0\nt2 F 0 0 0 0\ncycle 2 LLL\nt0 F 0 0 0 0\nt1 F 0 0 0 0\nt2 F 0 0 0 0\ncycle 3 LLL\nt0 F -1266024 -1266024 -1266024 -1266024\nt1 F 0 0 0 0\nt2 F 0 0 0 0\nend 4\n",
        // five minutes north is no reading, one is
        "~0 pos0 $GPGGA,123519,4812.038,N,01131.000,E,1,08,0.9,545.4,M,46.9,M,,*43\n1000 pos0 $GPGGA,123519,4808.038,N,01131.000,E,1,08,0.9,545.4,M,46.9,M,,*48\n2000 pos0 $GPGGA,123519,4806.038,N,01131.000,E,1,08,0.9,545.4,M,46.9,M,,*46\n3000 pos0 x\n\
         ~0~cycle 0 LLL\nt0 F 0 0 0 0\nt1 F 0 0 0 0\nt2 F 0 0 0 0\ncycle 1 LLL\nt0 F 0 0 0 0\nt1 F 0 0 0 0\nt2 F 0 0 0 0\ncycle 2 LLL\nt0 F -50000000 -50000000 -50000000 -50000000\nt1 F 0 0 0 0\nt2 F 0 0 0 0\ncycle 3 LLL\nt0 F -50000000 -50000000 -50000000 -50000000\nt1 F 0 0 0 0\nt2 F 0 0 0 0\nend 4\n",
        // the last places inside the frame, north and east
        "~0 pos0 $GPGGA,123519,4811.7875103,N,01131.000,E,1,08,0.9,545.4,M,46.9,M,,*44\n1000 pos0 $GPGGA,123519,4802.2884897,N,01131.01,E,1,08,0.9,545.4,M,46.9,M,,*78\n2000 pos0 $GPGGA,123519,4807.038,N,01138.1132138,E,1,08,0.9,545.4,M,46.9,M,,*45\n3000 pos0 $GPGGA,123519,4807.038,N,01138.1132137,E,1,08,0.9,545.4,M,46.9,M,,*4A\n4000 pos0 $GPGGA,123519,4811.7875102,N,01123.8867863,E,1,08,0.9,545.4,M,46.9,M,,*4A\n5000 pos0 x\n\
         ~0~cycle 0 LLL\nt0 F 0 0 0 0\nt1 F 0 0 0 0\nt2 F 0 0 0 0\ncycle 1 LLL\nt0 F 0 0 0 0\nt1 F 0 0 0 0\nt2 F 0 0 0 0\ncycle 2 LLL\nt0 F 0 0 0 0\nt1 F 0 0 0 0\nt2 F 0 0 0 0\ncycle 3 LLL\nt0 F 0 0 0 0\nt1 F 0 0 0 0\nt2 F 0 0 0 0\ncycle 4 LLL\nt0 F 0 0 0 0\nt1 F -30000000 -30000000 -30000000 -30000000\nt2 F 0 0 0 0\ncycle 5 LLL\nt0 F 0 0 0 0\nt1 F -30000000 -30000000 -30000000 -30000000\nt2 F 0 0 0 0\nend 6\n",
        // decimals: none, few, seven, more
        "~0 pos0 $GPGGA,123519,4807,N,01131.,E,1,08,0.9,545.4,M,46.9,M,,*62\n1000 pos0 $GPGGA,123519,4807.04,N,01131.0001,E,1,08,0.9,545.4,M,46.9,M,,*49\n2000 pos0 $GPGGA,123519,4807.0381234,N,01131.0001234,E,1,08,0.9,545.4,M,46.9,M,,*47\n3000 pos0 $GPGGA,123519,4807.03812349,N,01131.00012349999,E,1,08,0.9,545.4,M,46.9,M,,*7E\n4000 pos0 x\n\
         ~0~cycle 0 LLL\nt0 F 0 0 0 0\nt1 F 0 0 0 0\nt2 F 0 0 0 0\ncycle 1 LLL\nt0 F 4810891 4810891 4810891 4810891\nt1 F 0 0 0 0\nt2 F 0 0 0 0\ncycle 2 LLL\nt0 F 4810891 4810891 4810891 4810891\nt1 F 0 0 0 0\nt2 F 0 0 0 0\ncycle 3 LLL\nt0 F 4810891 4810891 4810891 4810891\nt1 F 0 0 0 0\nt2 F 0 0 0 0\ncycle 4 LLL\nt0 F 4810891 4810891 4810891 4810891\nt1 F 0 0 0 0\nt2 F 0 0 0 0\nend 5\n",
        // south and west are far away
        "~0 pos0 $GPGGA,123519,4807.038,S,01131.000,E,1,08,0.9,545.4,M,46.9,M,,*5A\n1000 pos0 $GPGGA,123519,4807.038,N,01131.000,W,1,08,0.9,545.4,M,46.9,M,,*55\n2000 pos0 $GPGGA,123519,9000.0,N,01131.000,E,1,08,0.9,545.4,M,46.9,M,,*4E\n3000 pos0 $GPGGA,123519,4807.038,N,18000.0,E,1,08,0.9,545.4,M,46.9,M,,*4C\n4000 pos0 x\n\
         ~0~cycle 0 LLL\nt0 F 0 0 0 0\nt1 F 0 0 0 0\nt2 F 0 0 0 0\ncycle 1 LLL\nt0 F 0 0 0 0\nt1 F 0 0 0 0\nt2 F 0 0 0 0\ncycle 2 LLL\nt0 F 0 0 0 0\nt1 F 0 0 0 0\nt2 F 0 0 0 0\ncycle 3 LLL\nt0 F 0 0 0 0\nt1 F 0 0 0 0\nt2 F 0 0 0 0\ncycle 4 LLL\nt0 F 0 0 0 0\nt1 F 0 0 0 0\nt2 F 0 0 0 0\nend 5\n",
        // fields of the latitude that are none
        "~0 pos0 $GPGGA,123519,,N,01131.000,E,1,08,0.9,545.4,M,46.9,M,,*59\n1000 pos0 $GPGGA,123519,48080.38,N,01131.000,E,1,08,0.9,545.4,M,46.9,M,,*48\n2000 pos0 $GPGGA,123519,808.038,N,01131.000,E,1,08,0.9,545.4,M,46.9,M,,*7C\n3000 pos0 $GPGGA,123519,4860.0,N,01131.000,E,1,08,0.9,545.4,M,46.9,M,,*4D\n4000 pos0 $GPGGA,123519,9000.0000001,N,01131.000,E,1,08,0.9,545.4,M,46.9,M,,*4F\n5000 pos0 $GPGGA,123519,4807.0423456789012345,N,01131.000,E,1,08,0.9,545.4,M,46.9,M,,*79\n6000 pos0 x\n\
         ~0~cycle 0 LLL\nt0 F 0 0 0 0\nt1 F 0 0 0 0\nt2 F 0 0 0 0\ncycle 1 LLL\nt0 F 0 0 0 0\nt1 F 0 0 0 0\nt2 F 0 0 0 0\ncycle 2 LLL\nt0 F 0 0 0 0\nt1 F 0 0 0 0\nt2 F 0 0 0 0\ncycle 3 LLL\nt0 F 0 0 0 0\nt1 F 0 0 0 0\nt2 F 0 0 0 0\ncycle 4 LLL\nt0 F 0 0 0 0\nt1 F 0 0 0 0\nt2 F 0 0 0 0\ncycle 5 LLL\nt0 F 0 0 0 0\nt1 F 0 0 0 0\nt2 F 0 0 0 0\ncycle 6 LLL\nt0 F -550164 -550164 -550164 -550164\nt1 F 0 0 0 0\nt2 F 0 0 0 0\nend 7\n",
        // a latitude of 20 digits, and of 21
        "~0 pos0 $GPGGA,123519,4807.0423456789012345,N,01131.000,E,1,08,0.9,545.4,M,46.9,M,,*79\n1000 pos0 $GPGGA,123519,4807.02234567890123456,N,01131.000,E,1,08,0.9,545.4,M,46.9,M,,*49\n2000 pos0 x\n\
         ~0~cycle 0 LLL\nt0 F 0 0 0 0\nt1 F 0 0 0 0\nt2 F 0 0 0 0\ncycle 1 LLL\nt0 F -550164 -550164 -550164 -550164\nt1 F 0 0 0 0\nt2 F 0 0 0 0\ncycle 2 LLL\nt0 F -1057493 -1057493 -1057493 -1057493\nt1 F 0 0 0 0\nt2 F 0 0 0 0\nend 3\n",
        // fields of the longitude that are none
        "~0 pos0 $GPGGA,123519,4807.048,N,,E,1,08,0.9,545.4,M,46.9,M,,*6C\n1000 pos0 $GPGGA,123519,4807.048,N,1131.0,E,1,08,0.9,545.4,M,46.9,M,,*70\n2000 pos0 $GPGGA,123519,4807.048,N,01160.0,E,1,08,0.9,545.4,M,46.9,M,,*44\n3000 pos0 $GPGGA,123519,4807.048,N,18000.0000001,E,1,08,0.9,545.4,M,46.9,M,,*4A\n4000 pos0 $GPGGA,123519,4807.048,N,01131,0,E,1,08,0.9,545.4,M,46.9,M,,*42\n5000 pos0 $GPGGA,123519,4807.048,N,0113x.0,E,1,08,0.9,545.4,M,46.9,M,,*09\n6000 pos0 x\n\
         ~0~cycle 0 LLL\nt0 F 0 0 0 0\nt1 F 0 0 0 0\nt2 F 0 0 0 0\ncycle 1 LLL\nt0 F 0 0 0 0\nt1 F 0 0 0 0\nt2 F 0 0 0 0\ncycle 2 LLL\nt0 F 0 0 0 0\nt1 F 0 0 0 0\nt2 F 0 0 0 0\ncycle 3 LLL\nt0 F 0 0 0 0\nt1 F 0 0 0 0\nt2 F 0 0 0 0\ncycle 4 LLL\nt0 F 0 0 0 0\nt1 F 0 0 0 0\nt2 F 0 0 0 0\ncycle 5 LLL\nt0 F 0 0 0 0\nt1 F 0 0 0 0\nt2 F 0 0 0 0\ncycle 6 LLL\nt0 F 0 0 0 0\nt1 F 0 0 0 0\nt2 F 0 0 0 0\nend 7\n",
        // sides and qualities that are none
        "~0 pos0 $GPGGA,123519,4807.048,n,01131.000,E,1,08,0.9,545.4,M,46.9,M,,*60\n1000 pos0 $GPGGA,123519,4807.048,N,01131.000,,1,08,0.9,545.4,M,46.9,M,,*05\n2000 pos0 $GPGGA,123519,4807.048,N,01131.000,E,9,08,0.9,545.4,M,46.9,M,,*48\n3000 pos0 $GPGGA,123519,4807.048,N,01131.000,E,,08,0.9,545.4,M,46.9,M,,*71\n4000 pos0 $GPGGA,123519,4807.048,N,01131.000,E,12,08,0.9,545.4,M,46.9,M,,*72\n5000 pos0 x\n\
         ~0~cycle 0 LLL\nt0 F 0 0 0 0\nt1 F 0 0 0 0\nt2 F 0 0 0 0\ncycle 1 LLL\nt0 F 0 0 0 0\nt1 F 0 0 0 0\nt2 F 0 0 0 0\ncycle 2 LLL\nt0 F 0 0 0 0\nt1 F 0 0 0 0\nt2 F 0 0 0 0\ncycle 3 LLL\nt0 F 0 0 0 0\nt1 F 0 0 0 0\nt2 F 0 0 0 0\ncycle 4 LLL\nt0 F 0 0 0 0\nt1 F 0 0 0 0\nt2 F 0 0 0 0\ncycle 5 LLL\nt0 F 0 0 0 0\nt1 F 0 0 0 0\nt2 F 0 0 0 0\nend 6\n",
        // fields that are missing after the quality are not read
        "~0 pos0 $GPGGA,123519,4807.048,N,01131.000,E,1*54\n1000 pos0 $GPGGA,,4807.028,N,01131.000,E*42\n2000 pos0 $GPGGA*56\n3000 pos0 x\n\
         ~0~cycle 0 LLL\nt0 F 0 0 0 0\nt1 F 0 0 0 0\nt2 F 0 0 0 0\ncycle 1 LLL\nt0 F -1266024 -1266024 -1266024 -1266024\nt1 F 0 0 0 0\nt2 F 0 0 0 0\ncycle 2 LLL\nt0 F -2433478 -2433478 -2433478 -2433478\nt1 F 0 0 0 0\nt2 F 0 0 0 0\ncycle 3 LLL\nt0 F -3506904 -3506904 -3506904 -3506904\nt1 F 0 0 0 0\nt2 F 0 0 0 0\nend 4\n",
    ];
    all_play(&rt, rt.alloc(), rows)
}

/// Sentences and their damage.
#[test]
fn sentences_are_judged(rt: HostRuntime) -> Result<(), Fail> {
    let rows: &[&str] = &[
        // another talker; a proprietary sentence; another formatter; none
        "~0 pos0 $GNGGA,123519,4807.048,N,01131.000,E,1,08,0.9,545.4,M,46.9,M,,*5E\n1000 pos0 $PGGGA,123519,4807.048,N,01131.000,E,1,08,0.9,545.4,M,46.9,M,,*40\n2000 pos0 $GPGLL,123519,4807.048,N,01131.000,E,1,08,0.9,545.4,M,46.9,M,,*46\n3000 pos0 $*00\n4000 pos0 $GGA,123519,4807.028,N,01131.000,E,1,08,0.9,545.4,M,46.9,M,,*51\n5000 pos0 x\n\
         ~0~cycle 0 LLL\nt0 F 0 0 0 0\nt1 F 0 0 0 0\nt2 F 0 0 0 0\ncycle 1 LLL\nt0 F -1266024 -1266024 -1266024 -1266024\nt1 F 0 0 0 0\nt2 F 0 0 0 0\ncycle 2 LLL\nt0 F -2433478 -2433478 -2433478 -2433478\nt1 F 0 0 0 0\nt2 F 0 0 0 0\ncycle 3 LLL\nt0 F -3506904 -3506904 -3506904 -3506904\nt1 F 0 0 0 0\nt2 F 0 0 0 0\ncycle 4 LLL\nt0 F -4490770 -4490770 -4490770 -4490770\nt1 F 0 0 0 0\nt2 F 0 0 0 0\ncycle 5 LLL\nt0 F -4490770 -4490770 -4490770 -4490770\nt1 F 0 0 0 0\nt2 F 0 0 0 0\nend 6\n",
        // check digits of either case
        "~0 pos0 $GPGGA,123519,4807.060,N,01131.000,E,1,08,0.9,545.4,M,46.9,M,,*4a\n1000 pos0 $GPGGA,123519,4807.060,N,01131.000,E,1,08,0.9,545.4,M,46.9,M,,*4A\n2000 pos0 x\n\
         ~0~cycle 0 LLL\nt0 F 0 0 0 0\nt1 F 0 0 0 0\nt2 F 0 0 0 0\ncycle 1 LLL\nt0 F -2785253 -2785253 -2785253 -2785253\nt1 F 0 0 0 0\nt2 F 0 0 0 0\ncycle 2 LLL\nt0 F -5353653 -5353653 -5353653 -5353653\nt1 F 0 0 0 0\nt2 F 0 0 0 0\nend 3\n",
        // 24 fields and 25
        "~0 pos0 $GPGGA,123519,4807.048,N,01131.000,E,1,,,,,,,,,,,,,,,,,,*54\n1000 pos0 $GPGGA,123519,4807.028,N,01131.000,E,1,,,,,,,,,,,,,,,,,,,*7E\n2000 pos0 x\n\
         ~0~cycle 0 LLL\nt0 F 0 0 0 0\nt1 F 0 0 0 0\nt2 F 0 0 0 0\ncycle 1 LLL\nt0 F -1266024 -1266024 -1266024 -1266024\nt1 F 0 0 0 0\nt2 F 0 0 0 0\ncycle 2 LLL\nt0 F -2433478 -2433478 -2433478 -2433478\nt1 F 0 0 0 0\nt2 F 0 0 0 0\nend 3\n",
        // a sentence of 160 bytes, and of 161
        "~0 pos0 $GPGGA,123519,4807.048,N,01131.000,E,1,7777777777777777777777777777777777777777777777777777777777777777777777777777777777777777777777777777777777777777777777*78\n1000 pos0 $GPGGA,123519,4807.028,N,01131.000,E,1,77777777777777777777777777777777777777777777777777777777777777777777777777777777777777777777777777777777777777777777777*49\n2000 pos0 x\n\
         ~0~cycle 0 LLL\nt0 F 0 0 0 0\nt1 F 0 0 0 0\nt2 F 0 0 0 0\ncycle 1 LLL\nt0 F -1266024 -1266024 -1266024 -1266024\nt1 F 0 0 0 0\nt2 F 0 0 0 0\ncycle 2 LLL\nt0 F -2433478 -2433478 -2433478 -2433478\nt1 F 0 0 0 0\nt2 F 0 0 0 0\nend 3\n",
        // damage: nothing, no dollar, no check, a cut end, a blank at the end
        "~0 pos0 \n1000 pos0 GPGGA\n2000 pos0 $GPGGA,1\n3000 pos0 $GPGGA,123519,4807.048,N,01131.000,E,1,08,0.9,545.4,M,46.9,M,,*4\n4000 pos0 $GPGGA,123519,4807.048,N,01131.000,E,1,08,0.9,545.4,M,46.9,M,,*40 \n5000 pos0 !GPGGA,123519,4807.048,N,01131.000,E,1,08,0.9,545.4,M,46.9,M,,*40\n6000 pos0 x\n\
         ~0~cycle 0 LLL\nt0 F 0 0 0 0\nt1 F 0 0 0 0\nt2 F 0 0 0 0\ncycle 1 LLL\nt0 F 0 0 0 0\nt1 F 0 0 0 0\nt2 F 0 0 0 0\ncycle 2 LLL\nt0 F 0 0 0 0\nt1 F 0 0 0 0\nt2 F 0 0 0 0\ncycle 3 LLL\nt0 F 0 0 0 0\nt1 F 0 0 0 0\nt2 F 0 0 0 0\ncycle 4 LLL\nt0 F 0 0 0 0\nt1 F 0 0 0 0\nt2 F 0 0 0 0\ncycle 5 LLL\nt0 F 0 0 0 0\nt1 F 0 0 0 0\nt2 F 0 0 0 0\ncycle 6 LLL\nt0 F 0 0 0 0\nt1 F 0 0 0 0\nt2 F 0 0 0 0\nend 7\n",
        // a lone CR at the end damages the sentence
        "~0 pos0 L 0 0\n1000 pos0 $GPGGA,123519,4807.048,N,01131.000,E,1,08,0.9,545.4,M,46.9,M,,*40\r\
         ~0~cycle 0 LLL\nt0 F 0 0 0 0\nt1 F 0 0 0 0\nt2 F 0 0 0 0\ncycle 1 LLL\nt0 F 0 0 0 0\nt1 F 0 0 0 0\nt2 F 0 0 0 0\nend 2\n",
        // CR LF, and an empty line of it
        "0 usual\r\n\
         ~0 pos0 $GPGGA,123519,4807.048,N,01131.000,E,1,08,0.9,545.4,M,46.9,M,,*40\r\n\r\n1000 pos0 L 0 0\r\n\
         ~0~cycle 0 LLL\nt0 F 0 0 0 0\nt1 F 0 0 0 0\nt2 F 0 0 0 0\ncycle 1 LLL\nt0 F -1266024 -1266024 -1266024 -1266024\nt1 F 0 0 0 0\nt2 F 0 0 0 0\nend 2\n",
    ];
    all_play(&rt, rt.alloc(), rows)
}

/// Plain places, and what comes on other wires.
#[test]
fn plain_lines_are_read(rt: HostRuntime) -> Result<(), Fail> {
    let rows: &[&str] = &[
        // a damaged line after a good one leaves its reading
        "~0 pos0 L 2000 0\n1 pos0 $GPGGA,1\n2 pos0 L 1 2 3\n1000 pos0 L 0 0\n\
         ~0~cycle 0 LLL\nt0 F 0 0 0 0\nt1 F 0 0 0 0\nt2 F 0 0 0 0\ncycle 1 LLL\nt0 F -136720 -136720 -136720 -136720\nt1 F 0 0 0 0\nt2 F 0 0 0 0\nend 2\n",
        // plain places: the limits, and parts that are wrong
        "~0 pos0 L 8796094 0\n1000 pos0 L\n2000 pos0 L 1\n3000 pos0 L 1 2 3\n4000 pos0 Lx 1 2\n5000 pos0 L -0 0001000\n6000 pos0 L 8796093 -8796093\n7000 pos0 x\n\
         ~0~cycle 0 LLL\nt0 F 0 0 0 0\nt1 F 0 0 0 0\nt2 F 0 0 0 0\ncycle 1 LLL\nt0 F 0 0 0 0\nt1 F 0 0 0 0\nt2 F 0 0 0 0\ncycle 2 LLL\nt0 F 0 0 0 0\nt1 F 0 0 0 0\nt2 F 0 0 0 0\ncycle 3 LLL\nt0 F 0 0 0 0\nt1 F 0 0 0 0\nt2 F 0 0 0 0\ncycle 4 LLL\nt0 F 0 0 0 0\nt1 F 0 0 0 0\nt2 F 0 0 0 0\ncycle 5 LLL\nt0 F 0 0 0 0\nt1 F 0 0 0 0\nt2 F 0 0 0 0\ncycle 6 LLL\nt0 F 0 0 0 0\nt1 F -68360 -68360 -68360 -68360\nt2 F 0 0 0 0\ncycle 7 LLL\nt0 F 0 0 0 0\nt1 F -68360 -68360 -68360 -68360\nt2 F 0 0 0 0\nend 8\n",
        // plain forms on other wires; groups have no effect yet
        "~0 pos0 G 1\n0 gyro1 L 1 1\n0 wind2 G 0\n0 grp0 G 0\n0 grp1 G 1\n0 grp1 G 2\n0 grp0 L 5 5\n0 pos1 L 3000 0\n1000 grp0 G 1\n\
         ~0~cycle 0 LLL\nt0 F 0 0 0 0\nt1 F 0 0 0 0\nt2 F 0 0 0 0\ncycle 1 LLL\nt0 F -205080 -205080 -205080 -205080\nt1 F 0 0 0 0\nt2 F 0 0 0 0\nend 2\n",
        // headings and wind on their wires
        "~0 gyro0 $HEHDT,90.0,T*16\n0 gyro1 $HETHS,1.5,A*29\n0 gyro2 $HEHDT,400,T*35\n0 wind0 $WIMWV,045.0,R,10.0,N,A*13\n0 wind1 $WIMWV,045.0,T,10.0,N,A*15\n0 wind2 $WIMWV\n0 pos0 $GPGGA,123519,4807.048,N,01131.000,E,1,08,0.9,545.4,M,46.9,M,,*40\n1000 pos2 $HEHDT,90.0,T*16\n\
         ~0~cycle 0 LLL\nt0 F 3280541 3280541 3280541 3280541\nt1 F 4037588 4037588 4037588 4037588\nt2 F 0 0 0 0\ncycle 1 LLL\nt0 F -883420 -883420 -883420 -883420\nt1 F 906855 906855 906855 906855\nt2 F -3127462 -3127462 -3127462 -3127462\nend 2\n",
        // a heading is a line of a gyro wire
        "~0 gyro0 $HEHDT,90.0,T*16\n\
         ~0~cycle 0 LLL\nt0 F 0 0 0 0\nt1 F 0 0 0 0\nt2 F 0 0 0 0\nend 1\n",
        // a lone CR at the end of a place
        "~0 pos0 L 5 5\n1000 pos0 L 5 5\r\
         ~0~cycle 0 LLL\nt0 F 0 0 0 0\nt1 F 0 0 0 0\nt2 F 0 0 0 0\ncycle 1 LLL\nt0 F -342 -342 -342 -342\nt1 F -342 -342 -342 -342\nt2 F 0 0 0 0\nend 2\n",
    ];
    all_play(&rt, rt.alloc(), rows)
}

/// Readings of several wires, and cycles without any.
#[test]
fn readings_are_fused(rt: HostRuntime) -> Result<(), Fail> {
    let rows: &[&str] = &[
        // fixes and places of three wires: the middle, the mean, one
        "~0 pos0 $GPGGA,123519,4807.039,N,01131.000,E,1,08,0.9,545.4,M,46.9,M,,*46\n0 pos1 L 5000 5\n0 pos2 L -3 100\n1000 pos1 $GPGGA,123519,4807.038,N,01131.0011,E,1,08,0.9,545.4,M,46.9,M,,*77\n1000 pos2 L 7 8\n2000 pos2 L 5 5\n3000 pos0 L 5 5\n\
         ~0~cycle 0 LLL\nt0 F 0 0 0 0\nt1 F 0 0 0 0\nt2 F 0 0 0 0\ncycle 1 LLL\nt0 F -126602 -126602 -126602 -126602\nt1 F -342 -342 -342 -342\nt2 F 0 0 0 0\ncycle 2 LLL\nt0 F -243288 -243288 -243288 -243288\nt1 F -314 -314 -314 -314\nt2 F 0 0 0 0\ncycle 3 LLL\nt0 F -350571 -350571 -350571 -350571\nt1 F -289 -289 -289 -289\nt2 F 0 0 0 0\nend 4\n",
        // a gap of cycles, and readings of other wires between
        "~0 pos0 L 2000 0\n3000 gyro0 $HEHDT,90.0,T*16\n6000 pos0 L 1 1\n\
         ~0~cycle 0 LLL\nt0 F 0 0 0 0\nt1 F 0 0 0 0\nt2 F 0 0 0 0\ncycle 1 LLL\nt0 F -136720 -136720 -136720 -136720\nt1 F 0 0 0 0\nt2 F 0 0 0 0\ncycle 2 LLL\nt0 F -262795 -262795 -262795 -262795\nt1 F 0 0 0 0\nt2 F 0 0 0 0\ncycle 3 LLL\nt0 F 0 0 0 0\nt1 F 378714 378714 378714 378714\nt2 F 0 0 0 0\ncycle 4 LLL\nt0 F 0 0 0 0\nt1 F 484962 484962 484962 484962\nt2 F -6152384 -6152384 -6152384 -6152384\ncycle 5 LLL\nt0 F 0 0 0 0\nt1 F 484962 484962 484962 484962\nt2 F -6152384 -6152384 -6152384 -6152384\ncycle 6 LLL\nt0 F 0 0 0 0\nt1 F 484962 484962 484962 484962\nt2 F -6152384 -6152384 -6152384 -6152384\nend 7\n",
        // empty frames before, between and an empty line
        "2 run 0\n\
         ~2000 pos0 L 100 200\n\n5999 pos2 L 100 200\n\
         ~0~cycle 0 LLL\nt0 F 0 0 0 0\nt1 F 0 0 0 0\nt2 F 0 0 0 0\ncycle 1 LLL\nt0 F 0 0 0 0\nt1 F 0 0 0 0\nt2 F 0 0 0 0\ncycle 2 LLL\nt0 H 0 - - -\nt1 H 0 - - -\nt2 H 0 - - -\ncycle 3 LLL\nt0 H 0 -6836 - -\nt1 H 0 -13672 - -\nt2 H 0 0 - -\ncycle 4 LLL\nt0 H 0 -13139 - -\nt1 H 0 -26279 - -\nt2 H 0 0 - -\ncycle 5 LLL\nt0 H 0 -18935 - -\nt1 H 0 -37871 - -\nt2 H 0 0 - -\nend 6\n",
        // far places saturate the demand; the last reading of a cycle counts
        "~0 pos0 L 8796093 -8796093\n999 pos0 L 8796093 -8796093\n1000 pos0 L 0 0\n1999 pos0 L -8796093 8796093\n2500 pos0 L 0 0\n\
         ~0~cycle 0 LLL\nt0 F 0 0 0 0\nt1 F 0 0 0 0\nt2 F 0 0 0 0\ncycle 1 LLL\nt0 F -50000000 -50000000 -50000000 -50000000\nt1 F 30000000 30000000 30000000 30000000\nt2 F 0 0 0 0\ncycle 2 LLL\nt0 F -50000000 -50000000 -50000000 -50000000\nt1 F 30000000 30000000 30000000 30000000\nt2 F 0 0 0 0\nend 3\n",
        // three references: the middle
        "~0 pos0 L 5000 1000\n0 pos1 L 4000 -9000\n1 pos2 L -600 2000\n1000 pos0 L 7 7\n2000 pos1 L 7 7\n\
         ~0~cycle 0 LLL\nt0 F 0 0 0 0\nt1 F 0 0 0 0\nt2 F 0 0 0 0\ncycle 1 LLL\nt0 F -273439 -273439 -273439 -273439\nt1 F -68360 -68360 -68360 -68360\nt2 F 0 0 0 0\ncycle 2 LLL\nt0 F -368361 -368361 -368361 -368361\nt1 F 176223 176223 176223 176223\nt2 F 0 0 0 0\nend 3\n",
        // the mean of two, rounded down
        "~0 pos1 L -5 -1\n0 pos2 L 2 0\n1000 pos1 L 0 0\n2000 pos0 L 0 0\n\
         ~0~cycle 0 LLL\nt0 F 0 0 0 0\nt1 F 0 0 0 0\nt2 F 0 0 0 0\ncycle 1 LLL\nt0 F 103 103 103 103\nt1 F 34 34 34 34\nt2 F 0 0 0 0\ncycle 2 LLL\nt0 F -25 -25 -25 -25\nt1 F 32 32 32 32\nt2 F 0 0 0 0\nend 3\n",
        // references 0 and 2
        "~0 pos0 L 7 1\n0 pos2 L -100 2\n1000 pos0 L 0 0\n\
         ~0~cycle 0 LLL\nt0 F 0 0 0 0\nt1 F 0 0 0 0\nt2 F 0 0 0 0\ncycle 1 LLL\nt0 F 3179 3179 3179 3179\nt1 F -103 -103 -103 -103\nt2 F 0 0 0 0\nend 2\n",
        // one reference alone
        "~0 pos2 L -2000 3000\n1000 pos2 L -2000 3000\n2000 pos2 L -2000 3000\n\
         ~0~cycle 0 LLL\nt0 F 0 0 0 0\nt1 F 0 0 0 0\nt2 F 0 0 0 0\ncycle 1 LLL\nt0 F 136720 136720 136720 136720\nt1 F -205080 -205080 -205080 -205080\nt2 F 0 0 0 0\ncycle 2 LLL\nt0 F 262796 262796 262796 262796\nt1 F -394192 -394192 -394192 -394192\nt2 F 0 0 0 0\nend 3\n",
        // a time that stays, and fifteen digits of one
        "~7 pos0 L 1000 1000\n7 pos0 L 2000 2000\n000000000001000 pos0 L 0 0\n\
         ~0~cycle 0 LLL\nt0 F 0 0 0 0\nt1 F 0 0 0 0\nt2 F 0 0 0 0\ncycle 1 LLL\nt0 F -136720 -136720 -136720 -136720\nt1 F -136720 -136720 -136720 -136720\nt2 F 0 0 0 0\nend 2\n",
        // carriage returns before line feeds, and eighteen digits
        "~0 pos0 L 000000000000001000 -0\r\n\r\n1000 pos0 L 0 0\r\n\
         ~0~cycle 0 LLL\nt0 F 0 0 0 0\nt1 F 0 0 0 0\nt2 F 0 0 0 0\ncycle 1 LLL\nt0 F -68360 -68360 -68360 -68360\nt1 F 0 0 0 0\nt2 F 0 0 0 0\nend 2\n",
    ];
    all_play(&rt, rt.alloc(), rows)
}
