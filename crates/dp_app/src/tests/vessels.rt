//! Other vessels than the sample ones: start, setpoint, levers, cycle, wind, wave filter, thrusters and groups of their own. The
//! answers are a separate program's.
use super::{REPLAY, cut_at, is_same, named, told};
use dp_test_rows::samples::{S1, S2, text_of};
use dp_test_rows::{cut, edited_text};
use std::alloc::Global;
use std::process::Abort;
use std::test::Fail;

/// Sample plants with lines edited: the sample, `~`, the edits, `~`, the record, `~`, the code, `~` and the text.
#[test]
fn other_plants_are_played(rt: HostRuntime) -> Result<(), Fail> {
    let rows: &[&str] = &[
        // start is not the setpoint, and its heading is the base of headings
        "S1~4 start = [1500, -700, 4500]~\
         0 pos0 L 1000 0\n0 pos1 L 1000 0\n0 pos2 L 1000 0\n1000 pos0 L 1000 0\n1000 pos1 L 1000 0\n1000 pos2 L 1000 0\n~\
         0~cycle 0 LLL\nt0 F -222 -222 -222 -222\nt1 F -221 -221 -221 -221\nt2 F -2586 -2586 -2586 -2586\nt3 F -2586 -2586 -2586 -2586\nt4 F 3557 3557 3557 3557\nt5 F 3557 3557 3557 3557\nalarm gyro\nalarm wind\ncycle 1 LLL\nt0 F -240 -240 -240 -240\nt1 F -240 -240 -240 -240\nt2 F -2714 -2714 -2714 -2714\nt3 F -2714 -2714 -2714 -2714\nt4 F 3429 3429 3429 3429\nt5 F 3429 3429 3429 3429\nalarm gyro\nalarm wind\nend 2\n",
        // the setpoint is not the start
        "S1~5 setpoint = [2000, 500, 9000]~\
         0 pos0 L 1000 0\n0 pos1 L 1000 0\n0 pos2 L 1000 0\n0 gyro0 $HEHDT,0.0,T*2F\n1000 pos0 L 1000 0\n1000 pos1 L 1000 0\n1000 pos2 L 1000 0\n1000 gyro0 $HEHDT,0.0,T*2F\n~\
         0~cycle 0 LLL\nt0 F 781 781 781 781\nt1 F 781 781 781 781\nt2 F 6298 6298 6298 6298\nt3 F 6298 6298 6298 6298\nt4 F -5987 -5987 -5987 -5987\nt5 F -5987 -5987 -5987 -5987\nalarm wind\ncycle 1 LLL\nt0 F 590 590 590 590\nt1 F 590 590 590 590\nt2 F 6141 6141 6141 6141\nt3 F 6141 6141 6141 6141\nt4 F -5837 -5837 -5837 -5837\nt5 F -5837 -5837 -5837 -5837\nalarm wind\nend 2\n",
        // cycles of half a second
        "S1~2 cycle_ms = 500~\
         0 pos0 L 1000 0\n0 pos1 L 1000 0\n0 pos2 L 1000 0\n500 pos0 L 1000 0\n500 pos1 L 1000 0\n500 pos2 L 1000 0\n1500 pos0 L 1000 0\n1500 pos1 L 1000 0\n1500 pos2 L 1000 0\n~\
         0~cycle 0 LLL\nt0 F 0 0 0 0\nt1 F 0 0 0 0\nt2 F 0 0 0 0\nt3 F 0 0 0 0\nt4 F 0 0 0 0\nt5 F 0 0 0 0\nalarm gyro\nalarm wind\ncycle 1 LLL\nt0 F -171 -171 -171 -171\nt1 F -171 -171 -171 -171\nt2 F 0 0 0 0\nt3 F 0 0 0 0\nt4 F 0 0 0 0\nt5 F 0 0 0 0\nalarm gyro\nalarm wind\ncycle 2 LLL\nt0 F -329 -329 -329 -329\nt1 F -329 -329 -329 -329\nt2 F 0 0 0 0\nt3 F 0 0 0 0\nt4 F 0 0 0 0\nt5 F 0 0 0 0\nalarm gyro\nalarm wind\ncycle 3 LLL\nt0 F -474 -474 -474 -474\nt1 F -474 -474 -474 -474\nt2 F 0 0 0 0\nt3 F 0 0 0 0\nt4 F 0 0 0 0\nt5 F 0 0 0 0\nalarm gyro\nalarm wind\nend 4\n",
        // each reference has its own lever
        "S1~14 lever = [10000, 0];20 lever = [0, 20000];26 lever = [-30000, -5000]~\
         0 pos0 L 10000 400\n0 pos1 L 500 20000\n0 pos2 L -29000 -5000\n0 gyro0 $HEHDT,0.0,T*2F\n1000 pos0 L 10000 400\n1000 pos1 L 500 20000\n1000 pos2 L -29000 -5000\n1000 gyro0 $HEHDT,0.0,T*2F\n~\
         0~cycle 0 LLL\nt0 F 0 0 0 0\nt1 F 0 0 0 0\nt2 F 0 0 0 0\nt3 F 0 0 0 0\nt4 F 0 0 0 0\nt5 F 0 0 0 0\nalarm wind\ncycle 1 LLL\nt0 F -86 -86 -86 -86\nt1 F -86 -86 -86 -86\nt2 F 0 0 0 0\nt3 F 0 0 0 0\nt4 F 0 0 0 0\nt5 F 0 0 0 0\nalarm wind\nend 2\n",
        // levers turn with the heading
        "S1~14 lever = [10000, 0];20 lever = [0, 20000];26 lever = [-30000, -5000];4 start = [0, 0, 9000];5 setpoint = [0, 0, 9000]~\
         0 pos0 L 0 10400\n0 pos1 L -20500 0\n0 pos2 L 6000 -30000\n0 gyro0 $HEHDT,90.0,T*16\n1000 pos0 L 0 10400\n1000 pos1 L -20500 0\n1000 pos2 L 6000 -30000\n1000 gyro0 $HEHDT,90.0,T*16\n~\
         0~cycle 0 LLL\nt0 F 0 0 0 0\nt1 F 0 0 0 0\nt2 F 0 0 0 0\nt3 F 0 0 0 0\nt4 F 0 0 0 0\nt5 F 0 0 0 0\nalarm wind\ncycle 1 LLL\nt0 F 0 0 0 0\nt1 F 0 0 0 0\nt2 F 0 0 0 0\nt3 F 0 0 0 0\nt4 F 0 0 0 0\nt5 F 0 0 0 0\nalarm wind\nend 2\n",
        // wind on yaw
        "S1~28 push = [[-180000, -60000, 0],[-130000, -160000, 400],[-50000, -220000, 0],[50000, -220000, -3000],[130000, -160000, 0],[180000, -60000, 0],[180000, 60000, 0],[130000, 160000, 0],[50000, 220000, 0],[-50000, 220000, 0],[-130000, 160000, 0],[-180000, 60000, 0]]~\
         0 pos0 L 0 0\n0 pos1 L 0 0\n0 pos2 L 0 0\n0 gyro0 $HEHDT,0.0,T*2F\n0 wind0 $WIMWV,045.0,R,12.0,M,A*12\n1000 pos0 L 0 0\n1000 pos1 L 0 0\n1000 pos2 L 0 0\n1000 gyro0 $HEHDT,0.0,T*2F\n1000 wind0 $WIMWV,100.0,R,09.0,M,A*18\n~\
         0~cycle 0 LLL\nt0 F 44641 44641 44641 44641\nt1 F 44624 44624 44624 44624\nt2 F 43918 43918 43918 43918\nt3 F 43918 43918 43918 43918\nt4 F 43966 43966 43966 43966\nt5 F 43966 43966 43966 43966\nalarm consequence 0\nalarm consequence 1\ncycle 1 LLL\nt0 F -9659 -9659 -9659 -9659\nt1 F -9655 -9655 -9655 -9655\nt2 F 34087 34087 34087 34087\nt3 F 34087 34087 34087 34087\nt4 F 33885 33885 33885 33885\nt5 F 33885 33885 33885 33885\nend 2\n",
        // stale is not frozen
        "S1~25 age = 1~\
         0 pos0 L 0 0\n0 pos1 L 0 0\n0 pos2 L 0 0\n1000 pos0 L 3 1\n1000 pos1 L 3 1\n2000 pos0 L 6 2\n2000 pos1 L 6 2\n3000 pos0 L 9 3\n3000 pos1 L 9 3\n~\
         0~cycle 0 LLL\nt0 F 0 0 0 0\nt1 F 0 0 0 0\nt2 F 0 0 0 0\nt3 F 0 0 0 0\nt4 F 0 0 0 0\nt5 F 0 0 0 0\nalarm gyro\nalarm wind\ncycle 1 LLL\nt0 F 0 0 0 0\nt1 F 0 0 0 0\nt2 F 0 0 0 0\nt3 F 0 0 0 0\nt4 F 0 0 0 0\nt5 F 0 0 0 0\nalarm gyro\nalarm wind\ncycle 2 LLL\nt0 F -1 -1 -1 -1\nt1 F -1 -1 -1 -1\nt2 F -1 -1 -1 -1\nt3 F -1 -1 -1 -1\nt4 F -1 -1 -1 -1\nt5 F -1 -1 -1 -1\nalarm ref 2 stale\nalarm gyro\nalarm wind\ncycle 3 LLL\nt0 F -2 -2 -2 -2\nt1 F -2 -2 -2 -2\nt2 F -1 -1 -1 -1\nt3 F -1 -1 -1 -1\nt4 F -1 -1 -1 -1\nt5 F -1 -1 -1 -1\nalarm ref 2 stale\nalarm gyro\nalarm wind\nend 4\n",
        // jumped is not noisy
        "S1~18 noise_mm2 = 1000~\
         0 pos0 L 0 0\n0 pos1 L 0 0\n0 pos2 L 0 0\n1000 pos0 L 1 1\n1000 pos1 L 70 1\n1000 pos2 L 2 1\n2000 pos0 L 2 2\n2000 pos1 L 140 2\n2000 pos2 L 4 2\n3000 pos0 L 6000 3\n3000 pos1 L 210 3\n3000 pos2 L 6 3\n4000 pos0 L 4 4\n4000 pos1 L 280 4\n4000 pos2 L 8 4\n~\
         0~cycle 0 LLL\nt0 F 0 0 0 0\nt1 F 0 0 0 0\nt2 F 0 0 0 0\nt3 F 0 0 0 0\nt4 F 0 0 0 0\nt5 F 0 0 0 0\nalarm gyro\nalarm wind\ncycle 1 LLL\nt0 F 0 0 0 0\nt1 F 0 0 0 0\nt2 F 0 0 0 0\nt3 F 0 0 0 0\nt4 F 0 0 0 0\nt5 F 0 0 0 0\nalarm ref 1 noisy\nalarm gyro\nalarm wind\ncycle 2 LLL\nt0 F -1 -1 -1 -1\nt1 F -1 -1 -1 -1\nt2 F -1 -1 -1 -1\nt3 F -1 -1 -1 -1\nt4 F -1 -1 -1 -1\nt5 F -1 -1 -1 -1\nalarm ref 1 noisy\nalarm gyro\nalarm wind\ncycle 3 LLL\nt0 F -1 -1 -1 -1\nt1 F -1 -1 -1 -1\nt2 F -1 -1 -1 -1\nt3 F -1 -1 -1 -1\nt4 F -1 -1 -1 -1\nt5 F -1 -1 -1 -1\nalarm ref 0 jumped\nalarm ref 1 noisy\nalarm gyro\nalarm wind\ncycle 4 LLL\nt0 F -2 -2 -2 -2\nt1 F -2 -2 -2 -2\nt2 F -1 -1 -1 -1\nt3 F -1 -1 -1 -1\nt4 F -1 -1 -1 -1\nt5 F -1 -1 -1 -1\nalarm ref 0 jumped\nalarm ref 1 noisy\nalarm gyro\nalarm wind\nend 5\n",
        // frozen after a full window
        "S1~10 window = 4;16 window = 5~\
         0 pos0 L 5 5\n0 pos1 L 5 5\n0 pos2 L 0 0\n1000 pos0 L 5 5\n1000 pos1 L 5 5\n1000 pos2 L 1 1\n2000 pos0 L 5 5\n2000 pos1 L 5 5\n2000 pos2 L 2 2\n3000 pos0 L 5 5\n3000 pos1 L 5 5\n3000 pos2 L 3 3\n4000 pos0 L 5 5\n4000 pos1 L 5 5\n4000 pos2 L 4 4\n~\
         0~cycle 0 LLL\nt0 F 0 0 0 0\nt1 F 0 0 0 0\nt2 F 0 0 0 0\nt3 F 0 0 0 0\nt4 F 0 0 0 0\nt5 F 0 0 0 0\nalarm gyro\nalarm wind\ncycle 1 LLL\nt0 F -1 -1 -1 -1\nt1 F -1 -1 -1 -1\nt2 F -1 -1 -1 -1\nt3 F -1 -1 -1 -1\nt4 F -1 -1 -1 -1\nt5 F -1 -1 -1 -1\nalarm gyro\nalarm wind\ncycle 2 LLL\nt0 F -2 -2 -2 -2\nt1 F -2 -2 -2 -2\nt2 F -2 -2 -2 -2\nt3 F -2 -2 -2 -2\nt4 F -2 -2 -2 -2\nt5 F -2 -2 -2 -2\nalarm gyro\nalarm wind\ncycle 3 LLL\nt0 F -3 -3 -3 -3\nt1 F -3 -3 -3 -3\nt2 F -2 -2 -2 -2\nt3 F -2 -2 -2 -2\nt4 F -2 -2 -2 -2\nt5 F -2 -2 -2 -2\nalarm ref 0 frozen\nalarm gyro\nalarm wind\ncycle 4 LLL\nt0 F -3 -3 -3 -3\nt1 F -3 -3 -3 -3\nt2 F -3 -3 -3 -3\nt3 F -3 -3 -3 -3\nt4 F -3 -3 -3 -3\nt5 F -3 -3 -3 -3\nalarm ref 0 frozen\nalarm ref 1 frozen\nalarm gyro\nalarm wind\nend 5\n",
        // a full wave filter
        "S2~89 wave = [767068877, 643647212, -643647212, 767068877];90 k1 = [-53687091, 161061274];101 rho = 1072414472;102 b = 20714419134;103 r = 1459200;104 g = [5517, 5517];105 p = [74090, -151494074, -590937, 178, -810, 1025880623293, -6162887410, 1067364, -543548, 162604986, 92992, -70580, 1882, -20, 1509];106 span = [6175424, 1871, 129208, 25879482, 29087039];107 form = [[23, -4, -2954, -384, 0, 8], [6, -6, -1, 6, -2, 2], [28, 0, 4765, 415, 8, 0], [11, 5, 0, 5, 2, 0], [71, 32, -66798, -276, 0, 0], [21, 4, -10, 9, 0, 0], [2268, 0, -13009, 256, 0, 0], [224, 0, -26, 32, 0, 0]];108 surge0 = [[17252653, 5855479, 2746337169, 216545041, -4870661, 2097152], [2626364, 6464458, 28960423619, -281569484, 1048576, 0], [32523, 254, -552, 4479, 8192, 0], [16939379, 4194304, 16124796018, -99827864, 0, 0], [84034946, 0, 9261415381, 33554432, 0, 0]];109 surge1 = [[17252653, 5476053, 2746337169, 155836904, -4870661, 2097152], [183918, 5314, -4559, -4785, -239, 16384], [2626364, 2000015, 28960423619, -995878590, 1048576, 0], [12765231, 4194304, 7912947782, 178280970, 0, 0], [392006530, 0, -2559724344, 134217728, 0, 0]];110 surge2 = [[650, 1073741824, 43934728033, 27276554514, -651431194, 283883563], [413, 0, 274877906944, -34737498947, -62110931, 29941490], [501, 0, 0, 137438953472, -75217024, 15027881], [455, 0, 0, 0, 536870912, -223878702]];111 sway0 = [[17252653, 5855479, 2746337169, 216545041, -4870661, 2097152], [2626364, 6464458, 28960423619, -281569484, 1048576, 0], [32523, 254, -552, 4479, 8192, 0], [16939379, 4194304, 16124796018, -99827864, 0, 0], [84034946, 0, 9261415381, 33554432, 0, 0]];112 sway1 = [[17252653, 5476053, 2746337169, 155836904, -4870661, 2097152], [183918, 5314, -4559, -4785, -239, 16384], [2626364, 2000015, 28960423619, -995878590, 1048576, 0], [12765231, 4194304, 7912947782, 178280970, 0, 0], [392006530, 0, -2559724344, 134217728, 0, 0]];113 sway2 = [[650, 1073741824, 43934728033, 27276554514, -651431194, 283883563], [413, 0, 274877906944, -34737498947, -62110931, 29941490], [501, 0, 0, 137438953472, -75217024, 15027881], [455, 0, 0, 0, 536870912, -223878702]];114 out_surge0 = [[10950, -1099, -737734, -95795, -27, 2048], [364, -364, 1, -150, -140, 64], [13653, 181, 1154077, 100213, 2048, 0], [492, 424, 366, 152, 64, 0], [32978, 8192, -17778419, -88433, 0, 0], [1049, 128, -711, 529, 0, 0], [869198, 0, -4750485, 65536, 0, 0], [2406, 0, 8732, 1024, 0, 0]];115 out_surge1 = [[10950, -1099, -737734, -95795, -27, 2048], [364, -364, 1, -150, -140, 64], [13653, 181, 1154077, 100213, 2048, 0], [492, 424, 366, 152, 64, 0], [32978, 8192, -17111605, -88433, 0, 0], [1049, 128, 478, 529, 0, 0], [869198, 0, -4210357, 65536, 0, 0], [2406, 0, -1735, 1024, 0, 0]];116 out_sway0 = [[10950, -1099, -737734, -95795, -27, 2048], [364, -364, 1, -150, -140, 64], [13653, 181, 1154077, 100213, 2048, 0], [492, 424, 366, 152, 64, 0], [32978, 8192, -17778419, -88433, 0, 0], [1049, 128, -711, 529, 0, 0], [869198, 0, -4750485, 65536, 0, 0], [2406, 0, 8732, 1024, 0, 0]];117 out_sway1 = [[10950, -1099, -737734, -95795, -27, 2048], [364, -364, 1, -150, -140, 64], [13653, 181, 1154077, 100213, 2048, 0], [492, 424, 366, 152, 64, 0], [32978, 8192, -17111605, -88433, 0, 0], [1049, 128, 478, 529, 0, 0], [869198, 0, -4210357, 65536, 0, 0], [2406, 0, -1735, 1024, 0, 0]];118 span0 = [[837418, -140714, -94425491, -12261201, -3474, 262144], [14043, 2327, 1207, 1931, -3147, 2048], [1044265, 23302, 147691209, 12824431, 262144, 0], [16135, 1546, -1560, 4072, 2048, 0], [6022362, 524288, -1834415029, -7693789, 0, 0], [18369, 8192, -4943, -2636, 0, 0], [78826827, 0, -488427931, 8388608, 0, 0]];119 span1 = [[5037, -550, -368904, -47902, -14, 1024], [128, 161, -110, -255, 268, 64], [6273, 90, 577632, 50153, 1024, 0], [200, 107, -251, 312, 32, 0], [15365, 4096, -8447988, -35428, 0, 0], [297, 32, -343, -1820, 0, 0], [486707, 0, -1658062, 32768, 0, 0], [3052, 0, -4457, 512, 0, 0]];120 span2 = [[93848, -8795, -5901627, -766329, -217, 16384], [1857, 1112, 356, -1372, -492, 256], [117028, 1457, 9230868, 801542, 16384, 0], [1076, -250, -3237, 2360, 256, 0], [286241, 65536, -135166168, -566910, 0, 0], [3177, 1024, -304, 1714, 0, 0], [4872801, 0, -49363605, 524288, 0, 0], [61084, 0, 3248, 4096, 0, 0]];121 span3 = [[1564961, 290595, 1742530019, 151814518, 262144, -32651], [24808, -2256, -2989, 2284, 2048, -744], [3670646, -274177, -142896566, -20532053, 0, 524288], [11189846, 2097152, -4363569739, -20688067, 0, 0], [236251681, 0, -1403378687, 16777216, 0, 0]];122 span4 = [[1801187, -1451394, -973953456, -126468380, -35837, 262144], [20101, 146, 5458, 2561, 1278, 2048], [5784249, 18767, 277048825, 23251570, 524288, 0], [61513, -5290, 4619, 5252, 4096, 0], [13389558, 2097152, -4656301552, -29669133, 0, 0], [83356203, 0, -2618195489, 33554432, 0, 0]]~\
         0 pos0 L 1000 0\n0 pos1 L 1000 0\n0 pos2 L 1000 0\n0 gyro0 $HEHDT,0.0,T*2F\n1000 pos0 L 1400 -300\n1000 pos1 L 1400 -300\n1000 pos2 L 1400 -300\n1000 gyro0 $HEHDT,0.0,T*2F\n2000 pos0 L 600 500\n2000 pos1 L 600 500\n2000 pos2 L 600 500\n2000 gyro0 $HEHDT,0.0,T*2F\n3000 pos0 L 1200 0\n3000 pos1 L 1200 0\n3000 pos2 L 1200 0\n3000 gyro0 $HEHDT,0.0,T*2F\n~\
         0~cycle 0 LLL\nt0 F 0 0 0 0\nt1 F 0 0 0 0\nt2 F 0 0 0 0\nt3 F 0 0 0 0\nt4 F 0 0 0 0\nt5 F 0 0 0 0\nalarm wind\ncycle 1 LLL\nt0 F -171 -171 -171 -171\nt1 F -171 -171 -171 -171\nt2 F 0 0 0 0\nt3 F 0 0 0 0\nt4 F 0 0 0 0\nt5 F 0 0 0 0\nalarm wind\ncycle 2 LLL\nt0 F -372 -372 -372 -372\nt1 F -372 -372 -372 -372\nt2 F 41 41 41 41\nt3 F 41 41 41 41\nt4 F 41 41 41 41\nt5 F 41 41 41 41\nalarm wind\ncycle 3 LLL\nt0 F -391 -391 -391 -391\nt1 F -391 -391 -391 -391\nt2 F -37 -37 -37 -37\nt3 F -37 -37 -37 -37\nt4 F -37 -37 -37 -37\nt5 F -37 -37 -37 -37\nalarm wind\nend 4\n",
    ];
    all_vessels_play(&rt, rt.alloc(), rows)
}

fn all_vessels_play(rt: &impl Abort, alloc: Global, rows: &[&str]) -> Result<(), Fail> {
    for row in rows {
        vessel_plays(rt, alloc, row)?;
    }
    Ok(())
}

/// Such a row.
fn vessel_plays(rt: &impl Abort, alloc: Global, row: &str) -> Result<(), Fail> {
    let (base, rest) = cut(row, '~');
    let (edits, rest) = cut(rest, '~');
    let (record, wanted) = cut(rest, '~');
    let sample = if base == "S2" { S2 } else { S1 };
    let plant = edited_text(alloc, sample, edits)?;
    is_played(rt, alloc, &plant, record, wanted)
}

/// Plays a record on a plant, and looks for what is told.
fn is_played(
    rt: &impl Abort,
    alloc: Global,
    plant: &str,
    record: &str,
    wanted: &str,
) -> Result<(), Fail> {
    let files = named(alloc, plant, record.as_bytes(), b"")?;
    let seen = told(rt, alloc, REPLAY, files)?;
    is_same(rt, &seen, wanted, record);
    Ok(())
}

/// Twelve thrusters in eight groups, with arms on both sides of the centre line, shares that give the demand to within few newtons, and
/// directions of all kinds. A group from the third on is lost.
#[test]
fn a_vessel_with_twelve_thrusters_is_played(rt: HostRuntime) -> Result<(), Fail> {
    let plant = twelve_thrusters(rt.alloc())?;
    is_played(&rt, rt.alloc(), &plant, WATCH, TOLD)
}

/// The file of its plant.
fn twelve_thrusters(alloc: Global) -> Result<String, Fail> {
    let sample = text_of(alloc, S1)?;
    let (vessel, rest) = cut_at(&sample, "groups = ");
    let (_, rest) = cut_at(rest, "[[ref]]");
    let (sensors, rest) = cut_at(rest, "[[thruster]]");
    let (_, gains) = cut_at(rest, "[gains]");
    let lines = [vessel, MASSES, "[[ref]]", sensors, TWELVE, "[gains]", gains];
    Ok(text_of(alloc, &lines)?)
}

/// The groups, and what a unit of demand takes.
const MASSES: &str = "groups = 8\nmass = [9909, 16987, 175004304]\ntol = [2, 2, 40031]";

/// The thrusters, and the cases without a loss and of each lost group.
const TWELVE: &str =
    "[[thruster]]\ngroup = 0\nat = [-38000, -9000]\nazimuth = 0\nmin = -250000\nmax = 300000\n[[thruster]]\ngroup = 1\nat = [-38000, 9000]\nazimuth = 0\nmin = -250000\nmax = 300000\n[[thruster]]\ngroup = 2\nat = [-36000, -4000]\nazimuth = 0\nmin = -180000\nmax = 200000\n[[thruster]]\ngroup = 3\nat = [-36000, 5000]\nazimuth = 0\nmin = -180000\nmax = 200000\n[[thruster]]\ngroup = 4\nat = [36000, -1000]\nazimuth = 9000\nmin = -140000\nmax = 140000\n[[thruster]]\ngroup = 5\nat = [33000, 2000]\nazimuth = 9000\nmin = -140000\nmax = 140000\n[[thruster]]\ngroup = 6\nat = [30000, 0]\nazimuth = 9000\nmin = -140000\nmax = 140000\n[[thruster]]\ngroup = 7\nat = [-28000, -3000]\nazimuth = 9000\nmin = -120000\nmax = 120000\n[[thruster]]\ngroup = 4\nat = [-30000, 4000]\nazimuth = 9000\nmin = -120000\nmax = 120000\n[[thruster]]\ngroup = 5\nat = [-33000, 0]\nazimuth = 9000\nmin = -120000\nmax = 120000\n[[thruster]]\ngroup = 6\nat = [10000, -8000]\nazimuth = 3000\nmin = -80000\nmax = 90000\n[[thruster]]\ngroup = 7\nat = [-12000, 8000]\nazimuth = 33000\nmin = -80000\nmax = 90000\n[[case]]\nlost = 0\nlo = [-42006576, -21854809, -71083821]\nhi = [42006576, 21854809, 71083821]\nb = [[3099, -534, 862], [3113, 551, -890], [1609, -120, 195], [1612, 161, -259], [-7, 2605, 904], [-7, 2662, 812], [-6, 2719, 721], [6, 2803, -771], [7, 2830, -816], [7, 2872, -883], [275, 464, 86], [275, -530, 21]]\n[[case]]\nlost = 1\nlo = [-28347959, -20613904, -63590508]\nhi = [28347959, 20613904, 63590508]\nb = [[0, 0, 0], [4407, 328, -530], [2439, -264, 426], [2332, 37, -59], [213, 2567, 965], [192, 2628, 867], [170, 2688, 770], [-182, 2835, -823], [-192, 2865, -871], [-208, 2909, -943], [430, 437, 129], [414, -554, 60]]\n[[case]]\nlost = 2\nlo = [-28213707, -20481197, -62979140]\nhi = [28213707, 20481197, 62979140]\nb = [[4404, -303, 489], [0, 0, 0], [2349, 11, -17], [2468, 312, -504], [-237, 2564, 970], [-213, 2625, 871], [-189, 2686, 773], [202, 2837, -827], [214, 2867, -875], [232, 2912, -947], [388, 484, 53], [405, -507, -16]]\n[[case]]\nlost = 4\nlo = [-34746249, -21701858, -70341423]\nhi = [34746249, 21701858, 70341423]\nb = [[3741, -582, 939], [3680, 508, -821], [0, 0, 0], [1915, 138, -223], [31, 2602, 909], [28, 2659, 817], [25, 2716, 725], [-27, 2805, -775], [-28, 2833, -820], [-30, 2875, -887], [332, 459, 93], [330, -534, 28]]\n[[case]]\nlost = 8\nlo = [-34191855, -21523278, -69497725]\nhi = [34191855, 21523278, 69497725]\nb = [[3659, -478, 772], [3773, 617, -996], [1913, -90, 146], [0, 0, 0], [-59, 2600, 912], [-53, 2657, 820], [-47, 2714, 727], [50, 2807, -778], [53, 2835, -823], [58, 2877, -891], [324, 468, 78], [328, -525, 13]]\n[[case]]\nlost = 16\nlo = [-41910703, -15190039, -49064541]\nhi = [41910703, 15190039, 49064541]\nb = [[3096, -690, 1273], [3117, 712, -1314], [1608, -156, 287], [1613, 208, -383], [0, 0, 0], [-10, 4006, 1236], [-9, 4080, 1101], [9, 4038, -1112], [0, 0, 0], [10, 4128, -1278], [274, 692, 133], [275, -777, 26]]\n[[case]]\nlost = 32\nlo = [-41910819, -14684890, -51187333]\nhi = [41910819, 14684890, 51187333]\nb = [[3096, -866, 1272], [3117, 894, -1313], [1608, -196, 287], [1613, 261, -383], [-11, 3787, 1306], [0, 0, 0], [-8, 3971, 1035], [9, 4225, -1159], [10, 4270, -1225], [0, 0, 0], [274, 680, 122], [275, -788, 36]]\n[[case]]\nlost = 64\nlo = [-40528945, -18560028, -58479057]\nhi = [40528945, 18560028, 58479057]\nb = [[3195, 127, 1024], [3174, 231, -983], [1653, 81, 242], [1648, 108, -278], [46, 3902, 1240], [45, 3907, 1135], [0, 0, 0], [17, 2951, -733], [16, 2954, -784], [15, 2958, -861], [0, 0, 0], [277, -631, -6]]\n[[case]]\nlost = 128\nlo = [-40858389, -14963854, -50933251]\nhi = [40858389, 14963854, 50933251]\nb = [[3184, -1410, 1064], [3184, 1071, -1064], [1651, -374, 245], [1651, 269, -307], [-31, 2697, 889], [-31, 2827, 778], [-31, 2957, 667], [0, 0, 0], [-23, 4078, -1144], [-23, 4173, -1226], [277, 511, 72], [0, 0, 0]]";

/// Three cycles, with heading and wind; group 5 is lost in the last.
const WATCH: &str =
    "0 pos0 L 1000 0\n0 pos1 L 1000 0\n0 pos2 L 1000 0\n0 gyro0 $HEHDT,30.0,T*1C\n0 wind0 $WIMWV,060.0,R,09.0,M,A*1F\n1000 pos0 L 1400 -300\n1000 pos1 L 1400 -300\n1000 pos2 L 1400 -300\n1000 gyro0 $HEHDT,30.0,T*1C\n1000 wind0 $WIMWV,060.0,R,09.0,M,A*1F\n2000 pos0 L 600 500\n2000 pos1 L 600 500\n2000 pos2 L 600 500\n2000 gyro0 $HEHDT,30.0,T*1C\n2000 wind0 $WIMWV,060.0,R,09.0,M,A*1F\n2000 grp5 G 0\n";

/// What is told of them.
const TOLD: &str =
    "0~cycle 0 LLL\nt0 F 2760 2760 2760 2760\nt1 F 20396 20396 20396 20396\nt2 F 3981 3981 3981 3981\nt3 F 8547 8547 8547 8547\nt4 F 42193 42193 42193 42193\nt5 F 43117 43117 43117 43117\nt6 F 44045 44045 44045 44045\nt7 F 45450 45450 45450 45450\nt8 F 45892 45892 45892 45892\nt9 F 46572 46572 46572 46572\nt10 F 8533 8533 8533 8533\nt11 F -7577 -7577 -7577 -7577\nalarm consequence 4\nalarm consequence 5\nalarm consequence 7\ncycle 1 LLL\nt0 F 882 882 882 882\nt1 F 21979 21979 21979 21979\nt2 F 3505 3505 3505 3505\nt3 F 8967 8967 8967 8967\nt4 F 40511 40511 40511 40511\nt5 F 41616 41616 41616 41616\nt6 F 42724 42724 42724 42724\nt7 F 47049 47049 47049 47049\nt8 F 47579 47579 47579 47579\nt9 F 48393 48393 48393 48393\nt10 F 8364 8364 8364 8364\nt11 F -7651 -7651 -7651 -7651\nalarm consequence 4\nalarm consequence 5\nalarm consequence 7\ncycle 2 LLL\nt0 F -5882 -5882 -5882 -5882\nt1 F 28559 28559 28559 28559\nt2 F 1904 1904 1904 1904\nt3 F 10840 10840 10840 10840\nt4 F 48086 48086 48086 48086\nt5 F 0 0 0 0\nt6 F 51692 51692 51692 51692\nt7 F 63558 63558 63558 63558\nt8 F 64440 64440 64440 64440\nt9 F 0 0 0 0\nt10 F 10040 10040 10040 10040\nt11 F -10192 -10192 -10192 -10192\nalarm limit sway\nalarm consequence 0\nalarm consequence 1\nalarm consequence 2\nalarm consequence 3\nalarm consequence 4\nalarm consequence 6\nalarm consequence 7\nend 3\n";
