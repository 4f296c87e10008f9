//! The expected values come from a program written apart from this one.
ghost use Rattle.std.specs.Prelude.{◌≡◌, Some};
ghost use Rattle.dp_plant.specs.declared.references.Verdict.TheVariants.{Usable};

use dp_fuse::{Fused, heading, position, wind};
use dp_plant::{Gust, Place, Verdict};

/// Heading north.
const NORTH: (i64, i64) = (1 << 30, 0);

fn usable(north: i64, east: i64, weight: u32) -> Verdict
    ensures { result ≡ Usable (record { north = north; east = east }) weight }
{
    Verdict::Usable {
        at: Place { north, east },
        weight,
    }
}

fn place(north: i64, east: i64) -> Place {
    Place { north, east }
}

#[test]
fn places_without_levers(rt: HostRuntime) {
    let levers = [(0, 0); 3];
    let three = [
        usable(0, 0, 1),
        usable(10, 10, 1),
        usable(1_000_000, -1_000_000, 1),
    ];
    assert!(rt; position(&three, &levers, NORTH) == Fused::Three(place(10, 0)));
    let alike = [usable(-5, -5, 7), Verdict::Silent, usable(0, 0, 7)];
    assert!(rt; position(&alike, &levers, NORTH) == Fused::Two(place(-3, -3)));
    let heavy_last = [usable(0, 100, 1), usable(1000, -1001, 3), Verdict::Frozen];
    assert!(rt; position(&heavy_last, &levers, NORTH) == Fused::Two(place(750, -726)));
    let heavy_first = [
        Verdict::Jumped,
        usable(0, 100, 1_048_576),
        usable(1000, -1001, 1),
    ];
    assert!(rt; position(&heavy_first, &levers, NORTH) == Fused::Two(place(0, 99)));
    let none = [
        Verdict::Silent,
        Verdict::Stale { age: 4 },
        Verdict::Noisy {
            variance: 6_250_000,
        },
    ];
    assert!(rt; position(&none, &levers, NORTH) == Fused::Blind);
}

#[test]
fn places_with_levers(rt: HostRuntime) {
    let one = [
        usable(5_000_000_000, 5_000_000_000, 1),
        Verdict::Silent,
        Verdict::Silent,
    ];
    let fused = position(&one, &[(2000, -1000); 3], (0, 1 << 30));
    assert!(rt; fused == Fused::One(place(4_000_000_000, 3_000_000_000)));
    let levers = [(500_000, -500_000), (-500_000, 500_000), (1, 0)];
    let three = [usable(7, 7, 5), usable(8, 8, 6), usable(9, 10, 7)];
    let fused = position(&three, &levers, (759_250_107, 759_250_047));
    assert!(rt; fused == Fused::Three(place(-707_097, -27_931)));
}

#[test]
fn headings(rt: HostRuntime) {
    assert!(rt; heading([Some(35999), Some(1), None], 0) == Some(0));
    assert!(rt; heading([Some(1), None, Some(35999)], 0) == Some(0));
    assert!(rt; heading([Some(18000), None, None], 0) == Some(18000));
    assert!(rt; heading([Some(18000), Some(17999), Some(18001)], 0) == Some(18001));
    assert!(rt; heading([Some(0), Some(18000), None], 0) == Some(27000));
    assert!(rt; heading([Some(0), Some(1), Some(2)], 35999) == Some(1));
    assert!(rt; heading([Some(0), None, Some(17999)], 35999) == Some(26999));
    assert!(rt; heading([None, Some(100), Some(103)], 0) == Some(101));
    assert!(rt; heading([None, None, None], 5) == None);
}

fn gust(angle: u32, speed: u32) -> Option<Gust>
    ensures { result ≡ Some (record { angle = angle; speed = speed }) }
{
    Some(Gust { angle, speed })
}

#[test]
fn winds(rt: HostRuntime) {
    assert!(rt; wind([gust(35999, 3000), gust(1, 2001), None], 0) == gust(0, 2500));
    assert!(rt; wind([gust(100, 50), gust(200, 10), gust(300, 99999)], 0) == gust(200, 50));
    assert!(rt; wind([None, gust(18000, 7), None], 0) == gust(18000, 7));
    assert!(rt; wind([gust(0, 1), gust(35998, 2), gust(4, 99999)], 35999) == gust(0, 2));
    assert!(rt; wind([None, None, None], 9) == None);
}
