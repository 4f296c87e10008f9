use dp_fixed::{ceil_div, floor_div, less, mid3, middle, more, root_up, wrap, wrap_near};

// The sum of a sample certificate's roundings, and both sides of a square.
#[test]
fn roots(rt: HostRuntime) {
    let rows = [
        (0, 0),
        (1, 1),
        (2, 2),
        (735_982_641, 27_129),
        (735_982_642, 27_130),
        (735_997_884, 27_130),
        (736_036_900, 27_130),
        (736_036_901, 27_131),
        (1 << 100, 1 << 50),
    ];
    for (n, root) in rows {
        assert!(rt; 0 <= n && n <= 1 << 100);
        assert_eq!(rt; root_up(n), root, "of {n}");
    }
}

// Rounded toward minus infinity, toward plus infinity, and the nearer way round a turn.
#[test]
fn signs(rt: HostRuntime) {
    assert_eq!(rt; (floor_div(-5, 2), ceil_div(-5, 2)), (-3, -2));
    assert_eq!(rt;
        (wrap(18_000, 36_000), wrap(17_999, 36_000)),
        (-18_000, 17_999)
    );
    assert_eq!(rt; wrap(-18_001, 36_000), 17_999);
    assert_eq!(rt; mid3(0, 10, -1_000_000), 0);
}

// The same in 64 bits: a turn of degrees of longitude in 10^-7 minutes, and one of a heading in nanodegrees.
#[test]
fn in_64_bits(rt: HostRuntime) {
    assert_eq!(rt;
        (wrap_near(18_000, 36_000), wrap_near(-18_000, 36_000)),
        (-18_000, -18_000)
    );
    assert_eq!(rt; wrap_near(215_999_999_999, 216_000_000_000), -1);
    assert_eq!(rt;
        wrap_near(-540_000_000_001, 360_000_000_000),
        179_999_999_999
    );
    assert_eq!(rt;
        (middle(0, 10, -1_000_000), middle(i64::MAX, i64::MIN, 7)),
        (0, 7)
    );
    assert_eq!(rt;
        (more(1 << 61, -5), less(-(1 << 61), 5)),
        ((1 << 61) - 5, -(1 << 61) - 5)
    );
}
