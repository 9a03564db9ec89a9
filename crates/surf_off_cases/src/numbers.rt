//! Values of coordinates, and whole square roots.
use surf_geom::{FixedFault, fixed, root};

#[test]
fn fixed_values(rt: HostRuntime) {
    for (token, want) in [
        (b"0".as_slice(), Ok(0)),
        (b"+0", Ok(0)),
        (b"-0.0000000001", Ok(0)),
        (b".5", Ok(500_000_000)),
        (b"5.", Ok(5_000_000_000)),
        (b"-1.2345678919", Ok(-1_234_567_891)),
        (b"1E+2", Ok(100_000_000_000)),
        (b"1e-9", Ok(1)),
        (b"123456.7e-14", Ok(1)),
        (b"1e-999", Ok(0)),
        (b"0e999", Ok(0)),
        (b"000000000001.0", Ok(1_000_000_000)),
        (b"0.000000000000000000000000000123e29", Ok(12_300_000_000)),
        (
            b"123456789012345678901234567890e-21",
            Ok(123_456_789_012_345_678),
        ),
        (b"999999999.99999999999", Ok(999_999_999_999_999_999)),
        (b"-999999999.99999999999", Ok(-999_999_999_999_999_999)),
        (b"1e9", Err(FixedFault::Range)),
        (b"-1e9", Err(FixedFault::Range)),
        (b"0.1e10", Err(FixedFault::Range)),
        (b"1e+999", Err(FixedFault::Range)),
        (b"00.1e999", Err(FixedFault::Range)),
        (b"1000000000", Err(FixedFault::Range)),
        (b"0.001e12", Err(FixedFault::Range)),
        (b"+.", Err(FixedFault::Form)),
        (b"", Err(FixedFault::Form)),
        (b"-", Err(FixedFault::Form)),
        (b"1e", Err(FixedFault::Form)),
        (b"1e+", Err(FixedFault::Form)),
        (b"e1", Err(FixedFault::Form)),
        (b".e1", Err(FixedFault::Form)),
        (b"1e1000", Err(FixedFault::Form)),
        (b"1e0001", Err(FixedFault::Form)),
        (b"1e1.0", Err(FixedFault::Form)),
        (b"1e1e1", Err(FixedFault::Form)),
        (b"1,0", Err(FixedFault::Form)),
        (b"1.0.0", Err(FixedFault::Form)),
        (b"+-1", Err(FixedFault::Form)),
        (b"1e9x", Err(FixedFault::Form)),
        (b"nan", Err(FixedFault::Form)),
    ] {
        assert_eq!(rt; fixed(token), want);
    }
}

#[test]
fn roots(rt: HostRuntime) {
    for (s, want) in [
        (0, 0),
        (1, 1),
        (3, 1),
        (4, 2),
        (99, 9),
        (100, 10),
        (18_446_744_065_119_617_024, 4_294_967_294),
        (18_446_744_065_119_617_025, 4_294_967_295),
        (18_446_744_073_709_551_615, 4_294_967_295),
        (18_446_744_073_709_551_616, 4_294_967_296),
        (
            340_282_366_920_938_463_426_481_119_284_349_108_224,
            18_446_744_073_709_551_614,
        ),
        (
            340_282_366_920_938_463_426_481_119_284_349_108_225,
            18_446_744_073_709_551_615,
        ),
        (u128::MAX, u64::MAX),
    ] {
        assert_eq!(rt; root(s), want);
    }
}
