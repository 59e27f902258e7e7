//! Numbers in texts, and printed ones, worked out by hand.

use crate::rows::at_bar;
use std::test::*;
use xt_number::{NumberFault, cap_text, power_of_ten, read_fixed, time_text};

/// Texts of numbers with their values in millionths, or why they have none.
const FIXED: &str = "\
123450 | 1.2345e-1
1 | 0.0000005
-1 | -0.0000005
0 | 0.00000049
0 | -0.0000004
2 | 15e-7
3 | 25e-7
-3 | -25e-7
12000000 | +12
-500000 | -.5
500000 | .5E+0
7000000 | 007
0 | 0e99999
0 | -0E-99999
Range | 1e9
Range | 1e9999999999999999999999999999999999999999
0 | 1e-9999999999999999999999999999999999999999
1099511627776 | 1099511.627776
-1099511627776 | -1099511.627776
Range | 1099511.627777
Range | -1099511.627777
1099511627776 | 1099511.6277764
Range | 1099511.6277765
111111 | 111111111111111111111111111111e-30
Digits | 1111111111111111111111111111111
Digits | 1111111111111111111111111111111e99
1000000 | 000000000000000000000000000000000001
1000000 | 1.00000000000000000000000000000
Digits | 1.000000000000000000000000000000
0 | 0.00000000000000000000000000000000000000001
Form |
Form | +
Form | .
Form | -.
Form | 1.
Form | 1.e5
Form | e5
Form | 1e
Form | 1e+
Form | --1
Form | 1.5x
Form |  1
Form | 1e5.0
";

#[test]
fn fixed_values(rt: HostRuntime) -> Result<(), Fail> {
    let alloc = rt.alloc();
    for row in FIXED.lines() {
        let (want, text) = at_bar(row)?;
        let words = match read_fixed(text.as_bytes(), 6) {
            Ok(value) => format!(in alloc; "{value}")?,
            Err(fault) => format!(in alloc; "{fault:?}")?,
        };
        assert!(rt; words.as_str() == want, "{words} at {row}");
    }
    assert_eq!(rt; read_fixed(b"-0.0004", 3), Ok(0));
    assert_eq!(rt; read_fixed(b"1", 12), Ok(1_000_000_000_000));
    assert_eq!(rt; read_fixed(b"2", 12), Err(NumberFault::Range));
    assert_eq!(rt; read_fixed(b"-15e11", -12), Ok(-2));
    Ok(())
}

/// Texts of powers of ten with their exponents, and others.
const POWERS: &str = "\
0 | 1
0 | 1.0
-1 | 0.1
-3 | 0.001
3 | 1000.0
2 | 1e2
1 | +10
0 | 100e-2
0 | 0.0001e4
0 | 0.000000000000000000000000000000000000000000000001e48
1 | 10000000000000000000000000000000000000000e-39
none | 10000
none | 1e-4
none | 2
none | 11
none | 1.01
none | -1
none | 0
none | 1.
none |
none | 1e999999999999999999999999999999
";

#[test]
fn powers(rt: HostRuntime) -> Result<(), Fail> {
    let alloc = rt.alloc();
    for row in POWERS.lines() {
        let (want, text) = at_bar(row)?;
        let words = match power_of_ten(text.as_bytes()) {
            Some(power) => format!(in alloc; "{power}")?,
            None => format!(in alloc; "none")?,
        };
        assert!(rt; words.as_str() == want, "{words} at {row}");
    }
    Ok(())
}

#[test]
fn printed(rt: HostRuntime) {
    for (count, want) in [
        (1234, "1.234"),
        (-500, "-0.500"),
        (0, "0.000"),
        (70, "0.070"),
        (-1, "-0.001"),
        (-12_345_678, "-12345.678"),
        (i128::MAX, "170141183460469231731687303715884105.727"),
        (i128::MIN, "-170141183460469231731687303715884105.728"),
    ] {
        assert_eq!(rt; time_text(count).bytes(), want.as_bytes(), "at {count}");
        assert_eq!(rt; cap_text(count).bytes(), want.as_bytes(), "at {count}");
    }
}
