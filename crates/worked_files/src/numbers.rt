//! Values from outside: what the OPL manual and this project's rules say of single texts.

use case_tables::{count, pair};
use decimal_text::{id, microdegrees};
use std::alloc::{AllocError, Global};

// A number that is found, or `none`.
fn told(alloc: Global, found: Option<i64>) -> Result<String, AllocError> {
    match found {
        Some(number) => format!(in alloc; "{number}"),
        None => format!(in alloc; "none"),
    }
}

// Texts, each with the microdegrees that are found in it.
const DECIMALS: &[u8] = b"0|0$\
-0|0$\
0.001|1000$\
-1.0000005|-1000001$\
1.00000049|1000000$\
180.0000005|180000001$\
007.5|7500000$\
13.2605430|13260543$\
99999999999999999999999|1000000000000$\
-99999999999999999999999|-1000000000000$\
|none$\
-|none$\
1.|none$\
.5|none$\
1e5|none$\
+1|none";

#[test]
fn decimals_keep_six_digits_and_round_by_the_seventh(rt: HostRuntime) -> Result<(), AllocError> {
    for number in 0..count(DECIMALS) {
        let (text, want) = pair(DECIMALS, number).expect(&rt, "a row of two");
        let found = told(rt.alloc(), microdegrees(text))?;
        assert_eq!(rt; found.as_bytes(), want, "row {number}");
    }
    Ok(())
}

// Texts, each with the id that is found in it.
const IDS: &[u8] = b"1|1$\
-17|-17$\
9223372036854775807|9223372036854775807$\
9223372036854775808|none$\
-9223372036854775808|-9223372036854775808$\
-9223372036854775809|none$\
00000000000000000001|none$\
a1|none";

#[test]
fn ids_have_at_most_nineteen_digits(rt: HostRuntime) -> Result<(), AllocError> {
    for number in 0..count(IDS) {
        let (text, want) = pair(IDS, number).expect(&rt, "a row of two");
        let found = told(rt.alloc(), id(text))?;
        assert_eq!(rt; found.as_bytes(), want, "row {number}");
    }
    Ok(())
}
