// Numbers at the ends of their ranges, and past them.

use crate::fixtures::Wanted::{self, Refused};
use crate::fixtures::{Row, have_results, read};
use command_words::ErrorClass;
use std::test::Fail;

const MISUSE: Wanted<'_> = Refused(ErrorClass::UsageError, &[]);

const ROWS: &[Row<'_>] = &[
    (&["p.com", "--limit", "0"], read!(limit: 0)),
    (
        &["p.com", "--limit", "4000000000"],
        read!(limit: 4_000_000_000),
    ),
    (&["p.com", "--spacing", "1"], read!(spacing: 1)),
    (
        &["p.com", "--spacing", "1000000000"],
        read!(spacing: 1_000_000_000),
    ),
    (&["p.com", "--slots", "1"], read!(slots: 1)),
    (&["p.com", "--slots", "4096"], read!(slots: 4096)),
    (&["p.com", "--limit", "4000000001"], MISUSE),
    (&["p.com", "--limit", "18446744073709551616"], MISUSE),
    (&["p.com", "--limit", "many"], MISUSE),
    (&["p.com", "--limit", ""], MISUSE),
    (&["p.com", "--limit", "0x10"], MISUSE),
    (&["p.com", "--spacing", "0"], MISUSE),
    (&["p.com", "--spacing", "1000000001"], MISUSE),
    (&["p.com", "--slots", "0"], MISUSE),
    (&["p.com", "--slots", "4097"], MISUSE),
    (&["p.com", "--slots", "-1"], MISUSE),
];

#[test]
fn numbers_have_ranges(rt: HostRuntime) -> Result<(), Fail> {
    have_results(&rt, rt.alloc(), ROWS)
}
