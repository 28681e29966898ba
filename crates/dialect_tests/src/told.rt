//! All rows of lines.

use crate::tell::{Row, first_wrong};
use crate::{meta_rows, rows};
use std::test::Fail;

/// Rows, by what their lines are.
const TOLD: [(&str, &[Row]); 7] = [
    ("storage_lines", rows::STORAGE),
    ("other_lines", rows::OTHERS),
    ("stats_lines", rows::STATS),
    ("lines_of_keys", rows::READS),
    ("meta_reads", meta_rows::READS),
    ("meta_stores", meta_rows::STORES),
    ("meta_updates", meta_rows::UPDATES),
];

#[test]
fn lines_are_told_so(rt: HostRuntime) -> Result<(), Fail> {
    for (name, rows) in &TOLD {
        assert_eq!(rt; first_wrong(rt.alloc(), *rows)?, None, "{name}");
    }
    Ok(())
}
