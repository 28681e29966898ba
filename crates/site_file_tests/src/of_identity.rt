//! Files that are of one site, and files that are not.

use crate::sample::{SAMPLE, changed};
use site_file::{Changed, SiteFault, SiteFile};
use std::alloc::Global;
use std::test::Fail;

/// A text of the sample, what is in its place, and whether it is of another site then.
type Row = (&'static str, &'static str, Result<(), Changed>);

const ROWS: [Row; 8] = [
    ("u = 1", "u = 1", Ok(())),
    ("4096", "1", Ok(())),
    ("/etc/eve/site.key", "/run/key", Ok(())),
    ("10.0.0.1:21211", "10.0.0.9:21211", Ok(())),
    ("status = \"127.0.0.1:11280\"\n", "", Ok(())),
    ("6f1c8a0e", "6f1c8a0f", Err(Changed::Site)),
    ("5968\"", "5969\"", Err(Changed::Site)),
    ("proxies = 32", "proxies = 20", Err(Changed::Proxies)),
];

/// Whether the changed sample is compared so with the sample.
fn is_compared_so(alloc: Global, row: &Row) -> Result<bool, SiteFault> {
    let text = changed(alloc, row.0, row.1)?;
    let before = SiteFile::read(alloc, SAMPLE.as_bytes())?;
    let now = SiteFile::read(alloc, text.as_bytes())?;
    Ok(now.same_site(&before.identity()) == row.2)
}

#[test]
fn what_never_changes_is_compared(rt: HostRuntime) -> Result<(), Fail> {
    for row in &ROWS {
        assert!(rt;
            is_compared_so(rt.alloc(), row)?,
            "{} in place of {}",
            row.1,
            row.0
        );
    }
    Ok(())
}

/// Whether another `u` is told, also if the proxies are not the same, and another site first.
fn is_told_in_order(alloc: Global) -> Result<bool, SiteFault> {
    let file = SiteFile::read(alloc, SAMPLE.as_bytes())?;
    let mut saved = file.identity();
    saved.u = 2;
    saved.proxies = 12;
    let by_u = file.same_site(&saved);
    saved.site[15] = 0;
    Ok(by_u == Err(Changed::U) && file.same_site(&saved) == Err(Changed::Site))
}

#[test]
fn the_first_difference_is_told(rt: HostRuntime) -> Result<(), Fail> {
    assert!(rt; is_told_in_order(rt.alloc())?);
    Ok(())
}
