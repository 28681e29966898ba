//! The limits of a site file.

use crate::sample::{SAMPLE, changed};
use events::MOST_CLIENTS;
use site_file::{MOST_PARCEL_MIB, MOST_SITE_BYTES, SiteFault, SiteFile};
use std::alloc::Global;
use std::test::Fail;

/// The sample with a comment behind it, so that it has so many bytes.
fn padded(alloc: Global, bytes: usize) -> Result<Vec<u8>, SiteFault> {
    let mut text = Vec::from_slice(alloc, SAMPLE.as_bytes())?;
    text.push(b'#')?;
    for _ in text.len()..bytes {
        text.push(b'x')?;
    }
    Ok(text)
}

/// Whether a text of so many bytes is read, or refused for its length. None: neither.
fn is_read(alloc: Global, bytes: usize) -> Result<Option<bool>, SiteFault> {
    let text = padded(alloc, bytes)?;
    Ok(match SiteFile::read(alloc, text.as_slice()) {
        Ok(_) => Some(true),
        Err(SiteFault::TooLong) => Some(false),
        Err(_) => None,
    })
}

#[test]
fn a_file_has_a_limit(rt: HostRuntime) -> Result<(), Fail> {
    assert!(rt; MOST_SITE_BYTES == 65_536);
    assert!(rt; is_read(rt.alloc(), 65_536)? == Some(true));
    assert!(rt; is_read(rt.alloc(), 65_537)? == Some(false));
    Ok(())
}

/// Whether the sample is read with this text in place of that one.
fn is_read_so(alloc: Global, old: &str, new: &str) -> Result<bool, SiteFault> {
    let text = changed(alloc, old, new)?;
    Ok(SiteFile::read(alloc, text.as_bytes()).is_ok())
}

/// Whether so many proxies are read.
fn are_proxies(alloc: Global, proxies: u16) -> Result<bool, SiteFault> {
    let line = format!(in alloc; "proxies = {proxies}")?;
    is_read_so(alloc, "proxies = 32", line.as_str())
}

#[test]
fn all_members_have_as_many_proxies_as_there_may_be_clients(rt: HostRuntime) -> Result<(), Fail> {
    let most = MOST_CLIENTS / 3;
    assert!(rt; are_proxies(rt.alloc(), 1)? && are_proxies(rt.alloc(), most)?);
    assert!(rt; !are_proxies(rt.alloc(), 0)? && !are_proxies(rt.alloc(), most + 1)?);
    Ok(())
}

#[test]
fn a_parcel_has_limits(rt: HostRuntime) -> Result<(), Fail> {
    let alloc = rt.alloc();
    let old = "parcel_mib = 4096";
    assert!(rt; MOST_PARCEL_MIB == 1_048_576);
    assert!(rt; is_read_so(alloc, old, "parcel_mib = 1")?);
    assert!(rt; is_read_so(alloc, old, "parcel_mib = 1048576")?);
    assert!(rt; !is_read_so(alloc, old, "parcel_mib = 1048577")?);
    Ok(())
}

/// Whether bytes that are not UTF-8 are told by their line.
fn tells_bytes(alloc: Global) -> Result<bool, SiteFault> {
    let mut text = Vec::from_slice(alloc, b"# a comment\n#\xff\n")?;
    text.extend_from_slice(SAMPLE.as_bytes())?;
    match SiteFile::read(alloc, text.as_slice()) {
        Ok(_) => Ok(false),
        Err(fault) => {
            let message = format!(in alloc; "{fault}")?;
            Ok(message.as_str() == "line 2: invalid UTF-8")
        }
    }
}

#[test]
fn bytes_that_are_no_text_are_told(rt: HostRuntime) -> Result<(), Fail> {
    assert!(rt; tells_bytes(rt.alloc())?);
    assert!(rt; matches!(SiteFile::read(rt.alloc(), b""), Err(SiteFault::Missing(_))));
    Ok(())
}
