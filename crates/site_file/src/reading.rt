//! Reading a site file.

ghost use Rattle.std.specs.Prelude.{◌≡◌, ◌≤◌, ◌==◌, length, count_by, IfOk, IfErr};
ghost use Rattle.toml.specs.View.{table_view};
ghost use Rattle.toml.specs.Errors.{IsMemory, span_start};
ghost use Rattle.site_file.specs.Site.{IsSaidBy, SaysSite};
ghost use Rattle.site_file.specs.Fault.{IsWhyIn, IsWhy, line_at};

use crate::fault::SiteFault;
use crate::keys::check_keys;
use crate::limits::MOST_SITE_BYTES;
use crate::members::read_members;
use crate::site::SiteFile;
use crate::values::{key_of, parcel_mib_of, proxies_of, site_of, u_of};
use std::alloc::Global;
use toml::Table;
use toml::de::Error;

/// What a document says of a site.
fn site_in(alloc: Global, document: &Table) -> Result<SiteFile, SiteFault>
    ensures ok { IfOk result (IsSaidBy (table_view document.now)) }
    ensures err { IfErr result (IsWhyIn (table_view document.now)) }
{
    check_keys(alloc, document, None)?;
    let site = site_of(document)?;
    let u = u_of(document)?;
    let proxies = proxies_of(document, u)?;
    let parcel_mib = parcel_mib_of(document)?;
    let key = key_of(alloc, document)?;
    match read_members(alloc, document, u) {
        Ok(members) => Ok(SiteFile {
            site,
            u,
            proxies,
            key,
            parcel_mib,
            members,
        }),
        Err(fault) => Err(fault),
    }
}

/// How many lines end in a text.
fn newlines(text: &[u8]) -> usize
    ensures count { result ≡ count_by (λ b. b == 10) text.now }
    ensures few { result ≤ length text.now }
{
    text.iter().filter(|byte| **byte == b'\n').count()
}

/// The number of the line, from 1, in which the byte at `start` is.
fn line_of(text: &[u8], start: usize) -> usize
    ensures { result ≡ line_at text.now start }
{
    let (before, _) = text.split_at(start.min(text.len()));
    newlines(before) + 1
}

/// That a text is no TOML, with the line of the reason.
fn not_toml(text: &[u8], reason: Error) -> SiteFault
    requires { ¬ IsMemory reason }
    ensures { result ≡ SiteFault.NotToml (line_at text.now (span_start reason)) reason }
{
    match reason.span() {
        Some(span) => SiteFault::NotToml {
            line: line_of(text, span.start),
            reason,
        },
        None => unreachable!(),
    }
}

impl SiteFile {
    /// What the bytes of a site file say.
    ///
    /// TooLong: there are more than `MOST_SITE_BYTES`. NotToml: they are no TOML document
    /// ([TOML 1.1](https://toml.io/en/v1.1.0)), for the reason that it has. Unknown, Missing, Bad, BadProxies, MemberCount,
    /// SamePeer: the document does not say what a site file says, and this is one place where it does not. NoMemory: an
    /// allocation failed. As an error is shown it names the line or the key, and what is expected there.
    pub fn read(alloc: Global, text: &[u8]) -> Result<SiteFile, SiteFault>
        ensures ok { IfOk result (SaysSite text.now) }
        ensures err { IfErr result (IsWhy text.now) }
    {
        if text.len() > MOST_SITE_BYTES {
            return Err(SiteFault::TooLong);
        }
        match toml::table_from_slice(alloc, text) {
            Ok(document) => site_in(alloc, &document),
            Err(reason) => {
                if reason.is_memory() {
                    Err(SiteFault::NoMemory)
                } else {
                    Err(not_toml(text, reason))
                }
            }
        }
    }
}
