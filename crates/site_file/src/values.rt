//! What a site file says at each of its keys.

ghost use Rattle.std.specs.Prelude.{string_bytes, IfOk, IfErr};
ghost use Rattle.toml.specs.View.{table_view};
ghost use Rattle.site_file.specs.Place.{SaysAt};
ghost use Rattle.site_file.specs.Form.{IsHex, IsNumber, IsPath, HasLength, most_proxies};
ghost use Rattle.site_file.specs.Fault.{IsWhyIn};

use crate::fault::SiteFault;
use crate::form::{number_in, path_in, site_name_in};
use crate::limits::{MOST_PARCEL_MIB, MOST_U, SITE_BYTES};
use crate::place::{Place, SiteKey};
use crate::table::required;
use events::MOST_CLIENTS;
use std::alloc::Global;
use toml::Table;

/// `site`.
pub fn site_of(document: &Table) -> Result<[u8; SITE_BYTES], SiteFault>
    ensures ok { IfOk result (SaysAt (Place.OfSite SiteKey.Site) (IsHex SITE_BYTES) (table_view document.now)) }
    ensures err { IfErr result (IsWhyIn (table_view document.now)) }
{
    let place = Place::OfSite(SiteKey::Site);
    let value = required(document, place)?;
    match site_name_in(value) {
        Some(name) => Ok(name),
        None => Err(SiteFault::Bad(place)),
    }
}

/// `u`.
pub fn u_of(document: &Table) -> Result<u8, SiteFault>
    ensures ok { IfOk result (SaysAt (Place.OfSite SiteKey.U) (IsNumber 0 MOST_U) (table_view document.now)) }
    ensures err { IfErr result (IsWhyIn (table_view document.now)) }
{
    let place = Place::OfSite(SiteKey::U);
    let value = required(document, place)?;
    match number_in(value, 0, MOST_U) {
        Some(u) => Ok(u as u8),
        None => Err(SiteFault::Bad(place)),
    }
}

/// `proxies`, in a file that says this `u`.
pub fn proxies_of(document: &Table, u: u8) -> Result<u16, SiteFault>
    requires { SaysAt (Place.OfSite SiteKey.U) (IsNumber 0 MOST_U) (table_view document.now) u }
    ensures ok { IfOk result (SaysAt (Place.OfSite SiteKey.Proxies) (IsNumber 1 (most_proxies u)) (table_view document.now)) }
    ensures err { IfErr result (IsWhyIn (table_view document.now)) }
{
    let value = required(document, Place::OfSite(SiteKey::Proxies))?;
    let most = u32::from(MOST_CLIENTS) / (2 * u32::from(u) + 1);
    match number_in(value, 1, most) {
        Some(proxies) => Ok(proxies as u16),
        None => Err(SiteFault::BadProxies(u)),
    }
}

/// `key`.
pub fn key_of(alloc: Global, document: &Table) -> Result<String, SiteFault>
    ensures ok { IfOk result (λ path. SaysAt (Place.OfSite SiteKey.Key) IsPath (table_view document.now) (string_bytes path)) }
    ensures err { IfErr result (IsWhyIn (table_view document.now)) }
{
    let place = Place::OfSite(SiteKey::Key);
    let value = required(document, place)?;
    match path_in(value) {
        Some(path) => Ok(String::from_str(alloc, path)?),
        None => Err(SiteFault::Bad(place)),
    }
}

/// `parcel_mib`.
pub fn parcel_mib_of(document: &Table) -> Result<u32, SiteFault>
    ensures ok { IfOk result (SaysAt (Place.OfSite SiteKey.ParcelMib) (IsNumber 1 MOST_PARCEL_MIB) (table_view document.now)) }
    ensures err { IfErr result (IsWhyIn (table_view document.now)) }
{
    let place = Place::OfSite(SiteKey::ParcelMib);
    let value = required(document, place)?;
    match number_in(value, 1, MOST_PARCEL_MIB) {
        Some(mib) => Ok(mib),
        None => Err(SiteFault::Bad(place)),
    }
}

/// How many members there are.
pub fn member_count_of(document: &Table) -> Result<usize, SiteFault>
    ensures ok { IfOk result (SaysAt (Place.OfSite SiteKey.Member) HasLength (table_view document.now)) }
    ensures err { IfErr result (IsWhyIn (table_view document.now)) }
{
    let place = Place::OfSite(SiteKey::Member);
    let value = required(document, place)?;
    match value.as_array() {
        Some(members) => Ok(members.len()),
        None => Err(SiteFault::Bad(place)),
    }
}
