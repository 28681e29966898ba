//! Unknown keys.

ghost use Rattle.std.specs.Prelude.{◌≡◌, ℕ, List, true, false, IsSome, IfSome, IfNone, OnOk, IfErr, string_bytes};
ghost use Rattle.toml.specs.Data.{get_member};
ghost use Rattle.toml.specs.View.{table_view};
ghost use Rattle.site_file.specs.Place.{is_site_key, is_member_key, is_known, HasKnownKeys, IsThere};
ghost use Rattle.site_file.specs.Fault.{IsWhyIn};

use crate::fault::SiteFault;
use crate::table::table_in;
use std::alloc::Global;
use toml::Table;

/// Whether a site file has a key of this name.
fn is_key_of_site(name: &str) -> bool
    ensures { result ≡ is_site_key name.now }
{
    name == "site"
        || name == "u"
        || name == "proxies"
        || name == "key"
        || name == "parcel_mib"
        || name == "member"
}

/// Whether a member has a key of this name.
fn is_key_of_member(name: &str) -> bool
    ensures { result ≡ is_member_key name.now }
{
    name == "peer" || name == "listen" || name == "status"
}

/// Whether this member, or with none the file, has a key of this name.
fn is_key_of(member: Option<usize>, name: &str) -> bool
    ensures { result ≡ is_known member name.now }
{
    match member {
        Some(_) => is_key_of_member(name),
        None => is_key_of_site(name),
    }
}

/// A key of the table that this member, or with none the file, does not have.
fn unknown_key(table: &Table, member: Option<usize>) -> Option<&String>
    ensures there { IfSome result (λ name. IsSome (get_member (string_bytes name.now) (table_view table.now))) }
    ensures unknown { IfSome result (λ name. is_known member (string_bytes name.now) ≡ false) }
    ensures none { IfNone result ((name : List ℕ) → IsSome (get_member name (table_view table.now)) → is_known member name ≡ true) }
{
    for name in table.keys() {
        if !is_key_of(member, name.as_str()) {
            return Some(name);
        }
    }
    None
}

/// Refuses keys that this member, or with none the file, does not have.
pub fn check_keys(alloc: Global, document: &Table, member: Option<usize>) -> Result<(), SiteFault>
    requires { IsThere member (table_view document.now) }
    ensures ok { OnOk result (HasKnownKeys member (table_view document.now)) }
    ensures err { IfErr result (IsWhyIn (table_view document.now)) }
{
    let Some(table) = table_in(document, member) else {
        return Ok(());
    };
    match unknown_key(table, member) {
        Some(name) => {
            let name = String::from_str(alloc, name.as_str())?;
            Err(SiteFault::Unknown { member, name })
        }
        None => Ok(()),
    }
}
