//! What the values of a site file say.

ghost use Rattle.std.specs.Prelude.{ℕ, List, map, IfSome, IfNone, IfOk};
ghost use Rattle.std.specs.List.{AllZip};
ghost use Rattle.std.specs.declared.net.socket_addr.SocketAddr.{SocketAddr};
ghost use Rattle.toml.specs.View.{view};
ghost use Rattle.site_file.specs.Form.{IsHex, IsNumber, IsPath, IsAddress};

use crate::limits::SITE_BYTES;
use hex::FromHex;
use std::alloc::{AllocError, Global};
use std::net::SocketAddr;
use toml::Value;

/// The name of a site, in hex digits.
pub fn site_name_in(value: &Value) -> Option<[u8; SITE_BYTES]>
    ensures some { IfSome result (IsHex SITE_BYTES (view value.now)) }
    ensures none { IfNone result ((name : List ℕ) → IsHex SITE_BYTES (view value.now) name → ⊥) }
{
    let Some(text) = value.as_str() else {
        return None;
    };
    match <[u8; SITE_BYTES] as FromHex>::from_hex(text) {
        Ok(name) => Some(name),
        Err(_) => None,
    }
}

/// A number from `least` to `most`.
pub fn number_in(value: &Value, least: u32, most: u32) -> Option<u32>
    ensures some { IfSome result (IsNumber least most (view value.now)) }
    ensures none { IfNone result ((n : ℕ) → IsNumber least most (view value.now) n → ⊥) }
{
    let Some(number) = value.as_integer() else {
        return None;
    };
    let Ok(number) = u32::try_from(number) else {
        return None;
    };
    if least <= number && number <= most {
        Some(number)
    } else {
        None
    }
}

/// The path of a file.
pub fn path_in(value: &Value) -> Option<&str>
    ensures some { IfSome result (λ path. IsPath (view value.now) path.now) }
    ensures none { IfNone result ((path : List ℕ) → IsPath (view value.now) path → ⊥) }
{
    let Some(path) = value.as_str() else {
        return None;
    };
    if path.is_empty() {
        return None;
    }
    Some(path)
}

/// An address.
pub fn address_in(value: &Value) -> Option<SocketAddr>
    ensures some { IfSome result (IsAddress (view value.now)) }
    ensures none { IfNone result ((address : SocketAddr) → IsAddress (view value.now) address → ⊥) }
{
    let Some(text) = value.as_str() else {
        return None;
    };
    match text.parse::<SocketAddr>() {
        Ok(address) => Some(address),
        Err(_) => None,
    }
}

/// The addresses that all of these are, if each is one.
pub fn addresses_in(alloc: Global, values: &[Value]) -> Result<Option<Vec<SocketAddr>>, AllocError>
    ensures some { IfOk result (λ found. IfSome found (λ addresses. AllZip IsAddress (map view values.now) addresses.items)) }
    ensures none { IfOk result (λ found. IfNone found ((addresses : List SocketAddr) → AllZip IsAddress (map view values.now) addresses → ⊥)) }
{
    let mut addresses = Vec::new(alloc);
    for value in values {
        match address_in(value) {
            Some(address) => addresses.push(address)?,
            None => return Ok(None),
        }
    }
    Ok(Some(addresses))
}
