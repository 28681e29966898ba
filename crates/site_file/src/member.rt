//! What a site file says of a member.

ghost use Rattle.std.specs.Prelude.{List, Some, IfSome, IfNone, IfOk, IfErr};
ghost use Rattle.std.specs.declared.net.socket_addr.SocketAddr.{SocketAddr};
ghost use Rattle.toml.specs.View.{view, table_view};
ghost use Rattle.site_file.specs.Place.{SaysAt, MaySayAt, IsThere};
ghost use Rattle.site_file.specs.Form.{IsAddress, AreAddresses};
ghost use Rattle.site_file.specs.Site.{IsMemberSaid};
ghost use Rattle.site_file.specs.Fault.{IsWhyIn};

use crate::fault::SiteFault;
use crate::form::{address_in, addresses_in};
use crate::keys::check_keys;
use crate::place::{MemberKey, Place};
use crate::site::SiteMember;
use crate::table::{required, value_in};
use std::alloc::{AllocError, Global};
use std::net::SocketAddr;
use toml::{Table, Value};

/// `peer` of a member.
fn peer_of(document: &Table, member: usize) -> Result<SocketAddr, SiteFault>
    requires { IsThere (Some member) (table_view document.now) }
    ensures ok { IfOk result (SaysAt (Place.OfMember member MemberKey.Peer) IsAddress (table_view document.now)) }
    ensures err { IfErr result (IsWhyIn (table_view document.now)) }
{
    let place = Place::OfMember(member, MemberKey::Peer);
    let value = required(document, place)?;
    match address_in(value) {
        Some(address) => Ok(address),
        None => Err(SiteFault::Bad(place)),
    }
}

/// `status` of a member, if it has one.
fn status_of(document: &Table, member: usize) -> Result<Option<SocketAddr>, SiteFault>
    requires { IsThere (Some member) (table_view document.now) }
    ensures ok { IfOk result (MaySayAt (Place.OfMember member MemberKey.Status) IsAddress (table_view document.now)) }
    ensures err { IfErr result (IsWhyIn (table_view document.now)) }
{
    let place = Place::OfMember(member, MemberKey::Status);
    match value_in(document, place) {
        Some(value) => match address_in(value) {
            Some(address) => Ok(Some(address)),
            None => Err(SiteFault::Bad(place)),
        },
        None => Ok(None),
    }
}

/// The addresses that a value lists, if it lists some and no others.
fn listed(alloc: Global, value: &Value) -> Result<Option<Vec<SocketAddr>>, AllocError>
    ensures some { IfOk result (λ found. IfSome found (λ addresses. AreAddresses (view value.now) addresses.items)) }
    ensures none { IfOk result (λ found. IfNone found ((addresses : List SocketAddr) → AreAddresses (view value.now) addresses → ⊥)) }
{
    let Some(values) = value.as_array() else {
        return Ok(None);
    };
    if values.is_empty() {
        return Ok(None);
    }
    addresses_in(alloc, values.as_slice())
}

/// `listen` of a member.
fn listen_of(alloc: Global, document: &Table, member: usize) -> Result<Vec<SocketAddr>, SiteFault>
    requires { IsThere (Some member) (table_view document.now) }
    ensures ok { IfOk result (λ addresses. SaysAt (Place.OfMember member MemberKey.Listen) AreAddresses (table_view document.now) addresses.items) }
    ensures err { IfErr result (IsWhyIn (table_view document.now)) }
{
    let place = Place::OfMember(member, MemberKey::Listen);
    let value = required(document, place)?;
    match listed(alloc, value)? {
        Some(addresses) => Ok(addresses),
        None => Err(SiteFault::Bad(place)),
    }
}

/// A member of the file.
pub fn read_member(alloc: Global, document: &Table, member: usize) -> Result<SiteMember, SiteFault>
    requires { IsThere (Some member) (table_view document.now) }
    ensures ok { IfOk result (IsMemberSaid member (table_view document.now)) }
    ensures err { IfErr result (IsWhyIn (table_view document.now)) }
{
    check_keys(alloc, document, Some(member))?;
    let peer = peer_of(document, member)?;
    let status = status_of(document, member)?;
    let listen = listen_of(alloc, document, member)?;
    Ok(SiteMember {
        peer,
        listen,
        status,
    })
}
