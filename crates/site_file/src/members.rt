//! All members of a site file.

ghost use Rattle.std.specs.Prelude.{◌≡◌, ◌≢◌, ◌+◌, ◌*◌, ℕ, [], length, slice_get, IsTrue, ◌↔◌, IfSome, IfNone, IfOk, OnOk, IfErr};
ghost use Rattle.toml.specs.View.{table_view};
ghost use Rattle.site_file.specs.Place.{SaysAt};
ghost use Rattle.site_file.specs.Form.{IsNumber, HasLength};
ghost use Rattle.site_file.specs.Site.{AreSiteMembers};
ghost use Rattle.site_file.specs.Fault.{IsWhyIn};
ghost use Rattle.site_file.specs.declared.site.SiteMember.{SiteMember};

use crate::fault::SiteFault;
use crate::limits::MOST_U;
use crate::member::read_member;
use crate::place::{Place, SiteKey};
use crate::site::SiteMember;
use crate::values::member_count_of;
use std::alloc::Global;
use std::net::SocketAddr;
use toml::Table;

/// Whether two addresses are the same.
fn are_same(one: &SocketAddr, other: &SocketAddr) -> bool
    ensures { IsTrue result ↔ (one.now ≡ other.now) }
{
    one == other
}

/// The number of the first member that has this address for its peers.
fn with_peer(members: &[SiteMember], peer: &SocketAddr) -> Option<usize>
    ensures some { IfSome result (λ at. (member : SiteMember) × (slice_get members.now at ≡ Some member) × (member.peer ≡ peer.now)) }
    ensures none { IfNone result ((at : ℕ) (member : SiteMember) → slice_get members.now at ≡ Some member → member.peer ≢ peer.now) }
{
    for (at, member) in members.iter().enumerate() {
        if are_same(&member.peer, peer) {
            return Some(at);
        }
    }
    None
}

/// Adds the members of a file that has so many.
fn add_members(
    alloc: Global,
    document: &Table,
    count: usize,
    members: &mut Vec<SiteMember>,
) -> Result<(), SiteFault>
    requires none { members.old.items ≡ [] }
    requires count { SaysAt (Place.OfSite SiteKey.Member) HasLength (table_view document.now) count }
    ensures members { OnOk result (AreSiteMembers (table_view document.now) members.new.items) }
    ensures all { OnOk result (length members.new.items ≡ count) }
    ensures err { IfErr result (IsWhyIn (table_view document.now)) }
{
    for at in 0..count {
        let member = read_member(alloc, document, at)?;
        if let Some(other) = with_peer(members.as_slice(), &member.peer) {
            return Err(SiteFault::SamePeer(other, at));
        }
        members.push(member)?;
    }
    Ok(())
}

/// The members of a file that says this `u`.
pub fn read_members(alloc: Global, document: &Table, u: u8) -> Result<Vec<SiteMember>, SiteFault>
    requires { SaysAt (Place.OfSite SiteKey.U) (IsNumber 0 MOST_U) (table_view document.now) u }
    ensures members { IfOk result (λ members. AreSiteMembers (table_view document.now) members.items) }
    ensures count { IfOk result (λ members. SaysAt (Place.OfSite SiteKey.Member) HasLength (table_view document.now) (length members.items)) }
    ensures whole { IfOk result (λ members. length members.items ≡ 2 * u + 1) }
    ensures err { IfErr result (IsWhyIn (table_view document.now)) }
{
    let count = member_count_of(document)?;
    if count != 2 * usize::from(u) + 1 {
        return Err(SiteFault::MemberCount { u, members: count });
    }
    let mut members = Vec::with_capacity(alloc, count)?;
    match add_members(alloc, document, count, &mut members) {
        Ok(()) => Ok(members),
        Err(fault) => Err(fault),
    }
}
