//! What whole files say.

use crate::sample::SAMPLE;
use events::MOST_CLIENTS;
use site_file::{SiteFault, SiteFile, SiteMember};
use std::alloc::{AllocError, Global};
use std::net::SocketAddr;
use std::test::Fail;

/// The bytes of the sample's name.
const NAME: [u8; 16] = [
    0x6f, 0x1c, 0x8a, 0x0e, 0x5d, 0x3b, 0x4c, 0x2f, 0x9a, 0x7e, 0x1d, 0x2c, 0x3b, 0x4a, 0x59, 0x68,
];

/// Whether the address is spelled so.
fn is_at(address: &SocketAddr, text: &str) -> bool {
    text.parse::<SocketAddr>() == Ok(*address)
}

/// Whether a member is at these addresses, and has this status port or none.
fn is_member(member: &SiteMember, peer: &str, listen: &[&str], status: &str) -> bool {
    let shows = match &member.status {
        Some(address) => is_at(address, status),
        None => status.is_empty(),
    };
    shows
        && is_at(&member.peer, peer)
        && member.listen.len() == listen.len()
        && member
            .listen
            .iter()
            .zip(listen.iter())
            .all(|(address, text)| is_at(address, text))
}

/// Whether these are the members of the sample.
fn are_members(members: &[SiteMember]) -> bool {
    match members {
        [one, two, three] => {
            is_member(
                one,
                "10.0.0.1:21211",
                &["127.0.0.1:11211", "10.0.0.1:11211"],
                "127.0.0.1:11280",
            ) && is_member(two, "10.0.0.2:21211", &["127.0.0.1:11211"], "")
                && is_member(
                    three,
                    "[fd00::3]:21211",
                    &["127.0.0.1:11211", "[fd00::3]:11211"],
                    "",
                )
        }
        _ => false,
    }
}

/// Whether a file says what the sample says.
fn is_sample(file: &SiteFile) -> bool {
    file.site == NAME
        && file.u == 1
        && file.proxies == 32
        && file.key.as_str() == "/etc/eve/site.key"
        && file.parcel_mib == 4096
        && are_members(file.members.as_slice())
}

#[test]
fn the_sample_is_read(rt: HostRuntime) -> Result<(), Fail> {
    let file = SiteFile::read(rt.alloc(), SAMPLE.as_bytes())?;
    assert!(rt; is_sample(&file));
    Ok(())
}

/// The same with all members in one list, keys in another order and in quotes, and upper case digits.
const OTHER: &str = "member = [
  { listen = ['127.0.0.1:11211', '10.0.0.1:11211'], status = '127.0.0.1:11280', peer = '10.0.0.1:21211' },
  { listen = ['127.0.0.1:11211'], peer = '10.0.0.2:21211' },
  { listen = ['127.0.0.1:11211', '[fd00::3]:11211'], peer = '[fd00:0:0::3]:21211' },
]
parcel_mib = 0x1000
'key' = '/etc/eve/site.key'
\"proxies\" = 32
u = 1
site = '6F1C8A0E5D3B4C2F9A7E1D2C3B4A5968'";

#[test]
fn another_form_of_it_is_read(rt: HostRuntime) -> Result<(), Fail> {
    let file = SiteFile::read(rt.alloc(), OTHER.as_bytes())?;
    assert!(rt; is_sample(&file));
    Ok(())
}

/// The text of a site of so many members with this `u`, which have as many proxies as they may.
fn text_of(alloc: Global, u: u8, members: u16) -> Result<String, SiteFault> {
    let most = MOST_CLIENTS / members.max(1);
    let mut text = format!(in alloc;
        "site = \"6f1c8a0e5d3b4c2f9a7e1d2c3b4a5968\"\nu = {u}\nproxies = {most}\nkey = \"k\"\nparcel_mib = 1\n"
    )?;
    for member in 0..members {
        let lines = format!(in alloc;
            "[[member]]\npeer = \"10.0.0.{member}:1\"\nlisten = [\"10.0.0.{member}:2\"]\n"
        )?;
        text.push_str(lines.as_str())?;
    }
    Ok(text)
}

/// Whether the peers of these members are in order.
fn are_in_order(alloc: Global, members: &[SiteMember]) -> Result<bool, AllocError> {
    let mut are_right = true;
    for (at, member) in members.iter().enumerate() {
        let peer = format!(in alloc; "10.0.0.{at}:1")?;
        are_right = are_right && is_at(&member.peer, peer.as_str());
    }
    Ok(are_right)
}

/// Whether the text of a site of this size is read.
fn is_read(alloc: Global, u: u8, members: u16) -> Result<bool, SiteFault> {
    let text = text_of(alloc, u, members)?;
    let file = SiteFile::read(alloc, text.as_bytes())?;
    let is_so = file.u == u
        && file.proxies == MOST_CLIENTS / members.max(1)
        && file.members.len() == usize::from(members);
    Ok(is_so && are_in_order(alloc, file.members.as_slice())?)
}

/// How many members a site has, by `u`.
const SIZES: [(u8, u16); 4] = [(0, 1), (1, 3), (2, 5), (3, 7)];

#[test]
fn a_site_of_each_size_is_read(rt: HostRuntime) -> Result<(), Fail> {
    for (u, members) in &SIZES {
        assert!(rt; is_read(rt.alloc(), *u, *members)?, "u {u}");
    }
    Ok(())
}

/// Whether the sample is read, or memory ran out.
fn is_read_or_refused(alloc: Global) -> bool {
    match SiteFile::read(alloc, SAMPLE.as_bytes()) {
        Ok(file) => is_sample(&file),
        Err(fault) => matches!(fault, SiteFault::NoMemory),
    }
}

/// `scripts/refusals` has each of its allocations fail in turn.
#[test]
fn a_refused_growth_refuses_the_file(rt: HostRuntime) {
    assert!(rt; is_read_or_refused(rt.alloc()));
}
