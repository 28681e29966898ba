//! A file with one change for each error, and what an operator is told.

use crate::sample::changed;
use site_file::{SiteFault, SiteFile};
use std::alloc::Global;
use std::test::Fail;

/// A text of the sample, what is in its place, and the message.
type Row = (&'static str, &'static str, &'static str);

/// Texts that are no TOML.
const NOT_TOML: [Row; 5] = [
    ("u = 1", "u", "line 3: key with no value, expected `=`"),
    (
        "u = 1",
        "u = one",
        "line 3: invalid value, expected a string, number, boolean, date-time, array or inline table",
    ),
    ("u = 1\n", "u = 1\nu = 1\n", "line 4: duplicate key"),
    (
        "[[member]]",
        "[[member]",
        "line 8: unclosed array table, expected `]]`",
    ),
    (
        "127.0.0.1:11280\"",
        "127.0.0.1:11280",
        "line 11: invalid string",
    ),
];

/// Keys that are not known.
const UNKNOWN: [Row; 3] = [
    (
        "proxies",
        "proxy",
        "\"proxy\" is no key of a site file: it has site, u, proxies, key, parcel_mib and member",
    ),
    (
        "status",
        "state",
        "\"state\" is no key of member 0: a member has peer, listen and status",
    ),
    (
        "peer = \"10.0.0.2:21211\"",
        "peer.address = \"10.0.0.2:21211\"\nkey = \"k\"",
        "\"key\" is no key of member 1: a member has peer, listen and status",
    ),
];

/// What has to be there and is not.
const MISSING: [Row; 7] = [
    (
        "site = \"6f1c8a0e5d3b4c2f9a7e1d2c3b4a5968\"\n",
        "",
        "site is missing: a site is named by 32 hex digits, in quotes",
    ),
    (
        "u = 1\n",
        "",
        "u is missing: 0 to 3 members may fail, of 2u + 1",
    ),
    (
        "proxies = 32\n",
        "",
        "proxies is missing: each member has one client proxy or more",
    ),
    (
        "key = \"/etc/eve/site.key\"\n",
        "",
        "key is missing: the path of a key file is expected, in quotes",
    ),
    (
        "parcel_mib = 4096\n",
        "",
        "parcel_mib is missing: a parcel has 1 to 1048576 MiB",
    ),
    (
        "peer = \"10.0.0.1:21211\"\n",
        "",
        "peer of member 0 is missing: an address is of the form \"10.0.0.1:21211\" or \"[::1]:21211\"; names are not looked up",
    ),
    (
        "listen = [\"127.0.0.1:11211\"]\n",
        "",
        "listen of member 1 is missing: a list of addresses is of the form [\"10.0.0.1:11211\"], with one or more; names are not looked up",
    ),
];

const SITE: &str = "site: a site is named by 32 hex digits, in quotes";

const U: &str = "u: 0 to 3 members may fail, of 2u + 1";

const PROXIES: &str = "proxies: with u = 1 a member has 1 to 21845";

const KEY: &str = "key: the path of a key file is expected, in quotes";

const PARCEL: &str = "parcel_mib: a parcel has 1 to 1048576 MiB";

const PEER: &str =
    "peer of member 1: an address is of the form \"10.0.0.1:21211\" or \"[::1]:21211\"; names are not looked up";

const LISTEN: &str =
    "listen of member 1: a list of addresses is of the form [\"10.0.0.1:11211\"], with one or more; names are not looked up";

const STATUS: &str =
    "status of member 0: an address is of the form \"10.0.0.1:21211\" or \"[::1]:21211\"; names are not looked up";

/// Values of the whole file that do not fit.
const BAD: [Row; 17] = [
    ("\"6f1c8a0e5d3b4c2f9a7e1d2c3b4a5968\"", "6", SITE),
    ("5968\"", "596\"", SITE),
    ("5968\"", "59680\"", SITE),
    ("5968\"", "596800\"", SITE),
    ("6f1c", "6g1c", SITE),
    ("u = 1", "u = \"1\"", U),
    ("u = 1", "u = 1.0", U),
    ("u = 1", "u = -1", U),
    ("u = 1", "u = 4", U),
    ("u = 1", "u = 4294967297", U),
    ("proxies = 32", "proxies = 0", PROXIES),
    ("proxies = 32", "proxies = [32]", PROXIES),
    ("\"/etc/eve/site.key\"", "\"\"", KEY),
    ("\"/etc/eve/site.key\"", "2026-11-30", KEY),
    ("parcel_mib = 4096", "parcel_mib = 0", PARCEL),
    ("parcel_mib = 4096", "parcel_mib = true", PARCEL),
    ("parcel_mib = 4096", "parcel_mib = 1048577", PARCEL),
];

/// Values of a member that do not fit.
const BAD_MEMBER: [Row; 10] = [
    ("\"10.0.0.2:21211\"", "\"two:21211\"", PEER),
    ("\"10.0.0.2:21211\"", "\"10.0.0.2\"", PEER),
    ("\"10.0.0.2:21211\"", "[\"10.0.0.2:21211\"]", PEER),
    ("\"10.0.0.2:21211\"", "\"10.0.0.2:65536\"", PEER),
    ("[\"127.0.0.1:11211\"]\n", "[]\n", LISTEN),
    ("[\"127.0.0.1:11211\"]\n", "\"127.0.0.1:11211\"\n", LISTEN),
    (
        "[\"127.0.0.1:11211\"]\n",
        "[\"127.0.0.1:11211\", 11211]\n",
        LISTEN,
    ),
    ("[\"127.0.0.1:11211\"]\n", "[\"localhost:11211\"]\n", LISTEN),
    ("\"127.0.0.1:11280\"", "11280", STATUS),
    ("\"127.0.0.1:11280\"", "\"\"", STATUS),
];

/// Members that are no site together.
const MEMBERS: [Row; 5] = [
    (
        "u = 1\nproxies = 32",
        "u = 0\nproxies = 64",
        "member: there are 3, and with u = 0 there have to be 1",
    ),
    (
        "u = 1\nproxies = 32",
        "u = 2\nproxies = 12",
        "member: there are 3, and with u = 2 there have to be 5",
    ),
    (
        "[fd00::3]:21211",
        "10.0.0.1:21211",
        "peer of member 2: member 0 has the same address",
    ),
    (
        "[fd00::3]:21211",
        "10.0.0.2:021211",
        "peer of member 2: member 1 has the same address",
    ),
    (
        "u = 1\nproxies = 32",
        "u = 2\nproxies = 13108",
        "proxies: with u = 2 a member has 1 to 13107",
    ),
];

/// The keys of a file but for its one member.
const HEAD: &str =
    "site = \"6f1c8a0e5d3b4c2f9a7e1d2c3b4a5968\"\nu = 0\nproxies = 1\nkey = \"k\"\nparcel_mib = 1\n";

/// What is behind these keys, and the message.
const ALONE: [(&str, &str); 5] = [
    ("", "member is missing: each machine has a [[member]]"),
    ("member = 3", "member: each machine has a [[member]]"),
    (
        "[member]\npeer = \"10.0.0.1:1\"\nlisten = [\"10.0.0.1:2\"]",
        "member: each machine has a [[member]]",
    ),
    (
        "member = []",
        "member: there are 0, and with u = 0 there have to be 1",
    ),
    (
        "member = [3]",
        "peer of member 0 is missing: an address is of the form \"10.0.0.1:21211\" or \"[::1]:21211\"; names are not looked up",
    ),
];

/// Whether a text is refused with this message.
fn is_told(alloc: Global, text: &str, expected: &str) -> Result<bool, SiteFault> {
    match SiteFile::read(alloc, text.as_bytes()) {
        Ok(_) => Ok(false),
        Err(fault) => {
            let message = format!(in alloc; "{fault}")?;
            Ok(message.as_str() == expected)
        }
    }
}

/// Whether the changed sample is refused with the row's message.
fn tells(alloc: Global, row: &Row) -> Result<bool, SiteFault> {
    let text = changed(alloc, row.0, row.1)?;
    is_told(alloc, text.as_str(), row.2)
}

/// Whether the file with this behind its keys is refused with the row's message.
fn tells_alone(alloc: Global, row: &(&str, &str)) -> Result<bool, SiteFault> {
    let text = format!(in alloc; "{HEAD}{}", row.0)?;
    is_told(alloc, text.as_str(), row.1)
}

#[test]
fn what_is_no_toml_is_told_by_its_line(rt: HostRuntime) -> Result<(), Fail> {
    for row in &NOT_TOML {
        assert!(rt; tells(rt.alloc(), row)?, "{}", row.2);
    }
    Ok(())
}

#[test]
fn unknown_keys_are_told(rt: HostRuntime) -> Result<(), Fail> {
    for row in &UNKNOWN {
        assert!(rt; tells(rt.alloc(), row)?, "{}", row.2);
    }
    Ok(())
}

#[test]
fn missing_keys_are_told(rt: HostRuntime) -> Result<(), Fail> {
    for row in &MISSING {
        assert!(rt; tells(rt.alloc(), row)?, "{}", row.2);
    }
    Ok(())
}

#[test]
fn values_that_do_not_fit_are_told(rt: HostRuntime) -> Result<(), Fail> {
    for row in &BAD {
        assert!(rt; tells(rt.alloc(), row)?, "{} in place of {}", row.1, row.0);
    }
    Ok(())
}

#[test]
fn values_of_members_that_do_not_fit_are_told(rt: HostRuntime) -> Result<(), Fail> {
    for row in &BAD_MEMBER {
        assert!(rt; tells(rt.alloc(), row)?, "{} in place of {}", row.1, row.0);
    }
    Ok(())
}

#[test]
fn members_that_are_no_site_are_told(rt: HostRuntime) -> Result<(), Fail> {
    for row in &MEMBERS {
        assert!(rt; tells(rt.alloc(), row)?, "{}", row.2);
    }
    Ok(())
}

#[test]
fn a_member_that_is_none_is_told(rt: HostRuntime) -> Result<(), Fail> {
    for row in &ALONE {
        assert!(rt; tells_alone(rt.alloc(), row)?, "{}", row.0);
    }
    Ok(())
}
