//! Where in a site file a value is.

ghost use Rattle.std.specs.Prelude.{◌≡◌};
ghost use Rattle.site_file.specs.Place.{site_key_name, member_key_name, name_at, member_at};

use std::fmt;

/// A key of the whole file.
#[derive(Clone, Copy, Debug, PartialEq, Eq)]
pub enum SiteKey {
    Site,
    U,
    Proxies,
    Key,
    ParcelMib,
    Member,
}

/// A key of a member.
#[derive(Clone, Copy, Debug, PartialEq, Eq)]
pub enum MemberKey {
    Peer,
    Listen,
    Status,
}

/// Where in a site file a value is.
#[derive(Clone, Copy, Debug, PartialEq, Eq)]
pub enum Place {
    OfSite(SiteKey),
    /// Of the member with this number, from 0.
    OfMember(usize, MemberKey),
}

impl SiteKey {
    /// How it is written.
    pub fn name(self) -> &'static str
        ensures { result.now ≡ site_key_name self }
    {
        match self {
            SiteKey::Site => "site",
            SiteKey::U => "u",
            SiteKey::Proxies => "proxies",
            SiteKey::Key => "key",
            SiteKey::ParcelMib => "parcel_mib",
            SiteKey::Member => "member",
        }
    }
}

impl MemberKey {
    /// How it is written.
    pub fn name(self) -> &'static str
        ensures { result.now ≡ member_key_name self }
    {
        match self {
            MemberKey::Peer => "peer",
            MemberKey::Listen => "listen",
            MemberKey::Status => "status",
        }
    }
}

impl Place {
    /// How its key is written.
    pub fn name(self) -> &'static str
        ensures { result.now ≡ name_at self }
    {
        match self {
            Place::OfSite(key) => key.name(),
            Place::OfMember(_, key) => key.name(),
        }
    }

    /// The member that it is of, if it is of one.
    pub fn member(self) -> Option<usize>
        ensures { result ≡ member_at self }
    {
        match self {
            Place::OfSite(_) => None,
            Place::OfMember(member, _) => Some(member),
        }
    }
}

impl fmt::Display for Place {
    fn fmt<W: fmt::Write>(&self, f: &mut fmt::Formatter<W>) -> fmt::Result {
        let name = self.name();
        match self.member() {
            None => f.write_str(name),
            Some(member) => write!(f, "{name} of member {member}"),
        }
    }
}
