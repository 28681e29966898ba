//! The site file of several machines, and the file of their keys.
//!
//!     let site = SiteFile::read(alloc, text)?;    // the bytes of the site file
//!     site.same_site(&saved)?;                    // the site that data is of
//!     let keys = KeyFile::read(text)?;            // the bytes of the file that `site.key` names
//!
//! It is built on `toml`, whose `parse_document` says what a TOML text is, on `hex`, and on `events`, which says how many
//! clients there may be. It opens no file: the program reads both.
//!
//! The layer above uses the contracts of `SiteFile::read` and `KeyFile::read`. What is read is what the text says (`SaysSite`,
//! `IsKeyText`), and each error has its reason (`IsWhy`, `IsKeyFault`); by a law no text has a reason and says something,
//! and none says two things. No program uses it yet.
#![tactic(auto)]

mod fault;
mod form;
mod identity;
mod key_file;
mod keys;
mod laws;
mod limits;
mod member;
mod members;
mod place;
mod reading;
mod site;
mod table;
mod values;

pub use fault::SiteFault;
pub use identity::{Changed, SiteIdentity};
pub use key_file::{KeyFault, KeyFile};
pub use laws::{a_text_has_its_keys, a_text_says_one_site};
pub use limits::{KEY_BYTES, MOST_PARCEL_MIB, MOST_SITE_BYTES, MOST_U, SITE_BYTES};
pub use place::{MemberKey, Place, SiteKey};
pub use site::{SiteFile, SiteMember};
