//! Tags by which those who share a key know that a text is from one of them: HMAC with SHA-256.
//!
//!     let mut mac = Mac::new(key);        // of 32 bytes, or of any other number
//!     mac.update(number);
//!     mac.update(text);                   // both as one text
//!     let tag = mac.finalize();
//!
//! It is built on `sha2`. A clause names the tag of a text under a key by `hmac_sha256`. It takes no memory. It compares no
//! tags: `==` may tell by its time where two differ. No program uses it yet.
#![tactic(auto)]

mod mac;

pub use mac::{Mac, tag_of};
