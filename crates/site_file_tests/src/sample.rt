//! A site file, and files that differ from it in one place.

use std::alloc::{AllocError, Global};

/// A site of three members.
pub const SAMPLE: &str = "# three machines
site = \"6f1c8a0e5d3b4c2f9a7e1d2c3b4a5968\"
u = 1
proxies = 32
key = \"/etc/eve/site.key\"
parcel_mib = 4096

[[member]]
peer = \"10.0.0.1:21211\"
listen = [\"127.0.0.1:11211\", \"10.0.0.1:11211\"]
status = \"127.0.0.1:11280\"

[[member]]
peer = \"10.0.0.2:21211\"
listen = [\"127.0.0.1:11211\"]

[[member]]
peer = \"[fd00::3]:21211\"
listen = [\"127.0.0.1:11211\", \"[fd00::3]:11211\"]
";

/// The sample with another text in place of this one, where it is first.
pub fn changed(alloc: Global, old: &str, new: &str) -> Result<String, AllocError> {
    let mut text = String::new(alloc);
    match SAMPLE.split_once(old) {
        Some((before, after)) => {
            text.push_str(before)?;
            text.push_str(new)?;
            text.push_str(after)?;
        }
        None => text.push_str("the sample does not have it")?,
    }
    Ok(text)
}
