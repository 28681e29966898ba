//! What the system says of this process.

/// The resident pages that the text of `/proc/self/statm` tells: its second number.
pub fn resident_pages(text: &str) -> Option<u64> {
    text.split(' ').nth(1)?.parse::<u64>().ok()
}

/// The number of the process that the text of `/proc/self/stat` tells: its first.
pub fn process_id(text: &str) -> Option<u64> {
    text.split(' ').next()?.parse::<u64>().ok()
}

/// How many files may be open at once, as the text of `/proc/self/limits` tells. None: there is no limit, or the text
/// does not tell.
pub fn open_files(text: &str) -> Option<u64> {
    let (_, after) = text.split_once("Max open files")?;
    let (soft, _) = after.trim_start().split_once(' ')?;
    soft.parse::<u64>().ok()
}
