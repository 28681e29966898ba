//! Tests of records on disk, over files in memory (`disk_images`): rows of items and back, a crash at each call of the disk
//! with each content that it may leave, and damage at each byte.
//!
//! What has to be there after so many saves is worked out from the saves by plain arrays (`saves::content_after`).
#![tactic(auto)]

#[cfg(test)]
mod of_crashes;
#[cfg(test)]
mod of_damage;
#[cfg(test)]
mod of_rows;
#[cfg(test)]
mod rows;
#[cfg(test)]
mod samples;
#[cfg(test)]
mod saves;
