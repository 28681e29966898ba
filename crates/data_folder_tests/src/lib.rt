//! Tests of `data_folder`, and of how `data_folders` begins, by their public calls, over files in memory. A service is
//! asked commands, and saved after each of them.
//!
//! What items a folder has to have after so many saves is written beside each command (`commands`). A record that is found
//! has these items, and the text that was saved.
#![tactic(auto)]

#[cfg(test)]
mod commands;
#[cfg(test)]
mod contents;
#[cfg(test)]
mod files;
#[cfg(test)]
mod of_crashes;
#[cfg(test)]
mod of_damage;
#[cfg(test)]
mod of_forms;
#[cfg(test)]
mod of_leftovers;
#[cfg(test)]
mod of_memory;
#[cfg(test)]
mod of_sites;
#[cfg(test)]
mod of_wanted;
#[cfg(test)]
mod saves;
#[cfg(test)]
mod services;
