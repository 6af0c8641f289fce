//! A store of files below a folder.
#![tactic(auto)]

pub mod file_keys;
mod files;
pub mod folder_store;

pub use folder_store::FolderStore;
