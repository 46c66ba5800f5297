//! Folders by their paths: those of the system, which are read and never written, and folders in memory.
#![tactic(auto)]

mod folder_disk;
mod folders;
mod host_folders;
mod mem_folders;

pub use folder_disk::{FolderDisk, NoFile};
pub use folders::Folders;
pub use host_folders::HostFolders;
pub use mem_folders::{MemFolder, MemFolders};
