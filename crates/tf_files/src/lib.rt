//! Files with their journals, as a store: a file and its journal are read together and saved as one.
#![tactic(auto)]

mod adoption;
mod calls;
mod cause;
mod changed_file;
mod disk;
mod file_part;
mod file_paths;
mod folder;
mod found_files;
mod leftovers;
mod look;
mod new_file;
mod overwrite_files;
mod reading;
mod saves;
mod size_limit;
mod snapshot;
mod store;
mod trust;

pub use cause::{Cause, Reason, Subject, Trouble};
pub use disk::{Disk, DiskFile};
pub use folder::SystemFiles;
pub use store::{ChangedFile, ReadFile, Store};
