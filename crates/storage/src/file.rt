// The lot transfer file: the pages of a storage, and the stores that each has left, as bytes.
mod filling;
mod layout;
pub mod opening;
mod parts;
mod records;
pub mod taken;
pub mod writing;
