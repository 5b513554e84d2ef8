//! Values in a pool's cells: their bytes are scanned and built, and they are shown and released.

#![tactic(auto)]

pub mod build;
mod entries;
pub mod release;
pub mod scan;
pub mod show;
mod walk;
