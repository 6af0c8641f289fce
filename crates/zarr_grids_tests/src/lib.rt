//! Tests of boxes, and of chunk grids, chunk keys and metadata by their constructors, using only
//! the public names of `zarr_grids`. What calls make of metadata is in the files of calls/.
#![tactic(auto)]

#[cfg(test)]
mod boxes;
#[cfg(test)]
mod grids;
#[cfg(test)]
mod keys;
#[cfg(test)]
mod metadata;
#[cfg(test)]
mod samples;
