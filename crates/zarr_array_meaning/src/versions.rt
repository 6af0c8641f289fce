//! Which documents of a path are read, and which are erased.

/// The document of a path that is read.
#[derive(Clone, Copy, Debug, PartialEq, Eq)]
pub enum MetadataRetrieveVersion {
    /// That of version 3; where nothing is stored under `zarr.json`, that of version 2.
    Default,
    V3,
    V2,
}

/// The documents of a path that are erased.
#[derive(Clone, Copy, Debug, PartialEq, Eq)]
pub enum MetadataEraseVersion {
    /// That of the version of the array's document.
    Default,
    All,
    V3,
    V2,
}
