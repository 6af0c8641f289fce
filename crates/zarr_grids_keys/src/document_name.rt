//! Names of documents.
ghost use Rattle.std.specs.Prelude.{◌≡◌};
ghost use Rattle.zarr_grids_keys.specs.Documents.{document_name};

/// A document of a node: `zarr.json` in Zarr version 3, `.zarray` and `.zattrs` in version 2.
#[derive(Clone, Copy, Debug, PartialEq, Eq)]
pub enum DocumentName {
    ZarrJson,
    ZArray,
    ZAttrs,
}

impl DocumentName {
    /// The name as a text.
    pub fn as_str(self) -> &'static str
        ensures { result.now ≡ document_name self }
    {
        match self {
            DocumentName::ZarrJson => "zarr.json",
            DocumentName::ZArray => ".zarray",
            DocumentName::ZAttrs => ".zattrs",
        }
    }
}
