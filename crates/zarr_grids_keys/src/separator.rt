//! Separators of chunk keys.
ghost use Rattle.std.specs.Prelude.{◌≡◌, [], ◌∷◌};
ghost use Rattle.zarr_grids_keys.specs.Separators.{separator_byte};

/// What stands before each index in the key of a chunk.
#[derive(Clone, Copy, Debug, PartialEq, Eq)]
pub enum ChunkKeySeparator {
    Slash,
    Dot,
}

impl ChunkKeySeparator {
    /// The separator as a text.
    pub fn as_str(self) -> &'static str
        ensures { result.now ≡ separator_byte self ∷ [] }
    {
        match self {
            ChunkKeySeparator::Slash => "/",
            ChunkKeySeparator::Dot => ".",
        }
    }
}
