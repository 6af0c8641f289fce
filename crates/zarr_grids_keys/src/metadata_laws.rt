//! Laws of the metadata of chunk key encodings. Each function does nothing: its contract is the
//! law.
ghost use Rattle.zarr_grids_keys.specs.MetadataLaws.{KeysReadBack, MadeReadBack, WrittenKeysReadBack};

/// Of the metadata of an encoding that encoding is made.
pub fn keys_read_back()
    ensures { KeysReadBack }
{}

/// The metadata of an encoding that was made of metadata makes the same encoding.
pub fn made_read_back()
    ensures { MadeReadBack }
{}

/// The JSON that is written for an encoding says that encoding.
pub fn written_keys_read_back()
    ensures { WrittenKeysReadBack }
{}
