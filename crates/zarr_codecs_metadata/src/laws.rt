//! Laws of what the metadata of codecs says.
ghost use Rattle.zarr_codecs_metadata.specs.Laws.{ChainsNest};

/// A list of codecs says in the configuration of a codec what it says anywhere else.
pub fn chains_nest()
    ensures { ChainsNest }
{}
