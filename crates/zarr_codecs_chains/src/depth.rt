//! How deep the configurations of codecs that hold chains may nest.
ghost use Rattle.std.specs.Prelude.{◌≡◌};
ghost use Rattle.zarr_codecs_configurations.specs.Views.{optional_points, vlen_points};
ghost use Rattle.zarr_codecs_chains.specs.Configured.{optional_too_deep, vlen_too_deep};

use zarr_codecs_configurations::{
    OptionalCodecConfiguration, VlenCodecConfiguration, any_too_deep,
};

/// Whether a codec that `vlen` is configured by nests deeper than is read.
pub(crate) fn vlen_too_deep(configuration: &VlenCodecConfiguration) -> bool
    ensures { result ≡ vlen_too_deep (vlen_points configuration.now) }
{
    let index = configuration.index_codecs.as_slice();
    let content = configuration.data_codecs.as_slice();
    any_too_deep(index) || any_too_deep(content)
}

/// Whether a codec that `optional` is configured by nests deeper than is read.
pub(crate) fn optional_too_deep(configuration: &OptionalCodecConfiguration) -> bool
    ensures { result ≡ optional_too_deep (optional_points configuration.now) }
{
    let mask = configuration.mask_codecs.as_slice();
    let content = configuration.data_codecs.as_slice();
    any_too_deep(mask) || any_too_deep(content)
}
