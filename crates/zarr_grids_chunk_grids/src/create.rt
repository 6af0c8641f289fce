//! Causes of a refusal, as those of extension points.
ghost use Rattle.std.specs.Prelude.{◌≡◌, ◌≢◌};

use zarr_grids_configurations::{ConfigurationError, GridError};
use zarr_grids_metadata::PluginCreateError;

/// The cause that a refused configuration is.
pub(crate) fn refused_configuration(error: ConfigurationError) -> PluginCreateError
    ensures memory { error ≡ ConfigurationError.Memory → result ≡ PluginCreateError.Memory }
    ensures other { error ≢ ConfigurationError.Memory → result ≡ PluginCreateError.MetadataInvalid }
{
    match error {
        ConfigurationError::Memory => PluginCreateError::Memory,
        _ => PluginCreateError::MetadataInvalid,
    }
}

/// The cause that a refused grid is.
pub(crate) fn refused_grid(error: GridError) -> PluginCreateError
    ensures memory { error ≡ GridError.Memory → result ≡ PluginCreateError.Memory }
    ensures other { error ≢ GridError.Memory → result ≡ PluginCreateError.MetadataInvalid }
{
    match error {
        GridError::Memory => PluginCreateError::Memory,
        _ => PluginCreateError::MetadataInvalid,
    }
}
