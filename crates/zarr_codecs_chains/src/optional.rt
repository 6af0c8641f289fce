//! The codec `optional`.
ghost use Rattle.std.specs.Prelude.{◌≡◌, ◌≢◌, codes, Some, None, IfOk, IfErr};
ghost use Rattle.zarr_codecs_configurations.specs.Views.{optional_points};
ghost use Rattle.zarr_codecs_chains.specs.Configured.{configured_optional};
ghost use Rattle.zarr_codecs_chains.specs.Names.{NamesChain, optional_name};
ghost use Rattle.zarr_codecs_chains.specs.Refusals.{RefusesOptional};
ghost use Rattle.zarr_codecs_chains.specs.Views.{optional_chain};
ghost use Rattle.zarr_codecs_chains.specs.Parts.{optional_data, optional_mask};

use crate::chain::CodecChain;
use crate::depth::optional_too_deep;
use crate::fitting::takes_each_shape;
use crate::reading::read_allowed;
use crate::writing::optional_configuration;
use std::alloc::{AllocError, Global};
use zarr_codecs_array_to_array::CodecName;
use zarr_codecs_configurations::OptionalCodecConfiguration;
use zarr_codecs_traits::BytesToBytesCodecTraits;
use zarr_grids_metadata::PluginCreateError;

/// `optional` (this project's profile): elements that may be absent, as a mask and those that are
/// present, each by a chain of its own. It keeps the name that its metadata has.
#[cycle(codec)]
#[derive(Debug, Drop)]
pub struct OptionalCodec<B: BytesToBytesCodecTraits> {
    pub(crate) mask_codecs: CodecChain<B>,
    pub(crate) data_codecs: CodecChain<B>,
    pub(crate) name: CodecName,
}

impl<B: BytesToBytesCodecTraits> OptionalCodec<B> {
    ghost use Rattle.std.specs.Prelude.{◌≡◌, ◌≢◌, ◌⊎◌, codes, true, false, Some, None, IfOk, IfErr};
    ghost use Rattle.zarr_codecs_meaning.specs.Fits.{takes_each_shape};
    ghost use Rattle.zarr_codecs_metadata.specs.Allowed.{is_allowed};
    ghost use Rattle.zarr_codecs_configurations.specs.Views.{optional_points};
    ghost use Rattle.zarr_codecs_chains.specs.Configured.{configured_optional, optional_too_deep};
    ghost use Rattle.zarr_codecs_chains.specs.Names.{NamesChain, optional_name};
    ghost use Rattle.zarr_codecs_chains.specs.Refusals.{RefusesReadOptional};
    ghost use Rattle.zarr_codecs_chains.specs.Views.{given_to_optional, meaning_of, optional_chain};
    ghost use Rattle.zarr_codecs_chains.specs.Parts.{optional_data, optional_mask};

    /// `optional` with the chains of its mask and of the elements that are present.
    /// `MetadataInvalid` where the chain of the elements, or a chain inside of it, has an array to
    /// array codec: how many elements it is given isn't known before.
    pub fn new(
        mask_codecs: CodecChain<B>,
        data_codecs: CodecChain<B>,
    ) -> Result<OptionalCodec<B>, PluginCreateError>
        ensures mask { IfOk result (λ codec. optional_mask codec ≡ mask_codecs) }
        ensures data { IfOk result (λ codec. optional_data codec ≡ data_codecs) }
        ensures name { IfOk result (λ codec. optional_name codec ≡ codes "optional") }
        ensures allowed { IfOk result
            (λ codec. takes_each_shape (meaning_of B.meaning data_codecs) ≡ true) }
        ensures whole { is_allowed (meaning_of B.meaning mask_codecs) ≡ true
            → IfOk result (λ codec. is_allowed (optional_chain B.meaning codec) ≡ true) }
        ensures err { IfErr result (λ e. (e ≡ PluginCreateError.MetadataInvalid)
            × (takes_each_shape (meaning_of B.meaning data_codecs) ≡ false)) }
    {
        if !takes_each_shape(&data_codecs) {
            return Err(PluginCreateError::MetadataInvalid);
        }
        Ok(OptionalCodec {
            mask_codecs,
            data_codecs,
            name: CodecName::Default,
        })
    }

    /// `optional` as a configuration gives it, under its default name. Its codecs keep the names
    /// that they have there, and are refused as `CodecChain::from_metadata` refuses them:
    /// `TooDeep`, before all else, where one of them, for the mask or the elements, nests deeper
    /// than that reads. `MetadataInvalid` also where the chain of the elements, or a chain inside
    /// of it, has an array to array codec.
    pub fn new_with_configuration(
        alloc: Global,
        configuration: &OptionalCodecConfiguration,
    ) -> Result<OptionalCodec<B>, PluginCreateError>
        ensures ok { IfOk result
            (λ codec. configured_optional B.reads (optional_points configuration.now)
            ≡ Some (optional_chain B.meaning codec)) }
        ensures name { IfOk result (λ codec. optional_name codec ≡ codes "optional") }
        ensures mask_names { IfOk result
            (λ codec. NamesChain (optional_mask codec) (optional_points configuration.now).mask) }
        ensures data_names { IfOk result
            (λ codec. NamesChain (optional_data codec)
            (optional_points configuration.now).content) }
        ensures shallow { IfOk result
            (λ _. optional_too_deep (optional_points configuration.now) ≡ false) }
        ensures err { IfErr result (λ e. e ≢ PluginCreateError.Memory
            → (optional_too_deep (optional_points configuration.now) ≡ true)
            ⊎ (configured_optional B.reads (optional_points configuration.now) ≡ None)) }
        ensures refused { IfErr result (λ e. e ≢ PluginCreateError.Memory
            → RefusesReadOptional B.reads (optional_points configuration.now) e) }
    {
        if optional_too_deep(configuration) {
            return Err(PluginCreateError::TooDeep);
        }
        read_allowed_optional(alloc, configuration)
    }

    /// What the codec is configured by, of which `new_with_configuration` makes an equal codec
    /// under the default name, where array to array codecs stand only where they may. An equal
    /// codec is made again only if those inside of it nest no deeper than 127 levels as they are
    /// written. `Err` only where an allocation failed.
    pub fn configuration(&self, alloc: Global) -> Result<OptionalCodecConfiguration, AllocError>
        ensures given { IfOk result (λ configuration.
            optional_points configuration ≡ given_to_optional B.described self.now) }
        ensures made_again { is_allowed (optional_chain B.meaning self.now) ≡ true → IfOk result
            (λ configuration. configured_optional B.reads (optional_points configuration)
            ≡ Some (optional_chain B.meaning self.now)) }
    {
        optional_configuration(self, alloc)
    }

    /// The chain of the mask.
    pub fn mask_codecs(&self) -> &CodecChain<B>
        ensures { result.now ≡ optional_mask self.now }
    {
        &self.mask_codecs
    }

    /// The chain of the elements that are present.
    pub fn data_codecs(&self) -> &CodecChain<B>
        ensures { result.now ≡ optional_data self.now }
    {
        &self.data_codecs
    }
}

/// `optional` as a configuration gives it, however deep its codecs nest.
fn read_allowed_optional<B: BytesToBytesCodecTraits>(
    alloc: Global,
    configuration: &OptionalCodecConfiguration,
) -> Result<OptionalCodec<B>, PluginCreateError>
    ensures ok { IfOk result
        (λ codec. configured_optional B.reads (optional_points configuration.now)
        ≡ Some (optional_chain B.meaning codec)) }
    ensures name { IfOk result (λ codec. optional_name codec ≡ codes "optional") }
    ensures mask_names { IfOk result
        (λ codec. NamesChain (optional_mask codec) (optional_points configuration.now).mask) }
    ensures data_names { IfOk result
        (λ codec. NamesChain (optional_data codec)
        (optional_points configuration.now).content) }
    ensures err { IfErr result (λ e. e ≢ PluginCreateError.Memory
        → configured_optional B.reads (optional_points configuration.now) ≡ None) }
    ensures refused { IfErr result (λ e. e ≢ PluginCreateError.Memory
        → RefusesOptional B.reads (optional_points configuration.now) e) }
{
    let mask = configuration.mask_codecs.as_slice();
    let mask_codecs = match read_allowed(alloc, mask) {
        Ok(chain) => chain,
        Err(error) => return Err(error),
    };
    let content = configuration.data_codecs.as_slice();
    let data_codecs = match read_allowed(alloc, content) {
        Ok(chain) => chain,
        Err(error) => return Err(error),
    };
    if takes_each_shape(&data_codecs) {
        Ok(OptionalCodec {
            mask_codecs,
            data_codecs,
            name: CodecName::Default,
        })
    } else {
        Err(PluginCreateError::MetadataInvalid)
    }
}
