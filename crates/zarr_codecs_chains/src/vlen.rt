//! The codec `vlen`.
ghost use Rattle.std.specs.Prelude.{◌≡◌, ◌≢◌, codes, Some, None, IfOk, IfErr};
ghost use Rattle.zarr_codecs_configurations.specs.Views.{vlen_points};
ghost use Rattle.zarr_codecs_chains.specs.Configured.{configured_vlen};
ghost use Rattle.zarr_codecs_chains.specs.Names.{NamesChain, vlen_name};
ghost use Rattle.zarr_codecs_chains.specs.Refusals.{RefusesVlen};
ghost use Rattle.zarr_codecs_chains.specs.Views.{vlen_chain};
ghost use Rattle.zarr_codecs_chains.specs.Parts.{vlen_data, vlen_index};

use crate::allowing::has_no_array_codec;
use crate::chain::CodecChain;
use crate::depth::vlen_too_deep;
use crate::reading::read_allowed;
use crate::writing::vlen_configuration;
use std::alloc::{AllocError, Global};
use zarr_codecs_array_to_array::CodecName;
use zarr_codecs_configurations::VlenCodecConfiguration;
use zarr_codecs_sections::{VlenIndexDataType, VlenIndexLocation};
use zarr_codecs_traits::BytesToBytesCodecTraits;
use zarr_grids_metadata::PluginCreateError;

/// `vlen` (this project's profile): elements of variable length, as an index of offsets and their
/// joined bytes, each by a chain of its own. It keeps the name that its metadata has.
#[cycle(codec)]
#[derive(Debug, Drop)]
pub struct VlenCodec<B: BytesToBytesCodecTraits> {
    pub(crate) index_codecs: CodecChain<B>,
    pub(crate) data_codecs: CodecChain<B>,
    pub(crate) index_data_type: VlenIndexDataType,
    pub(crate) index_location: VlenIndexLocation,
    pub(crate) name: CodecName,
}

impl<B: BytesToBytesCodecTraits> VlenCodec<B> {
    ghost use Rattle.std.specs.Prelude.{◌≡◌, ◌≢◌, ◌⊎◌, codes, true, false, Some, None, IfOk, IfErr};
    ghost use Rattle.zarr_codecs_meaning.specs.Chains as chains;
    ghost use Rattle.zarr_codecs_metadata.specs.Allowed.{has_no_array_codec, is_allowed};
    ghost use Rattle.zarr_codecs_configurations.specs.Views.{vlen_points};
    ghost use Rattle.zarr_codecs_chains.specs.Configured.{configured_vlen, little_bytes, vlen_too_deep};
    ghost use Rattle.zarr_codecs_chains.specs.Names.{NamesChain, vlen_name};
    ghost use Rattle.zarr_codecs_chains.specs.Refusals.{RefusesReadVlen};
    ghost use Rattle.zarr_codecs_chains.specs.Views.{given_to_vlen, meaning_of, vlen_chain};
    ghost use Rattle.zarr_codecs_chains.specs.Parts.{vlen_data_type, vlen_data, vlen_index, vlen_location};

    /// `vlen` with the chains of its index and of its joined data, and the type of the index's
    /// numbers. The index stands at the start. `MetadataInvalid` where the chain of the data has an
    /// array to array codec: how many bytes it is given isn't known before.
    pub fn new(
        index_codecs: CodecChain<B>,
        data_codecs: CodecChain<B>,
        index_data_type: VlenIndexDataType,
    ) -> Result<VlenCodec<B>, PluginCreateError>
        ensures index { IfOk result (λ codec. vlen_index codec ≡ index_codecs) }
        ensures data { IfOk result (λ codec. vlen_data codec ≡ data_codecs) }
        ensures data_type { IfOk result (λ codec. vlen_data_type codec ≡ index_data_type) }
        ensures start { IfOk result (λ codec. vlen_location codec ≡ VlenIndexLocation.Start) }
        ensures name { IfOk result (λ codec. vlen_name codec ≡ codes "vlen") }
        ensures allowed { IfOk result
            (λ codec. has_no_array_codec (meaning_of B.meaning data_codecs) ≡ true) }
        ensures whole { is_allowed (meaning_of B.meaning index_codecs) ≡ true
            → is_allowed (meaning_of B.meaning data_codecs) ≡ true
            → IfOk result (λ codec. is_allowed (vlen_chain B.meaning codec) ≡ true) }
        ensures err { IfErr result (λ e. (e ≡ PluginCreateError.MetadataInvalid)
            × (has_no_array_codec (meaning_of B.meaning data_codecs) ≡ false)) }
    {
        if !has_no_array_codec(&data_codecs) {
            return Err(PluginCreateError::MetadataInvalid);
        }
        Ok(VlenCodec {
            index_codecs,
            data_codecs,
            index_data_type,
            index_location: VlenIndexLocation::Start,
            name: CodecName::Default,
        })
    }

    /// `vlen` on default codecs: `bytes` with the lowest byte first for the index and for the
    /// joined data, and an index of `uint64` at the start.
    pub fn new_default(alloc: Global) -> VlenCodec<B>
        ensures meaning { vlen_chain B.meaning result
            ≡ chains.Chain.vlen little_bytes little_bytes 64 chains.Location.at_start }
        ensures name { vlen_name result ≡ codes "vlen" }
    {
        let index_location = VlenIndexLocation::Start;
        VlenCodec {
            index_codecs: CodecChain::of_little_bytes(alloc),
            data_codecs: CodecChain::of_little_bytes(alloc),
            index_data_type: VlenIndexDataType::UInt64,
            index_location,
            name: CodecName::Default,
        }
    }

    /// `vlen` as a configuration gives it, under its default name. Its codecs keep the names that
    /// they have there, and are refused as `CodecChain::from_metadata` refuses them: `TooDeep`,
    /// before all else, where one of them, for the index or the data, nests deeper than that reads.
    /// `MetadataInvalid` also where the chain of the data has an array to array codec.
    pub fn new_with_configuration(
        alloc: Global,
        configuration: &VlenCodecConfiguration,
    ) -> Result<VlenCodec<B>, PluginCreateError>
        ensures ok { IfOk result (λ codec. configured_vlen B.reads (vlen_points configuration.now)
            ≡ Some (vlen_chain B.meaning codec)) }
        ensures name { IfOk result (λ codec. vlen_name codec ≡ codes "vlen") }
        ensures index_names { IfOk result
            (λ codec. NamesChain (vlen_index codec) (vlen_points configuration.now).index) }
        ensures data_names { IfOk result
            (λ codec. NamesChain (vlen_data codec) (vlen_points configuration.now).content) }
        ensures shallow { IfOk result
            (λ _. vlen_too_deep (vlen_points configuration.now) ≡ false) }
        ensures err { IfErr result (λ e. e ≢ PluginCreateError.Memory
            → (vlen_too_deep (vlen_points configuration.now) ≡ true)
            ⊎ (configured_vlen B.reads (vlen_points configuration.now) ≡ None)) }
        ensures refused { IfErr result (λ e. e ≢ PluginCreateError.Memory
            → RefusesReadVlen B.reads (vlen_points configuration.now) e) }
    {
        if vlen_too_deep(configuration) {
            return Err(PluginCreateError::TooDeep);
        }
        read_allowed_vlen(alloc, configuration)
    }

    /// What the codec is configured by, of which `new_with_configuration` makes an equal codec
    /// under the default name, where array to array codecs stand only where they may. An equal
    /// codec is made again only if those inside of it nest no deeper than 127 levels as they are
    /// written. `Err` only where an allocation failed.
    pub fn configuration(&self, alloc: Global) -> Result<VlenCodecConfiguration, AllocError>
        ensures given { IfOk result (λ configuration.
            vlen_points configuration ≡ given_to_vlen B.described self.now) }
        ensures made_again { is_allowed (vlen_chain B.meaning self.now) ≡ true → IfOk result
            (λ configuration. configured_vlen B.reads (vlen_points configuration)
            ≡ Some (vlen_chain B.meaning self.now)) }
    {
        vlen_configuration(self, alloc)
    }

    /// The same codec with its index elsewhere.
    pub fn with_index_location(self, index_location: VlenIndexLocation) -> VlenCodec<B>
        ensures index { vlen_index result ≡ vlen_index self }
        ensures data { vlen_data result ≡ vlen_data self }
        ensures data_type { vlen_data_type result ≡ vlen_data_type self }
        ensures location { vlen_location result ≡ index_location }
        ensures name { vlen_name result ≡ vlen_name self }
    {
        let mut codec = self;
        codec.index_location = index_location;
        codec
    }

    /// The chain of the index.
    pub fn index_codecs(&self) -> &CodecChain<B>
        ensures { result.now ≡ vlen_index self.now }
    {
        &self.index_codecs
    }

    /// The chain of the joined data.
    pub fn data_codecs(&self) -> &CodecChain<B>
        ensures { result.now ≡ vlen_data self.now }
    {
        &self.data_codecs
    }

    /// The type of the index's numbers.
    pub fn index_data_type(&self) -> VlenIndexDataType
        ensures { result ≡ vlen_data_type self.now }
    {
        self.index_data_type
    }

    /// Where the index stands.
    pub fn index_location(&self) -> VlenIndexLocation
        ensures { result ≡ vlen_location self.now }
    {
        self.index_location
    }
}

/// `vlen` as a configuration gives it, however deep its codecs nest.
fn read_allowed_vlen<B: BytesToBytesCodecTraits>(
    alloc: Global,
    configuration: &VlenCodecConfiguration,
) -> Result<VlenCodec<B>, PluginCreateError>
    ensures ok { IfOk result (λ codec. configured_vlen B.reads (vlen_points configuration.now)
        ≡ Some (vlen_chain B.meaning codec)) }
    ensures name { IfOk result (λ codec. vlen_name codec ≡ codes "vlen") }
    ensures index_names { IfOk result
        (λ codec. NamesChain (vlen_index codec) (vlen_points configuration.now).index) }
    ensures data_names { IfOk result
        (λ codec. NamesChain (vlen_data codec) (vlen_points configuration.now).content) }
    ensures err { IfErr result (λ e. e ≢ PluginCreateError.Memory
        → configured_vlen B.reads (vlen_points configuration.now) ≡ None) }
    ensures refused { IfErr result (λ e. e ≢ PluginCreateError.Memory
        → RefusesVlen B.reads (vlen_points configuration.now) e) }
{
    let index = configuration.index_codecs.as_slice();
    let index_codecs = match read_allowed(alloc, index) {
        Ok(chain) => chain,
        Err(error) => return Err(error),
    };
    let content = configuration.data_codecs.as_slice();
    let data_codecs = match read_allowed(alloc, content) {
        Ok(chain) => chain,
        Err(error) => return Err(error),
    };
    if has_no_array_codec(&data_codecs) {
        Ok(VlenCodec {
            index_codecs,
            data_codecs,
            index_data_type: configuration.index_data_type,
            index_location: configuration.index_location,
            name: CodecName::Default,
        })
    } else {
        Err(PluginCreateError::MetadataInvalid)
    }
}
