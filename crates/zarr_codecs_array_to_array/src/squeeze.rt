//! The codec `squeeze`.
ghost use Rattle.std.specs.Prelude.{◌≡◌, ◌==◌, not, IfOk};
ghost use Rattle.std.specs.List.{filter};
ghost use Rattle.zarr_codecs_meaning.specs.Places.{squeezed};

use crate::metadata::is_empty;
use crate::name::CodecName;
use crate::walks::{copied, kept};
use std::alloc::{AllocError, Global};
use zarr_codecs_arrays::{ArrayBytes, CodecError, Elements};
use zarr_codecs_traits::ArrayToArrayCodecTraits;
use zarr_grids_metadata::{MetadataV3, PluginCreateError};

/// The codec `squeeze` (this project's profile): the elements in their row-major order, in the
/// shape without its dimensions of size one, or [1] where there are no others. It suits each shape.
/// It keeps the name that its metadata has.
#[derive(Clone, Copy, Debug, PartialEq, Eq)]
pub struct SqueezeCodec {
    name: CodecName,
}

/// What `squeeze` is configured by: nothing.
#[derive(Clone, Copy, Debug, PartialEq, Eq)]
pub struct SqueezeCodecConfiguration {}

impl SqueezeCodec {
    ghost use Rattle.std.specs.Prelude.{◌≡◌, ◌≢◌, ◌<◌, ◌^◌, codes, true, Some, None, IfOk, IfErr};
    ghost use Rattle.zarr_grids_boxes.specs.Boxes.{product};
    ghost use Rattle.zarr_grids_metadata.specs.Views.{point_of};
    ghost use Rattle.zarr_codecs_meaning.specs.Fits.{array_codec_fits};
    ghost use Rattle.zarr_codecs_meaning.specs.Places.{encoded_shape};
    ghost use Rattle.zarr_codecs_array_to_array.specs.Moving.{are_places, moved_numbers};
    ghost use Rattle.zarr_grids_metadata.specs.ExtensionPoints.{named};
    ghost use Rattle.zarr_codecs_array_to_array.specs.Written.{squeeze_in};
    ghost use Rattle.zarr_codecs_array_to_array.specs.Views.{squeeze_of};
    ghost use Rattle.zarr_codecs_array_to_array.specs.Names.{squeeze_name};
    ghost use Rattle.zarr_codecs_array_to_array.specs.Refusals.{cause_of};
    ghost use Rattle.zarr_codecs_metadata.specs.ArrayCodecs.{names_squeeze};
    ghost use Rattle.zarr_codecs_meaning.specs.Chains.ArrayCodec.{squeeze};

    /// `squeeze` under its default name.
    pub fn new() -> SqueezeCodec
        ensures meaning { squeeze_of result ≡ squeeze }
        ensures name { squeeze_name result ≡ codes "squeeze" }
    {
        SqueezeCodec {
            name: CodecName::Default,
        }
    }

    /// `squeeze` as a configuration gives it, under its default name.
    pub fn new_with_configuration(_: &SqueezeCodecConfiguration) -> SqueezeCodec
        ensures meaning { squeeze_of result ≡ squeeze }
        ensures name { squeeze_name result ≡ codes "squeeze" }
    {
        SqueezeCodec::new()
    }

    /// The codec's configuration, of which `new_with_configuration` makes an equal codec.
    pub fn configuration(&self) -> SqueezeCodecConfiguration
        ensures { squeeze_of self.now ≡ squeeze }
    {
        SqueezeCodecConfiguration {}
    }

    /// The numbers that places have after the codec, of the numbers that they have before it.
    /// `Err` only where an allocation failed.
    pub fn encoded_numbers(
        &self,
        alloc: Global,
        shape: &[u64],
        numbers: &[u64],
    ) -> Result<Vec<u64>, AllocError>
        requires fits { array_codec_fits (squeeze_of self.now) shape.now ≡ true }
        requires inside { are_places shape.now numbers.now ≡ true }
        requires small { product shape.now < 2 ^ 63 }
        ensures moved { IfOk result
            (λ made. made.items ≡ moved_numbers (squeeze_of self.now) shape.now numbers.now) }
        ensures within { IfOk result (λ made.
            are_places (encoded_shape (squeeze_of self.now) shape.now) made.items ≡ true) }
    {
        copied(alloc, numbers)
    }

    /// The codec that metadata describes, under the name that it has there. `NameUnsupported` where
    /// this is neither `squeeze` nor `zarrs.squeeze`, `MetadataInvalid` where its configuration has
    /// a member.
    pub fn from_metadata(metadata: &MetadataV3) -> Result<SqueezeCodec, PluginCreateError>
        ensures ok { IfOk result
            (λ codec. squeeze_in (point_of metadata.now) ≡ Some (squeeze_of codec)) }
        ensures name { IfOk result
            (λ codec. squeeze_name codec ≡ (point_of metadata.now).name) }
        ensures err { IfErr result (λ e. e ≢ PluginCreateError.Memory
            → squeeze_in (point_of metadata.now) ≡ None) }
        ensures cause { IfErr result
            (λ e. e ≡ cause_of (names_squeeze (point_of metadata.now).name)) }
    {
        let name = match metadata.name() {
            "squeeze" => CodecName::Default,
            "zarrs.squeeze" => CodecName::Alias,
            _ => return Err(PluginCreateError::NameUnsupported),
        };
        if !is_empty(metadata.configuration()) {
            return Err(PluginCreateError::MetadataInvalid);
        }
        Ok(SqueezeCodec { name })
    }

    /// The codec's metadata under its name, of which `from_metadata` makes an equal codec. `Err`
    /// only where an allocation failed.
    pub fn metadata(&self, alloc: Global) -> Result<MetadataV3, AllocError>
        ensures written { IfOk result
            (λ metadata. point_of metadata ≡ named (squeeze_name self.now)) }
        ensures reads_back { IfOk result
            (λ metadata. squeeze_in (point_of metadata) ≡ Some (squeeze_of self.now)) }
    {
        match self.name {
            CodecName::Default => Ok(MetadataV3::new(String::from_str(alloc, "squeeze")?)),
            CodecName::Alias => Ok(MetadataV3::new(String::from_str(alloc, "zarrs.squeeze")?)),
        }
    }

    /// An equal codec. `Err` only where an allocation failed.
    pub fn try_clone(&self, alloc: Global) -> Result<SqueezeCodec, AllocError>
        ensures meaning { IfOk result (λ codec. squeeze_of codec ≡ squeeze_of self.now) }
        ensures name { IfOk result (λ codec. squeeze_name codec ≡ squeeze_name self.now) }
    {
        Ok(*self)
    }
}

impl Default for SqueezeCodec {
    ghost use Rattle.std.specs.Prelude.{◌≡◌, codes};
    ghost use Rattle.zarr_codecs_array_to_array.specs.Names.{squeeze_name};

    ghost is_default = { λ codec. squeeze_name codec ≡ codes "squeeze" };

    fn default() -> SqueezeCodec {
        SqueezeCodec::new()
    }
}

impl ArrayToArrayCodecTraits for SqueezeCodec {
    ghost use Rattle.zarr_codecs_array_to_array.specs.Views.{squeeze_of};

    ghost meaning = { squeeze_of };

    fn fits(&self, shape: &[u64]) -> bool {
        true
    }

    fn encoded_shape(&self, alloc: Global, decoded_shape: &[u64]) -> Result<Vec<u64>, CodecError> {
        Ok(squeezed(alloc, decoded_shape)?)
    }

    fn decoded_shape(&self, _: Global, _: &[u64]) -> Result<Option<Vec<u64>>, CodecError> {
        Ok(None)
    }

    fn encode(
        &self,
        alloc: Global,
        bytes: ArrayBytes,
        elements: &Elements,
        shape: &[u64],
    ) -> Result<ArrayBytes, CodecError> {
        kept(bytes, elements, shape)
    }

    fn decode(
        &self,
        alloc: Global,
        bytes: ArrayBytes,
        elements: &Elements,
        shape: &[u64],
    ) -> Result<ArrayBytes, CodecError> {
        kept(bytes, elements, shape)
    }
}

/// A shape without its dimensions of size one, or [1] where it has no others.
fn squeezed(alloc: Global, shape: &[u64]) -> Result<Vec<u64>, AllocError>
    ensures { IfOk result (λ v. v.items ≡ squeezed shape.now) }
{
    let mut sizes = without_ones(alloc, shape)?;
    if sizes.is_empty() {
        sizes.push(1)?;
    }
    Ok(sizes)
}

/// The sizes of a shape that are not one.
fn without_ones(alloc: Global, shape: &[u64]) -> Result<Vec<u64>, AllocError>
    ensures { IfOk result (λ v. v.items ≡ filter (λ size. not (size == 1)) shape.now) }
{
    let mut sizes = Vec::new(alloc);
    for size in shape {
        if *size != 1 {
            sizes.push(*size)?;
        }
    }
    Ok(sizes)
}
