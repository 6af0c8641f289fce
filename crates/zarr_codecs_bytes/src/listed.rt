//! The elements of an array by their numbers, of a source that is read in part.
ghost use Rattle.std.specs.Prelude.{◌≡◌, ◌≢◌, ◌*◌, ◌+◌, ◌≤◌, ◌<◌, ◌^◌, ℕ, List, None, Some, length, true, option_map, IsTrue, IfOk, IfErr};
ghost use Rattle.zarr_grids_boxes.specs.Boxes.{product};
ghost use Rattle.zarr_codecs_meaning.specs.Chains.{Chain};
ghost use Rattle.zarr_codecs_meaning.specs.Types.{is_fixed, IsTooLarge};
ghost use Rattle.zarr_codecs_arrays.specs.Views.{elements_of};
ghost use Rattle.zarr_codecs_traits.specs.Sources.{ReadRefused, refused_after};
ghost use Rattle.zarr_codecs_bytes.specs.Parts.{GivesListed, HasFound, HasListed, IsListed, fits_listed, listed_width, most_of_listed};
ghost use Rattle.zarr_codecs_bytes.specs.Views.{bytes_chain};

use crate::bytes::BytesCodec;
use crate::fetching::fetch_ranges;
use crate::lines::LineSizes;
use crate::numbers::{listed_sizes, number_ranges};
use crate::part::ListedPart;
use crate::sizes::{array_size, byte_count};
use std::alloc::{AllocError, Global};
use zarr_codecs_arrays::{ArrayBytes, CodecError};
use zarr_codecs_regions::extract_list;
use zarr_codecs_traits::{ByteRange, BytesPartialDecoderTraits};

/// The elements with these numbers, of the value of `bytes` that a source holds. It is asked for
/// their bytes alone; where they have more bytes than the value, for the whole value, once.
/// `Damage` where the value has another length, or one of the elements is no value; `Size` where
/// the array is too large; `Source` where the source refuses.
pub(crate) fn read_listed<D: BytesPartialDecoderTraits>(
    alloc: Global,
    source: &mut D,
    codec: BytesCodec,
    part: ListedPart,
) -> Result<ArrayBytes, CodecError>
    requires { fits_listed (bytes_chain codec) part ≡ true }
    ensures part { IsTrue (D.is_honest source.old) →
        GivesListed (bytes_chain codec) (D.contents source.old) part.entry result }
    ensures refused { D.refused_calls source.new ≡
        refused_after (D.refused_calls source.old) result }
    ensures given { IsTrue (D.is_honest source.old) → D.given_bytes source.new
        ≤ D.given_bytes source.old
        + most_of_listed (bytes_chain codec) (D.contents source.old) part.entry }
    ensures follows { D.follows source.old source.new }
{
    match source.size() {
        Ok(Some(total)) => read_sized(alloc, source, codec, part, total),
        Ok(None) => fill_listed(alloc, part),
        Err(error) => Err(error),
    }
}

/// The elements with these numbers, of a value of so many bytes.
fn read_sized<D: BytesPartialDecoderTraits>(
    alloc: Global,
    source: &mut D,
    codec: BytesCodec,
    part: ListedPart,
    total: u64,
) -> Result<ArrayBytes, CodecError>
    requires fit { fits_listed (bytes_chain codec) part ≡ true }
    requires sized { IsTrue (D.is_honest source.old) →
        Some total ≡ option_map length (D.contents source.old) }
    ensures part { IsTrue (D.is_honest source.old) →
        GivesListed (bytes_chain codec) (D.contents source.old) part.entry result }
    ensures refused { D.refused_calls source.new ≡
        refused_after (D.refused_calls source.old) result }
    ensures given { IsTrue (D.is_honest source.old) → D.given_bytes source.new
        ≤ D.given_bytes source.old
        + most_of_listed (bytes_chain codec) (D.contents source.old) part.entry }
    ensures follows { D.follows source.old source.new }
{
    let size = match array_size(part.elements.data_type(), part.shape) {
        Ok(size) => size,
        Err(error) => return Err(error),
    };
    if total != size {
        return Err(CodecError::Damage);
    }
    match fetch(alloc, source, part, size) {
        Ok(Some(bytes)) => order_listed(alloc, codec, bytes, part),
        Ok(None) => fill_listed(alloc, part),
        Err(error) => Err(error),
    }
}

/// The bytes of the elements with these numbers, of a value of so many bytes.
fn fetch<D: BytesPartialDecoderTraits>(
    alloc: Global,
    source: &mut D,
    part: ListedPart,
    size: u64,
) -> Result<Option<Vec<u8>>, CodecError>
    requires fixed { is_fixed (elements_of part.elements.now).type ≡ true }
    requires positive { 0 < listed_width part }
    requires size { size ≡ product part.shape.now * listed_width part }
    requires small { size < 2 ^ 63 }
    ensures has { IsTrue (D.is_honest source.old) → (value : List ℕ)
        → D.contents source.old ≡ Some value → length value ≡ size
        → IfOk result (HasFound part.entry value) }
    ensures cause { IsTrue (D.is_honest source.old) → (value : List ℕ)
        → D.contents source.old ≡ Some value → length value ≡ size → ReadRefused result }
    ensures refused { D.refused_calls source.new ≡
        refused_after (D.refused_calls source.old) result }
    ensures few_given { IsTrue (D.is_honest source.old) → (value : List ℕ)
        → D.contents source.old ≡ Some value → length value ≡ size → D.given_bytes source.new
        ≤ D.given_bytes source.old + length part.entry.numbers.now * listed_width part.entry }
    ensures given { IsTrue (D.is_honest source.old) → (value : List ℕ)
        → D.contents source.old ≡ Some value → length value ≡ size
        → D.given_bytes source.new ≤ D.given_bytes source.old + size }
    ensures follows { D.follows source.old source.new }
{
    match listed_sizes(part, size) {
        Some(sizes) => fetch_listed(alloc, source, part, sizes),
        None => fetch_whole(alloc, source, part, size),
    }
}

/// The bytes of the elements with these numbers, which have no more bytes than the value.
fn fetch_listed<D: BytesPartialDecoderTraits>(
    alloc: Global,
    source: &mut D,
    part: ListedPart,
    sizes: LineSizes,
) -> Result<Option<Vec<u8>>, CodecError>
    requires positive { 0 < listed_width part }
    requires few { length part.numbers.now * listed_width part ≤ sizes.value }
    requires width { sizes.width ≡ listed_width part }
    requires line { sizes.line ≡ listed_width part }
    requires value { sizes.value ≡ product part.shape.now * listed_width part }
    ensures has { IsTrue (D.is_honest source.old) → (value : List ℕ)
        → D.contents source.old ≡ Some value → length value ≡ sizes.value
        → IfOk result (HasFound part.entry value) }
    ensures cause { IsTrue (D.is_honest source.old) → (value : List ℕ)
        → D.contents source.old ≡ Some value → length value ≡ sizes.value → ReadRefused result }
    ensures refused { D.refused_calls source.new ≡
        refused_after (D.refused_calls source.old) result }
    ensures given { IsTrue (D.is_honest source.old) → (value : List ℕ)
        → D.contents source.old ≡ Some value → length value ≡ sizes.value
        → D.given_bytes source.new
        ≤ D.given_bytes source.old + length part.entry.numbers.now * listed_width part.entry }
    ensures follows { D.follows source.old source.new }
{
    let ranges = number_ranges(alloc, part.numbers, sizes)?;
    fetch_ranges(alloc, source, ranges.as_slice())
}

/// The bytes of the elements with these numbers, of the whole value, which has `size` bytes.
fn fetch_whole<D: BytesPartialDecoderTraits>(
    alloc: Global,
    source: &mut D,
    part: ListedPart,
    size: u64,
) -> Result<Option<Vec<u8>>, CodecError>
    requires fixed { is_fixed (elements_of part.elements.now).type ≡ true }
    requires positive { 0 < listed_width part }
    requires size { size ≡ product part.shape.now * listed_width part }
    ensures has { IsTrue (D.is_honest source.old) → (value : List ℕ)
        → D.contents source.old ≡ Some value → length value ≡ size
        → IfOk result (HasFound part.entry value) }
    ensures cause { IsTrue (D.is_honest source.old) → (value : List ℕ)
        → D.contents source.old ≡ Some value → length value ≡ size → ReadRefused result }
    ensures refused { D.refused_calls source.new ≡
        refused_after (D.refused_calls source.old) result }
    ensures given { IsTrue (D.is_honest source.old) → (value : List ℕ)
        → D.contents source.old ≡ Some value → length value ≡ size
        → D.given_bytes source.new ≤ D.given_bytes source.old + size }
    ensures follows { D.follows source.old source.new }
{
    let all = [ByteRange {
        offset: 0,
        length: size,
    }];
    match fetch_ranges(alloc, source, &all) {
        Ok(Some(value)) => {
            if value.len() as u64 != size {
                return Err(CodecError::Damage);
            }
            Ok(Some(extract(alloc, value.as_slice(), part)?))
        }
        Ok(None) => Ok(None),
        Err(error) => Err(error),
    }
}

/// As many fill values as there are numbers, whatever size they have.
pub(crate) fn fill_listed(alloc: Global, part: ListedPart) -> Result<ArrayBytes, CodecError>
    ensures part { (chain : Chain) → fits_listed chain part.entry ≡ true
        → GivesListed chain None part.entry result }
    ensures no_source { (count : ℕ) → refused_after count result ≡ count }
{
    Ok(ArrayBytes::fill_values(alloc, part.elements, part.numbers.len())?)
}

/// The elements with these numbers, of their bytes in a value. `Damage` where these are not as many
/// as the elements have, or one of the elements is no value.
fn order_listed(
    alloc: Global,
    codec: BytesCodec,
    extracted: Vec<u8>,
    part: ListedPart,
) -> Result<ArrayBytes, CodecError>
    requires { fits_listed (bytes_chain codec) part ≡ true }
    ensures part { (value : List ℕ) → HasListed part.entry value extracted.items
        → GivesListed (bytes_chain codec) (Some value) part.entry result }
    ensures no_source { (count : ℕ) → refused_after count result ≡ count }
{
    let data_type = part.elements.data_type();
    let count = part.numbers.len() as u64;
    match byte_count(data_type, count) {
        Ok(length) => if extracted.len() as u64 != length {
            return Err(CodecError::Damage);
        },
        Err(_) => return Err(CodecError::Memory),
    }
    let bytes = ArrayBytes::Fixed(codec.ordered(alloc, data_type, extracted)?);
    match bytes.validate(data_type, count) {
        Ok(()) => Ok(bytes),
        Err(_) => Err(CodecError::Damage),
    }
}

/// The bytes of the elements with these numbers. Where an element has 2^64 bytes or more, the array
/// has no elements.
fn extract(alloc: Global, value: &[u8], part: ListedPart) -> Result<Vec<u8>, AllocError>
    requires fixed { is_fixed (elements_of part.elements.now).type ≡ true }
    requires positive { 0 < listed_width part }
    requires whole { length value.now ≡ product part.shape.now * listed_width part }
    ensures { IfOk result (λ v. IsListed (listed_width part.entry) value.now
        part.entry.numbers.now v.items) }
{
    match part.elements.data_type().byte_width() {
        Some(width) => extract_list(alloc, value, part.numbers, width),
        None => Ok(Vec::new(alloc)),
    }
}
