//! Which arrays are cut into subchunks that the codecs suit.
ghost use Rattle.std.specs.Prelude.{◌≡◌, ◌<◌, ◌∷◌, ◌++◌, [], length, IfOk};
ghost use Rattle.zarr_codecs_types.specs.Views.{type_of};
ghost use Rattle.zarr_grids_boxes.specs.Boxes.{product};
ghost use Rattle.zarr_sharding_codec.specs.Fitting.{behind, fits_shapes};

use crate::codec::ShardingCodec;
use std::alloc::{AllocError, Global};
use zarr_codecs_traits::ArrayToBytesCodecTraits;
use zarr_codecs_types::DataType;
use zarr_grids_boxes::walk::has_no_place;
use zarr_sharding_index::shapes::index_shape;
use zarr_sharding_index::stored::index_size;

impl<I: ArrayToBytesCodecTraits, X: ArrayToBytesCodecTraits> ShardingCodec<I, X> {
    ghost use Rattle.std.specs.Prelude.{◌≡◌, length, IfOk};
    ghost use Rattle.zarr_codecs_types.specs.Views.{type_of};
    ghost use Rattle.zarr_sharding_codec.specs.Fitting.{Suits, parts_fit};
    ghost use Rattle.zarr_sharding_codec.specs.Views.{inner_of, shard_chain, subchunk_of};

    /// How many bytes the index of a shard has, where the codec suits arrays of a data type and a
    /// shape. `Err` only where an allocation failed.
    pub fn suited(
        &self,
        alloc: Global,
        data_type: &DataType,
        shape: &[u64],
    ) -> Result<Option<u64>, AllocError>
        ensures { IfOk result
            (Suits (shard_chain I.meaning X.meaning self.now) (type_of data_type.now) shape.now) }
    {
        let edges = self.subchunk_shape.as_slice();
        if shape.len() != edges.len() {
            return Ok(None);
        }
        if data_type.is_optional() {
            return Ok(None);
        }
        let pairs_shape = index_shape(alloc, shape, &self.subchunk_shape)?;
        let Some(size) = index_size(alloc, &self.index_codecs, pairs_shape.as_slice())? else {
            return Ok(None);
        };
        if !self.suits_parts(alloc, data_type, shape)? {
            return Ok(None);
        }
        Ok(Some(size))
    }

    /// Whether the inner codecs suit the shape of each subchunk of an array.
    fn suits_parts(
        &self,
        alloc: Global,
        data_type: &DataType,
        shape: &[u64],
    ) -> Result<bool, AllocError>
        requires { length shape.now ≡ length (subchunk_of self.now) }
        ensures { IfOk result (λ fit. fit ≡ parts_fit (I.meaning (inner_of self.now))
            (type_of data_type.now) shape.now (subchunk_of self.now)) }
    {
        let edges = self.subchunk_shape.as_slice();
        if has_no_place(shape) {
            return Ok(true);
        }
        let front = Vec::new(alloc);
        let front = front.as_slice();
        suits_shapes(&self.inner_codecs, alloc, data_type, front, shape, edges)
    }
}

/// Whether codecs suit each shape of a subchunk that begins with these lengths, in the later
/// dimensions of an array, which have these sizes. Along a dimension there are at most two lengths,
/// the edge and what is left over, so no list of subchunks is needed.
fn suits_shapes<I: ArrayToBytesCodecTraits>(
    inner_codecs: &I,
    alloc: Global,
    data_type: &DataType,
    front: &[u64],
    sizes: &[u64],
    edges: &[u64],
) -> Result<bool, AllocError>
    requires rank { length sizes.now ≡ length edges.now }
    requires sizes { 0 < product sizes.now }
    requires edges { 0 < product edges.now }
    ensures { IfOk result (λ fit. fit ≡ fits_shapes (I.meaning inner_codecs.now)
        (type_of data_type.now) (behind front.now sizes.now edges.now)) }
{
    let Some((size, sizes)) = sizes.split_first() else {
        return inner_codecs.fits(alloc, data_type, front);
    };
    let Some((edge, edges)) = edges.split_first() else {
        return Ok(true);
    };
    if *size < *edge {
        let longer = with_length(alloc, front, *size)?;
        return suits_shapes(
            inner_codecs,
            alloc,
            data_type,
            longer.as_slice(),
            sizes,
            edges,
        );
    }
    let whole = with_length(alloc, front, *edge)?;
    if !suits_shapes(
        inner_codecs,
        alloc,
        data_type,
        whole.as_slice(),
        sizes,
        edges,
    )? {
        return Ok(false);
    }
    let rest = *size % *edge;
    if rest == 0 {
        return Ok(true);
    }
    let last = with_length(alloc, front, rest)?;
    suits_shapes(
        inner_codecs,
        alloc,
        data_type,
        last.as_slice(),
        sizes,
        edges,
    )
}

/// The lengths of a subchunk in some dimensions, and then that in one more.
pub(crate) fn with_length(alloc: Global, front: &[u64], length: u64) -> Result<Vec<u64>, AllocError>
    ensures { IfOk result (λ made. made.items ≡ front.now ++ length ∷ []) }
{
    let mut made = Vec::with_capacity(alloc, front.len() + 1)?;
    made.extend_from_slice(front)?;
    made.push(length)?;
    Ok(made)
}
