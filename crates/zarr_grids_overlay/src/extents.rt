//! Boxes that are borrowed.
ghost use Rattle.std.specs.Prelude.{◌≡◌, ◌↔◌, ◌+◌, ◌*◌, ◌<◌, IsTrue, length, slice_index, max, min, drop};
ghost use Rattle.zarr_grids_boxes.specs.Boxes.{EndsFit, product};

/// A box of places over borrowed numbers: where it starts and how long it is in each dimension.
/// Each end is at most 2^64 - 1.
#[derive(Clone, Copy)]
pub struct Extent<'a> {
    pub start: &'a [u64],
    pub shape: &'a [u64],
    ghost same: { length shape.now ≡ length start.now },
    ghost fit: { EndsFit start.now shape.now },
}

impl<'a> Extent<'a> {
    /// The numbers of a dimension that the boxes share: from the first number on, up to the second.
    pub fn shared(self, other: Extent, dimension: usize) -> (u64, u64)
        requires within { dimension < length self.start.now }
        requires other_within { dimension < length other.start.now }
        ensures low { result.0 ≡ max (slice_index self.entry.start.now dimension)
            (slice_index other.entry.start.now dimension) }
        ensures high { result.1 ≡ min
            (slice_index self.entry.start.now dimension
            + slice_index self.entry.shape.now dimension)
            (slice_index other.entry.start.now dimension
            + slice_index other.entry.shape.now dimension) }
    {
        let (start, other_start) = (self.start[dimension], other.start[dimension]);
        let end = start + self.shape[dimension];
        let other_end = other_start + other.shape[dimension];
        (start.max(other_start), end.min(other_end))
    }

    /// The box without its first dimension.
    pub fn rest(self) -> Extent<'a>
        requires { 0 < length self.start.now }
        ensures start { result.start.now ≡ drop 1 self.entry.start.now }
        ensures shape { result.shape.now ≡ drop 1 self.entry.shape.now }
    {
        Extent {
            start: &self.start[1..],
            shape: &self.shape[1..],
        }
    }

    /// How many of the `len` bytes of the box belong to each number of its first dimension.
    pub fn inner_len(self, len: usize, width: usize) -> usize
        requires some { 0 < length self.start.now }
        requires positive { 0 < slice_index self.shape.now 0 }
        requires len { len ≡ product self.shape.now * width }
        ensures { result ≡ product (drop 1 self.entry.shape.now) * width }
    {
        if self.shape.len() == 1 {
            width
        } else {
            len / self.shape[0] as usize
        }
    }

    /// Whether the two boxes are one.
    pub fn is_same(self, other: Extent) -> bool
        ensures { IsTrue result ↔ ((self.entry.start.now ≡ other.entry.start.now)
            × (self.entry.shape.now ≡ other.entry.shape.now)) }
    {
        self.start == other.start && self.shape == other.shape
    }
}
