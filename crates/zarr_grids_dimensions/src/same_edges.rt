//! Whether lists of repeats stand for the same edges.
ghost use Rattle.std.specs.Prelude.{◌≡◌, ◌++◌, ◌<◌, ◌≤◌, true, Some, length, replicate, bytes_eq};
ghost use Rattle.zarr_grids_dimensions.specs.Lookups.{all_positive};
ghost use Rattle.zarr_grids_dimensions.specs.RepeatedEdges.{expanded, counts};
ghost use Rattle.zarr_grids_dimensions.specs.RepeatsLeft.{edges_left, repeats_left};

use crate::repeat::RepeatedEdge;
use crate::repeats_left::RepeatsLeft;

/// Whether two lists of repeats stand for the same edges, one after another.
pub(crate) fn have_same_edges(repeats: &[RepeatedEdge], others: &[RepeatedEdge]) -> bool
    requires positive { all_positive (counts repeats.now) ≡ true }
    requires others_positive { all_positive (counts others.now) ≡ true }
    ensures { result ≡ bytes_eq (expanded repeats.now) (expanded others.now) }
{
    let (mut left, mut other_left) = (RepeatsLeft::of(repeats), RepeatsLeft::of(others));
    while let (Some(mine), Some(theirs)) = (left, other_left) {
        if mine.first.edge != theirs.first.edge {
            return false;
        }
        let count = mine.first.count.min(theirs.first.count);
        left = mine.without(count);
        other_left = theirs.without(count);
    }
    left.is_none() && other_left.is_none()
}

impl<'a> RepeatsLeft<'a> {
    /// All of a list of repeats. `None` where there is none.
    fn of(repeats: &'a [RepeatedEdge]) -> Option<RepeatsLeft<'a>>
        requires { all_positive (counts repeats.now) ≡ true }
        ensures edges { edges_left result ≡ expanded repeats.now }
        ensures count { repeats_left result ≡ length repeats.now }
    {
        match repeats {
            [first, later @ ..] => Some(RepeatsLeft {
                first: *first,
                later,
            }),
            _ => None,
        }
    }

    /// What is left without `count` chunks of the first repeat.
    fn without(self, count: u64) -> Option<RepeatsLeft<'a>>
        requires { count ≤ self.first.count }
        ensures edges { edges_left (Some self.entry)
            ≡ replicate count self.entry.first.edge ++ edges_left result }
        ensures fewer { count ≡ self.entry.first.count
            → repeats_left result < repeats_left (Some self.entry) }
        ensures no_more { repeats_left result ≤ repeats_left (Some self.entry) }
    {
        let left = self.first.count - count;
        if left == 0 {
            return RepeatsLeft::of(self.later);
        }
        Some(RepeatsLeft {
            first: RepeatedEdge {
                edge: self.first.edge,
                count: left,
            },
            later: self.later,
        })
    }
}
