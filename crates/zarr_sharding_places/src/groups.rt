//! Places of one subchunk that stand side by side.
ghost use Rattle.std.specs.Prelude.{◌≡◌, ◌≢◌, ℕ, ◌<◌, ◌≤◌, ◌++◌, length, map, get_or, IfOk};
ghost use Rattle.zarr_sharding_places.specs.Groups.{IsGroup, StartsAnother, no_place};

use crate::locating::AskedPlace;
use std::alloc::{AllocError, Global};

/// The places in front that lie in the subchunk of the first one, and all others. There is a place.
pub fn leading_group(places: &[AskedPlace]) -> (&[AskedPlace], &[AskedPlace])
    requires { 0 < length places.now }
    ensures all { result.0.now ++ result.1.now ≡ places.now }
    ensures some { 0 < length result.0.now }
    ensures one { IsGroup result.0.now }
    ensures next { StartsAnother result.0.now result.1.now }
{
    places.split_at(leading_count(places))
}

/// How many places in front lie in the subchunk of the first one.
fn leading_count(places: &[AskedPlace]) -> usize
    requires { 0 < length places.now }
    ensures some { 0 < result }
    ensures within { result ≤ length places.now }
    ensures one { (m : ℕ) → m < result
        → (get_or places.now m no_place).subchunk ≡ (get_or places.now 0 no_place).subchunk }
    ensures next { result < length places.now
        → (get_or places.now result no_place).subchunk ≢ (get_or places.now 0 no_place).subchunk }
{
    let mut n = 1;
    while n < places.len() && places[n].subchunk == places[0].subchunk {
        n += 1;
    }
    n
}

/// Where places stand among all that are asked for.
pub fn positions_of(alloc: Global, places: &[AskedPlace]) -> Result<Vec<u64>, AllocError>
    ensures { IfOk result (λ at. at.items ≡ map (λ place. place.position) places.now) }
{
    places.iter().map(|place| place.position).collect(alloc)
}

/// The numbers of places in their subchunk.
pub fn insides_of(alloc: Global, places: &[AskedPlace]) -> Result<Vec<u64>, AllocError>
    ensures { IfOk result (λ numbers. numbers.items ≡ map (λ place. place.inside) places.now) }
{
    places.iter().map(|place| place.inside).collect(alloc)
}
