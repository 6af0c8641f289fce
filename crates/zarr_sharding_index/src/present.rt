//! An index of a shard of which the pairs of present subchunks are kept.
ghost use Rattle.std.specs.Prelude.{◌≡◌, List, length, get_or, map, nat_lt, true, IfOk};
ghost use Rattle.std.specs.List.{list_all, range_with_len};
ghost use Rattle.zarr_codecs_meaning.specs.Encoding.{absent_pair};
ghost use Rattle.zarr_sharding_index.specs.Listed.{are_present, numbered, present_numbers};
ghost use Rattle.zarr_sharding_index.specs.Views.{numbers_or_all, pairs_of};

use crate::index::ShardIndex;
use crate::pair::{ABSENT, PresentPair, is_absent};
use std::alloc::{AllocError, Global};
use zarr_codecs_traits::ByteRange;

/// The index of a shard, of which the pairs of present subchunks alone are kept, sorted by the
/// numbers of these: the numbers, which may be left out where each subchunk is present, and the
/// pairs as the full index has them. A contract sees the list of all pairs, and whether the numbers
/// are listed.
#[derive(Debug, Drop)]
pub struct PresentPairs {
    count: usize,
    numbers: Option<Vec<usize>>,
    ranges: ShardIndex,
    ghost listed: { are_present 0 count
        (numbered (numbers_or_all count numbers) (pairs_of ranges)) ≡ true },
    ghost alike: { length (numbers_or_all count numbers) ≡ length (pairs_of ranges) },
}

impl PresentPairs {
    ghost use Rattle.std.specs.Prelude.{◌≡◌, ◌≢◌, ◌<◌, ℕ, List, length, get_or, slice_set, replicate, not, false, true, IfErr, IfNone, IfOk, IfSome, OnErr, OnOk};
    ghost use Rattle.std.specs.List.{list_all};
    ghost use Rattle.zarr_codecs_meaning.specs.Decoding.{is_absent};
    ghost use Rattle.zarr_codecs_meaning.specs.Encoding.{absent_pair};
    ghost use Rattle.zarr_sharding_index.specs.Listed.{IsGapFor, IsListedAt, are_present, count_present, full_list};
    ghost use Rattle.zarr_sharding_index.specs.Present.{all_pairs, are_numbers_listed, kept_pairs};
    ghost use Rattle.zarr_sharding_index.specs.Views.{numbers_or_all, pair_of, pairs_of};
    ghost use Rattle.zarr_sharding_index.specs.declared.pair.PresentPair.{PresentPair};

    /// The index of so many subchunks, each of which is absent.
    pub fn all_absent(alloc: Global, count: usize) -> PresentPairs
        ensures { all_pairs result ≡ replicate count absent_pair }
    {
        PresentPairs {
            count,
            numbers: Some(Vec::new(alloc)),
            ranges: ShardIndex::new(alloc),
        }
    }

    /// The index of the same pairs.
    pub fn from_index(alloc: Global, index: ShardIndex) -> Result<PresentPairs, AllocError>
        ensures { IfOk result (λ made. all_pairs made ≡ pairs_of index) }
    {
        let count = index.len();
        let numbers = present_numbers(alloc, &index)?;
        if numbers.len() == count {
            return Ok(PresentPairs {
                count,
                numbers: Some(numbers),
                ranges: index,
            });
        }
        let ranges = pairs_at(alloc, &index, numbers.as_slice())?;
        Ok(PresentPairs {
            count,
            numbers: Some(numbers),
            ranges,
        })
    }

    /// The index of the same pairs, each of which is that of a present subchunk. Their numbers
    /// aren't listed.
    pub(crate) fn from_all_present(index: ShardIndex) -> PresentPairs
        requires { list_all (λ pair. not (is_absent pair)) (pairs_of index) ≡ true }
        ensures { all_pairs result ≡ pairs_of index }
    {
        PresentPairs {
            count: index.len(),
            numbers: None,
            ranges: index,
        }
    }

    /// The full list of the pairs.
    pub fn to_index(&self, alloc: Global) -> Result<ShardIndex, AllocError>
        ensures { IfOk result (λ made. pairs_of made ≡ all_pairs self.now) }
    {
        if let Some(index) = self.full() {
            return index.try_clone(alloc);
        }
        let mut index = ShardIndex::all_absent(alloc, self.count)?;
        for k in 0..self.count_present() {
            let pair = self.nth(k);
            index.put(pair.number, pair.range);
        }
        Ok(index)
    }

    /// The full list of the pairs, lent where each subchunk is present: else `to_index` makes one.
    pub fn full(&self) -> Option<&ShardIndex>
        ensures lent { IfSome result (λ index. pairs_of index.now ≡ all_pairs self.now) }
        ensures absent { IfNone result
            (count_present (all_pairs self.now) ≢ length (all_pairs self.now)) }
    {
        if self.count_present() == self.count {
            Some(&self.ranges)
        } else {
            None
        }
    }

    /// An equal index. `Err` only where an allocation failed.
    pub fn try_clone(&self, alloc: Global) -> Result<PresentPairs, AllocError>
        ensures { IfOk result (λ copy. all_pairs copy ≡ all_pairs self.now) }
    {
        let numbers = match &self.numbers {
            Some(listed) => Some(Vec::from_slice(alloc, listed.as_slice())?),
            None => None,
        };
        Ok(PresentPairs {
            count: self.count,
            numbers,
            ranges: self.ranges.try_clone(alloc)?,
        })
    }

    /// How many subchunks the index is of.
    pub fn len(&self) -> usize
        ensures { result ≡ length (all_pairs self.now) }
    {
        self.count
    }

    /// How many of them are present.
    pub fn count_present(&self) -> usize
        ensures count { result ≡ count_present (all_pairs self.now) }
        ensures kept { result ≡ length (kept_pairs self.now) }
        ensures present { are_present 0 (length (all_pairs self.now)) (kept_pairs self.now)
            ≡ true }
        ensures all { full_list (length (all_pairs self.now)) (kept_pairs self.now)
            ≡ all_pairs self.now }
    {
        self.ranges.len()
    }

    /// The number and the pair of a present subchunk, by its place among the present ones, below
    /// `count_present`.
    pub fn nth(&self, k: usize) -> PresentPair
        requires { k < length (kept_pairs self.now) }
        ensures { (other : PresentPair) → result ≡ get_or (kept_pairs self.now) k other }
    {
        PresentPair {
            number: self.number_at(k),
            range: self.ranges.get(k),
        }
    }

    /// The number of the subchunk whose pair is kept at a place.
    fn number_at(&self, k: usize) -> usize
        requires { k < length (numbers_or_all self.now.count self.now.numbers) }
        ensures { (other : ℕ) → result
            ≡ get_or (numbers_or_all self.now.count self.now.numbers) k other }
    {
        match &self.numbers {
            Some(listed) => listed[k],
            None => k,
        }
    }

    /// Whether none of them is present.
    pub fn are_absent(&self) -> bool
        ensures { result ≡ list_all is_absent (all_pairs self.now) }
    {
        self.count_present() == 0
    }

    /// The pair of the subchunk with this number.
    pub fn get(&self, n: usize) -> ByteRange
        requires { n < length (all_pairs self.now) }
        ensures { pair_of result ≡ get_or (all_pairs self.now) n absent_pair }
    {
        match self.place_of(n) {
            Ok(at) => self.ranges.get(at),
            Err(_) => ABSENT,
        }
    }

    /// Replaces the pair of the subchunk with this number. Where a subchunk becomes absent and the
    /// numbers aren't listed, they are listed first, 8 bytes each. An `Err`, only where an
    /// allocation failed, leaves the index as it was.
    pub fn put(&mut self, alloc: Global, n: usize, pair: ByteRange) -> Result<(), AllocError>
        requires { n < length (all_pairs self.old) }
        ensures ok { OnOk result
            (all_pairs self.new ≡ slice_set (all_pairs self.old) n (pair_of pair)) }
        ensures err { OnErr result (all_pairs self.new ≡ all_pairs self.old) }
        ensures listed { is_absent (get_or (all_pairs self.old) n absent_pair) ≡ true →
            OnOk result (are_numbers_listed self.new ≡ true) }
    {
        if is_absent(pair) {
            self.list_numbers(alloc)?;
            self.remove(n);
            return Ok(());
        }
        match self.place_of(n) {
            Ok(at) => {
                self.ranges.put(at, pair);
                Ok(())
            }
            Err(at) => {
                let new = PresentPair {
                    number: n,
                    range: pair,
                };
                self.insert(at, new)
            }
        }
    }

    /// Keeps the pair of a subchunk that is absent, at its place among those that are kept. An
    /// `Err` leaves the index as it was.
    fn insert(&mut self, at: usize, new: PresentPair) -> Result<(), AllocError>
        requires gap { IsGapFor (kept_pairs self.old) new.number at }
        requires below { new.number < length (all_pairs self.old) }
        requires present { is_absent (pair_of new.range) ≡ false }
        requires listed { are_numbers_listed self.old ≡ true }
        ensures ok { OnOk result (all_pairs self.new
            ≡ slice_set (all_pairs self.old) new.number (pair_of new.range)) }
        ensures err { OnErr result (all_pairs self.new ≡ all_pairs self.old) }
        ensures listed { are_numbers_listed self.new ≡ true }
    {
        self.ranges.insert(at, new.range)?;
        let Some(listed) = &mut self.numbers else {
            unreachable!();
        };
        match listed.insert(at, new.number) {
            Ok(()) => Ok(()),
            Err(error) => {
                self.ranges.remove(at);
                Err(error.into())
            }
        }
    }

    /// Replaces the pair of a subchunk that is present. Where the new one is that of an absent
    /// subchunk, the numbers have to be listed already.
    pub(crate) fn replace(&mut self, n: usize, pair: ByteRange)
        requires present { is_absent (get_or (all_pairs self.old) n absent_pair) ≡ false }
        requires listed { is_absent (pair_of pair) ≡ true → are_numbers_listed self.old ≡ true }
        ensures { all_pairs self.new ≡ slice_set (all_pairs self.old) n (pair_of pair) }
    {
        if is_absent(pair) {
            self.remove(n);
            return;
        }
        match self.place_of(n) {
            Ok(at) => self.ranges.put(at, pair),
            Err(_) => {}
        }
    }

    /// Makes the subchunk with this number absent. The numbers stay listed.
    fn remove(&mut self, n: usize)
        requires { are_numbers_listed self.old ≡ true }
        ensures pairs { all_pairs self.new ≡ slice_set (all_pairs self.old) n absent_pair }
        ensures listed { are_numbers_listed self.new ≡ true }
    {
        match self.place_of(n) {
            Ok(at) => {
                if let Some(listed) = &mut self.numbers {
                    listed.remove(at);
                    self.ranges.remove(at);
                }
            }
            Err(_) => {}
        }
    }

    /// Lists the numbers of the present subchunks, where they aren't. An `Err` leaves the index as
    /// it was.
    fn list_numbers(&mut self, alloc: Global) -> Result<(), AllocError>
        ensures pairs { all_pairs self.new ≡ all_pairs self.old }
        ensures listed { OnOk result (are_numbers_listed self.new ≡ true) }
    {
        if self.numbers.is_none() {
            self.numbers = Some(numbers_below(alloc, self.count)?);
        }
        Ok(())
    }

    /// Where the pair of the subchunk with this number is kept, or where it would be.
    fn place_of(&self, n: usize) -> Result<usize, usize>
        ensures found { IfOk result (IsListedAt (kept_pairs self.now) n) }
        ensures absent { IfErr result (IsGapFor (kept_pairs self.now) n) }
    {
        match &self.numbers {
            Some(listed) => listed.as_slice().binary_search(&n),
            None => {
                if n < self.count {
                    Ok(n)
                } else {
                    Err(self.count)
                }
            }
        }
    }
}

/// The numbers of the subchunks of an index that are present.
fn present_numbers(alloc: Global, index: &ShardIndex) -> Result<Vec<usize>, AllocError>
    ensures { IfOk result (λ made. made.items ≡ present_numbers (pairs_of index.now)) }
{
    let mut numbers = Vec::with_capacity(alloc, index.len())?;
    for number in 0..index.len() {
        if !is_absent(index.get(number)) {
            numbers.push(number)?;
        }
    }
    numbers.shrink_to_fit();
    Ok(numbers)
}

/// The numbers below a count.
fn numbers_below(alloc: Global, count: usize) -> Result<Vec<usize>, AllocError>
    ensures { IfOk result (λ made. made.items ≡ range_with_len 0 count) }
{
    let mut numbers = Vec::with_capacity(alloc, count)?;
    for n in 0..count {
        numbers.push(n)?;
    }
    Ok(numbers)
}

/// The pairs of the subchunks of an index with these numbers.
fn pairs_at(alloc: Global, index: &ShardIndex, numbers: &[usize]) -> Result<ShardIndex, AllocError>
    requires { list_all (λ n. nat_lt n (length (pairs_of index.now))) numbers.now ≡ true }
    ensures { IfOk result (λ made. pairs_of made
        ≡ map (λ n. get_or (pairs_of index.now) n absent_pair) numbers.now) }
{
    let mut pairs = ShardIndex::new(alloc);
    for number in numbers {
        pairs.push(index.get(*number))?;
    }
    pairs.shrink_to_fit();
    Ok(pairs)
}
