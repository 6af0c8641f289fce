//! Tests of data types, fill values, elements and codecs that need code: constructors, intervals,
//! targets and coders. What calls make of values is in the files of calls/, and in the scripts of
//! `zarr_scarcity`.
#![tactic(auto)]

#[cfg(test)]
mod bytes;
#[cfg(test)]
mod coders;
#[cfg(test)]
mod deep;
#[cfg(test)]
mod fill_values;
#[cfg(test)]
mod intervals;
#[cfg(test)]
mod made;
#[cfg(test)]
mod new_shapes;
#[cfg(test)]
mod options;
#[cfg(test)]
mod packed;
#[cfg(test)]
mod regions;
#[cfg(test)]
mod samples;
#[cfg(test)]
mod targets;
#[cfg(test)]
mod two_numbers;
