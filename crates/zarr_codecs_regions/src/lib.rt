//! Elements of an array by a box of their places or by their numbers, as bytes.
#![tactic(auto)]

pub mod asked;
pub mod extract;
pub mod fill;
pub mod gather;
pub mod inside;
mod lines;
pub mod list;
mod merging;
pub mod putting;
pub mod stretches;
mod taken;
pub mod taking;
pub mod unstored;
pub mod update;
mod variable;
pub mod whole;
pub mod whole_values;

pub use asked::{numbers_asked, test_asked};
pub use extract::extract_box;
pub use fill::copy_fill_value_into;
pub use gather::gather_elements;
pub use inside::is_inside;
pub use list::{are_below, extract_list};
pub use putting::put_asked;
pub use stretches::put_fixed;
pub use taking::take_asked;
pub use unstored::{count_elements, fill_array, fill_asked, is_box_too_large};
pub use update::{extract_array_subset, update_array_bytes};
pub use whole::{count_asked, encode_whole, test_given};
pub use whole_values::WholeValues;
