//! Elements of any type by boxes: taken out of those of another box, and put over them.
#![tactic(auto)]

pub mod box_elements;
mod cutting;
mod numbers;
mod putting;

pub use box_elements::BoxElements;
pub use cutting::take_out;
pub use putting::put_over;
