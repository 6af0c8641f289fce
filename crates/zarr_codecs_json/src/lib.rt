//! Elements of commands and answers as JSON, straight to bytes and from them.
#![tactic(auto)]

mod cells;
mod inside;
mod naturals;
mod numbers;
pub mod printing;
pub mod reading;
mod short_numbers;
mod strings;
pub mod whole_numbers;

pub use printing::{Printed, push_elements};
pub use reading::elements_in;
pub use whole_numbers::elements_of_numbers;
