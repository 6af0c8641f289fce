//! Data types, cells and fill values, and how metadata gives them.
#![tactic(auto)]

pub mod cell;
pub mod data_type;
mod equality;
pub mod error;
mod fill_reading;
pub mod fill_value;
mod fill_writing;
pub mod laws;
mod metadata;
pub mod values;

pub use cell::Cell;
pub use data_type::{Component, DataType, Sign};
pub use error::{DataTypeError, FillValueError};
pub use fill_reading::integer_in;
pub use fill_value::FillValue;
pub use values::{is_value, is_value_in_bytes};
