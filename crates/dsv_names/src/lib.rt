//! The words that stand in commands, files and reports: enums whose values have names, one table
//! each.
#![tactic(auto)]

mod block;
mod design;
mod field;
mod law;
mod list_name;
mod names;
mod overflow_mode;
mod property;
mod realisation;
mod rounding;
mod setting;
mod want;

pub use block::Block;
pub use design::Design;
pub use field::Field;
pub use law::names_are_inverse;
pub use list_name::ListName;
pub use names::{Named, find_named};
pub use overflow_mode::OverflowMode;
pub use property::{Property, RootProperty, RunProperty};
pub use realisation::Realisation;
pub use rounding::Rounding;
pub use setting::Setting;
pub use want::Wanted;
