//! C99 for netlists: the program of a netlist, what it means, and that its steps are the netlist's.
//!
//! The syntax is in `specs/Syntax`, the meaning in `specs/Meaning`, the program in
//! `specs/Programs`. Words have no names here, and no text: locals and members are numbered.
#![tactic(auto)]

mod c_type;
mod codable;
mod law;

pub use c_type::{CType, wider_type};
pub use codable::wide_value;
pub use law::{
    code_runs_as_netlist, code_starts_as_netlist, code_steps_as_netlist, code_values_as_netlist,
};
