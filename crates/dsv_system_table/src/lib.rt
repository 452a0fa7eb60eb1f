//! Whether a linear system falls or is kept away from 0, by the table of its polynomial in exact
//! whole numbers, with forms that show it.
#![tactic(auto)]

mod coefficients;
mod elimination;
mod law;
mod polynomial;
mod rows;
mod system;

pub use coefficients::characteristic;
pub use law::outputs_tell;
pub use system::system_finding;
