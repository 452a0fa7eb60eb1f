//! The first fault of a file: which refusal a file of a controller or of a plant gets, said of its
//! whole text.
#![tactic(auto)]

mod law;

pub use law::{
    first_faults_are_read, first_plant_faults_are_read, first_plant_unexpected_is_refused,
};
