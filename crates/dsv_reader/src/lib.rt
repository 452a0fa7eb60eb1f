//! Reads the files of controllers and plants.
#![tactic(auto)]

mod blocks;
mod controller;
mod costs;
mod fields;
mod law;
mod lists;
mod numbers;
mod passes;
mod plant;
mod quotients;
mod settings;

pub use controller::Controller;
pub use costs::Costs;
pub use dsv_token::FileRefusal;
pub use law::{one_answer, plant_text_is_read};
pub use passes::{read, read_plant};
pub use plant::Plant;
