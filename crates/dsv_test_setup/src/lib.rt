//! What the tests of several layers begin with: a controller's file made words.
#![tactic(auto)]

use dsv_names::Realisation;
use dsv_quantiser::{Quantised, quantise};
use dsv_reader::read;
use dsv_word::Format;
use std::alloc::Global;

/// The controller of a file in words of a format, where it is a controller's file and has them.
pub fn quantised_of(
    alloc: Global,
    file: &str,
    format: Format,
    realisation: Realisation,
) -> Option<Quantised> {
    let controller = read(alloc, file.as_bytes()).ok()?;
    quantise(&controller, format, realisation).ok()
}
