// An offer is written as text and read back, so what is outside of its places is to be 0.
use crate::controllers::{Design, SHORT, WORKED};
use dsv_ellipsoid::ellipsoid_offer;
use dsv_forms::Squares;
use dsv_names::Realisation;
use std::alloc::Global;
use std::test::Fail;

/// A matrix of eight places.
type Matrix = [[i128; 8]; 8];

/// Whether the numbers from a place on are 0.
fn are_zero_from(numbers: &[i128; 8], place: usize) -> bool {
    let mut met = true;
    for j in place..8 {
        met = met && numbers[j] == 0;
    }
    met
}

/// Whether the entries outside of so many rows and columns are 0.
fn is_zero_outside(matrix: &Matrix, rows: usize, columns: usize) -> bool {
    let mut met = true;
    for i in 0..8 {
        let first = if i < rows { columns } else { 0 };
        met = met && are_zero_from(&matrix[i], first);
    }
    met
}

/// Whether the squares of a form of so many places are 0 outside of theirs.
fn are_squares_of(squares: &Squares, places: usize) -> bool {
    let count = squares.count as usize;
    are_zero_from(&squares.weights, count)
        && is_zero_outside(&squares.rows, count, places)
        && is_zero_outside(&squares.rest, places, places)
}

/// Whether the offer for a controller is 0 outside of its places.
fn is_offer_in_places(alloc: Global, design: &Design) -> Option<bool> {
    let quantised = design.quantised_in(alloc, Realisation::Dfi)?;
    let order = quantised.order();
    let offer = ellipsoid_offer(&quantised)?;
    Some(
        is_zero_outside(&offer.form.rows, order, order)
            && are_squares_of(&offer.step, order + 1)
            && are_squares_of(&offer.first, order),
    )
}

#[test]
fn offers_are_zero_outside_of_their_places(rt: HostRuntime) -> Result<(), Fail> {
    let alloc = rt.alloc();
    let short = Design {
        text: SHORT,
        int_bits: 4,
        frac_bits: 12,
    };
    let mut met = true;
    for design in &[WORKED, short] {
        met = met && is_offer_in_places(alloc, design) == Some(true);
    }
    assert!(rt; met);
    Ok(())
}
