// A model of the equations of up to two states in words of three bits, two after the point: words
// are -4 to 3, and the word w stands for w / 4.
#![tactic(auto, using(dsv_algebra::proofs::Casts::casts))]

use dsv_names::{OverflowMode, Rounding};
use std::alloc::Global;

/// The words of a controller of up to two states; those of the second are 0 where it has one.
#[derive(Clone, Copy)]
pub(crate) struct Model {
    pub a: [[i64; 2]; 2],
    pub b: [i64; 2],
    pub c: [i64; 2],
    pub d: i64,
    pub states: usize,
    pub mode: (Rounding, OverflowMode),
}

/// What a sample of a model gives.
#[derive(Drop)]
pub(crate) struct Sample {
    pub y: i64,
    pub exact: Vec<i64>,
    pub states: [i64; 2],
}

/// The words from the least on, as decimals.
const DECIMALS: [&str; 8] = [
    "-1.0", "-0.75", "-0.5", "-0.25", "0.0", "0.25", "0.5", "0.75",
];

/// A word as a decimal.
fn decimal(word: i64) -> &'static str {
    DECIMALS[word.wrapping_add(4).rem_euclid(8) as usize]
}

/// A quarter of a number, made whole.
fn quarter(rounding: Rounding, number: i64) -> i64 {
    match rounding {
        Rounding::Floor => number.div_euclid(4),
        Rounding::Ceil => number.wrapping_add(3).div_euclid(4),
        Rounding::Nearest => number.wrapping_add(2).div_euclid(4),
    }
}

/// The word that a number becomes.
fn word_of(overflow: OverflowMode, number: i64) -> i64 {
    match overflow {
        OverflowMode::Wrap => number.wrapping_add(4).rem_euclid(8).wrapping_sub(4),
        OverflowMode::Saturate => {
            if number < -4 {
                -4
            } else if number > 3 {
                3
            } else {
                number
            }
        }
    }
}

/// Appends a piece of a text.
fn put(text: &mut Vec<u8>, piece: &str) -> Option<()> {
    text.extend_from_slice(piece.as_bytes()).ok()
}

/// Appends a line of decimals.
fn put_row(text: &mut Vec<u8>, word: &str, words: &[i64]) -> Option<()> {
    put(text, word)?;
    for word in words {
        put(text, " ")?;
        put(text, decimal(*word))?;
    }
    put(text, "\n")
}

impl Model {
    /// A product of two words, with its exact value.
    fn product(&self, coeff: i64, word: i64, exact: &mut Vec<i64>) -> Option<i64> {
        let value = quarter(self.mode.0, coeff.wrapping_mul(word));
        exact.push(value).ok()?;
        Some(word_of(self.mode.1, value))
    }

    /// A line: a word times the input, and then a row times the states.
    fn line(
        &self,
        first: i64,
        row: &[i64; 2],
        u: i64,
        x: &[i64; 2],
        exact: &mut Vec<i64>,
    ) -> Option<i64> {
        let mut sum = self.product(first, u, exact)?;
        for i in 0..self.states.min(2) {
            let value = sum.wrapping_add(self.product(row[i], x[i], exact)?);
            exact.push(value).ok()?;
            sum = word_of(self.mode.1, value);
        }
        Some(sum)
    }

    /// A sample: the output, and then the new states of the old ones.
    pub(crate) fn sample(&self, alloc: Global, x: &[i64; 2], u: i64) -> Option<Sample> {
        let mut exact = Vec::new(alloc);
        let y = self.line(self.d, &self.c, u, x, &mut exact)?;
        let mut states = [0, 0];
        for i in 0..self.states.min(2) {
            states[i] = self.line(self.b[i], &self.a[i], u, x, &mut exact)?;
        }
        Some(Sample { y, exact, states })
    }

    /// Whether an exact value of the sample is no word.
    pub(crate) fn breaks(sample: &Sample) -> bool {
        sample.exact.iter().any(|value| *value < -4 || *value > 3)
    }

    /// The file of the model, whose inputs are the words from -1 to 1.
    pub(crate) fn text(&self, alloc: Global) -> Option<Vec<u8>> {
        let mut text = Vec::new(alloc);
        put(
            &mut text,
            "dsv-state-space 1\nformat 1 2\nrange -0.25 0.25\nstates ",
        )?;
        let count = self.states.min(2);
        put(&mut text, if count == 2 { "2\n" } else { "1\n" })?;
        for i in 0..count {
            put_row(&mut text, "a", &self.a[i][..count])?;
        }
        put_row(&mut text, "b", &self.b[..count])?;
        put_row(&mut text, "c", &self.c[..count])?;
        put_row(&mut text, "d", &[self.d])?;
        put(&mut text, "end\n")?;
        Some(text)
    }
}
