// The formula of a question, which is written and read. That it reads back as the answer's is a
// clause of `write_dimacs`.
use crate::runs::{files_of, status_of};
use dsv_base::MemSink;
use dsv_cnf::read_dimacs;
use std::alloc::Global;

/// The average of three inputs, in words of 16 bits.
const FILE: &[u8] =
    b"digital_system d = { .b = {0.25, 0.25, 0.25}, .b_size = 3, .a = {1.0}, .a_size = 1 }; \
      implementation r = { .int_bits = 2, .frac_bits = 14, .max = 2.0, .min = -2.0 };";

/// Whether the run succeeds, and what the sink took is a formula with clauses.
fn is_formula(alloc: Global) -> Option<bool> {
    let mut files = files_of(alloc, "f", FILE)?;
    let mut sink = MemSink::new(alloc, 1_000_000).ok()?;
    let job = ["f", "--property", "OVERFLOW", "--formula"];
    let status = status_of(alloc, &job, &mut files, &mut sink)?;
    let formula = read_dimacs(alloc, sink.bytes()).ok()?;
    Some(status == 0 && formula.len() > 0)
}

#[test]
fn a_formula_is_read(rt: HostRuntime) {
    assert!(rt; is_formula(rt.alloc()) == Some(true));
}
