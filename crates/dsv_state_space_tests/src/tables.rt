// What is found of controllers by their tables, beside a model in fractions: the characteristic
// polynomial by determinants, its table with no number divided, and the sizes of its roots.
use crate::systems::system_of;
use dsv_integer::Numeral;
use dsv_state_table::state_finding;
use dsv_table::{TableFinding, TableVerdict};
use std::alloc::Global;

/// A turn by 60 degrees on an ellipse: both roots are on the unit circle.
const TURNED: &str = "dsv-state-space 1
format 4 4
range -1.0 1.0
states 2
a 0.5 -0.75
a 1.0 0.5
b 0.0 0.0
c 0.0 0.0
d 0.0
end
";

/// A turn by 45 degrees, which makes a vector shorter.
const SPIRAL: &str = "dsv-state-space 1
format 4 4
range -1.0 1.0
states 2
a 0.5 -0.5
a 0.5 0.5
b 0.0 0.0
c 0.0 0.0
d 0.0
end
";

/// A Jordan block with the root 1.
const BLOCK: &str = "dsv-state-space 1
format 4 4
range -1.0 1.0
states 2
a 1.0 0.5
a 0.0 1.0
b 0.0 0.0
c 0.0 0.0
d 0.0
end
";

/// Two turns by 90 degrees, the second one of which moves the first.
const TURNED_BLOCK: &str = "dsv-state-space 1
format 4 4
range -1.0 1.0
states 4
a 0.0 -1.0 1.0 0.0
a 1.0 0.0 0.0 1.0
a 0.0 0.0 0.0 -1.0
a 0.0 0.0 1.0 0.0
b 0.0 0.0 0.0 0.0
c 0.0 0.0 0.0 0.0
d 0.0
end
";

/// States that stay as they are: each obeys a polynomial of order 1.
const UNIT: &str = "dsv-state-space 1
format 4 4
range -1.0 1.0
states 3
a 1.0 0.0 0.0
a 0.0 1.0 0.0
a 0.0 0.0 1.0
b 0.0 0.0 0.0
c 0.0 0.0 0.0
d 0.0
end
";

/// A state that falls, and one that stays as it is.
const BESIDE: &str = "dsv-state-space 1
format 4 4
range -1.0 1.0
states 2
a 0.5 0.0
a 0.0 1.0
b 0.0 0.0
c 0.0 0.0
d 0.0
end
";

/// Two states that are 0 after two steps, and one that falls by half.
const DEAD_BEAT: &str = "dsv-state-space 1
format 4 4
range -1.0 1.0
states 3
a 0.0 1.0 0.0
a 0.0 0.0 0.0
a 0.0 0.0 0.5
b 0.0 0.0 0.0
c 0.0 0.0 0.0
d 0.0
end
";

/// States that are 0 after two steps: the size of each root is 0.
const NONE_LEFT: &str = "dsv-state-space 1
format 4 4
range -1.0 1.0
states 2
a 0.0 1.0
a 0.0 0.0
b 0.0 0.0
c 0.0 0.0
d 0.0
end
";

/// A state that changes its sign and falls.
const LAG: &str = "dsv-state-space 1
format 4 4
range -1.0 1.0
states 1
a -0.875
b 0.0
c 0.0
d 0.0
end
";

/// A state that rises, moved by one that falls.
const UNSTABLE: &str = "dsv-state-space 1
format 4 4
range -1.0 1.0
states 2
a 1.25 0.5
a 0.0 0.5
b 0.0 0.0
c 0.0 0.0
d 0.0
end
";

/// Three states whose table ends in its last row.
const LAST_ROW: &str = "dsv-state-space 1
format 4 4
range -1.0 1.0
states 3
a -0.75 -0.125 0.375
a -0.6875 0.875 -0.8125
a 1.0 -0.0625 0.9375
b 0.0 0.0 0.0
c 0.0 0.0 0.0
d 0.0
end
";

/// Eight states, most of which move most others.
const EIGHT: &str = "dsv-state-space 1
format 4 4
range -1.0 1.0
states 8
a -0.5 -0.0625 0.0 0.0625 -0.0625 -0.0625 -0.125 0.0
a 0.1875 -0.125 0.0625 0.1875 0.1875 0.0625 0.0625 0.0
a -0.0625 0.0 0.25 0.0625 0.1875 0.0625 0.1875 0.0625
a -0.0625 -0.0625 0.125 0.125 0.0625 -0.0625 0.1875 0.125
a -0.125 -0.0625 0.0625 0.0625 0.5625 0.1875 0.1875 -0.0625
a -0.0625 0.0625 0.1875 -0.0625 -0.125 0.0 0.1875 0.0625
a 0.125 0.0625 -0.125 0.1875 0.0625 -0.0625 -0.375 0.1875
a -0.125 0.0 0.0625 -0.0625 0.0 0.125 0.125 0.4375
b 0.0 0.0 0.0 0.0 0.0 0.0 0.0 0.0
c 0.0 0.0 0.0 0.0 0.0 0.0 0.0 0.0
d 0.0
end
";

/// Eight states that follow one another in a ring.
const RING: &str = "dsv-state-space 1
format 4 4
range -1.0 1.0
states 8
a 0.0 0.0 0.0 0.0 0.0 0.0 0.0 1.0
a 1.0 0.0 0.0 0.0 0.0 0.0 0.0 0.0
a 0.0 1.0 0.0 0.0 0.0 0.0 0.0 0.0
a 0.0 0.0 1.0 0.0 0.0 0.0 0.0 0.0
a 0.0 0.0 0.0 1.0 0.0 0.0 0.0 0.0
a 0.0 0.0 0.0 0.0 1.0 0.0 0.0 0.0
a 0.0 0.0 0.0 0.0 0.0 1.0 0.0 0.0
a 0.0 0.0 0.0 0.0 0.0 0.0 1.0 0.0
b 0.0 0.0 0.0 0.0 0.0 0.0 0.0 0.0
c 0.0 0.0 0.0 0.0 0.0 0.0 0.0 0.0
d 0.0
end
";

/// A controller's file and what is wanted of it: the coefficients, what the table says, and how
/// many hundred-thousandths the greatest root has at least.
#[derive(Clone, Copy)]
struct Row {
    text: &'static str,
    poly: &'static [&'static str],
    verdict: TableVerdict,
    least: &'static str,
}

/// The coefficients for `RING`.
const RING_POLY: [&str; 9] = [
    "4294967296",
    "0",
    "0",
    "0",
    "0",
    "0",
    "0",
    "0",
    "-4294967296",
];

/// The coefficients for `EIGHT`.
const EIGHT_POLY: [&str; 9] = [
    "4294967296",
    "-1610612736",
    "-1912602624",
    "466616320",
    "271581184",
    "-46157824",
    "-4804352",
    "1669648",
    "-55932",
];

/// A controller whose table has no row that ends it.
fn inside_row(text: &'static str, poly: &'static [&'static str], least: &'static str) -> Row {
    Row {
        text,
        poly,
        verdict: TableVerdict::Inside,
        least,
    }
}

/// A controller whose greatest root is at least 1 in size, by a row of its table.
fn outside_row(
    text: &'static str,
    poly: &'static [&'static str],
    row: usize,
    least: &'static str,
) -> Row {
    Row {
        text,
        poly,
        verdict: TableVerdict::NotInside { row },
        least,
    }
}

/// Controllers whose states fall to 0.
fn inside_rows() -> [Row; 5] {
    [
        inside_row(SPIRAL, &["256", "-256", "128"], "70710"),
        inside_row(DEAD_BEAT, &["4096", "-2048", "0", "0"], "50000"),
        inside_row(NONE_LEFT, &["256", "0", "0"], "0"),
        inside_row(LAG, &["16", "14"], "87500"),
        inside_row(EIGHT, &EIGHT_POLY, "62773"),
    ]
}

/// Controllers with roots on the unit circle and none outside.
fn circle_rows() -> [Row; 6] {
    [
        outside_row(TURNED, &["256", "-256", "256"], 1, "100000"),
        outside_row(BLOCK, &["256", "-512", "256"], 1, "100000"),
        outside_row(
            TURNED_BLOCK,
            &["65536", "0", "131072", "0", "65536"],
            1,
            "100000",
        ),
        outside_row(UNIT, &["4096", "-12288", "12288", "-4096"], 1, "100000"),
        outside_row(BESIDE, &["256", "-384", "128"], 2, "100000"),
        outside_row(RING, &RING_POLY, 1, "100000"),
    ]
}

/// Controllers with a root outside the unit circle.
fn outside_rows() -> [Row; 2] {
    [
        outside_row(UNSTABLE, &["256", "-448", "160"], 2, "125000"),
        outside_row(LAST_ROW, &["4096", "-4352", "-4304", "3556"], 3, "136653"),
    ]
}

/// Whether numbers have these texts.
fn are_texts(numbers: &[Numeral], wanted: &[&'static str]) -> bool {
    let mut met = numbers.len() == wanted.len();
    for (number, text) in numbers.iter().zip(wanted) {
        met = met && number.text() == text.as_bytes();
    }
    met
}

/// Whether the greatest root has so many hundred-thousandths at least.
fn is_least(found: &TableFinding, wanted: &str) -> bool {
    match &found.root {
        Some(root) => root.least.text() == wanted.as_bytes(),
        None => false,
    }
}

/// Whether the finding of a controller is what is wanted.
fn is_found(alloc: Global, row: &Row) -> Option<bool> {
    let system = system_of(row.text)?;
    let found = state_finding(&system, alloc).ok()?;
    let found = found?;
    let is_polynomial = are_texts(found.poly.as_slice(), row.poly);
    Some(is_polynomial && found.verdict == row.verdict && is_least(&found, row.least))
}

#[test]
fn states_inside_the_unit_circle_fall(rt: HostRuntime) {
    for row in &inside_rows() {
        assert!(rt; is_found(rt.alloc(), row) == Some(true));
    }
}

#[test]
fn states_on_the_unit_circle_do_not_fall(rt: HostRuntime) {
    for row in &circle_rows() {
        assert!(rt; is_found(rt.alloc(), row) == Some(true));
    }
}

#[test]
fn states_outside_the_unit_circle_do_not_fall(rt: HostRuntime) {
    for row in &outside_rows() {
        assert!(rt; is_found(rt.alloc(), row) == Some(true));
    }
}
