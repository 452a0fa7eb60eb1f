// Which sections make a cascade, and which is the first that doesn't fit.
use crate::sections::{GAIN, HALF, PAIR, Section, THIRD, WIDE_HALF, cascade_of};
use dsv_cascade::CascadeRefusal;
use dsv_names::{OverflowMode, Realisation, Rounding};
use std::alloc::Global;

/// Whether the sections make a cascade.
fn is_made(alloc: Global, sections: &[Section]) -> bool {
    matches!(cascade_of(alloc, sections), Some(Ok(_)))
}

#[test]
fn eight_sections_of_orders_up_to_two_make_a_cascade(rt: HostRuntime) {
    let sections = [GAIN, HALF, PAIR, GAIN, GAIN, PAIR, HALF, PAIR];
    assert!(rt; is_made(rt.alloc(), &sections));
}

#[test]
fn one_section_makes_a_cascade(rt: HostRuntime) {
    assert!(rt; is_made(rt.alloc(), &[PAIR]));
}

/// Sections, and why they make no cascade.
struct Refused {
    sections: &'static [Section],
    refusal: CascadeRefusal,
}

/// Whether the sections are refused so.
fn is_refused(alloc: Global, row: &Refused) -> bool {
    match cascade_of(alloc, row.sections) {
        Some(Err(refusal)) => refusal == row.refusal,
        _ => false,
    }
}

/// A section of order 3.
const ORDERS: [Refused; 4] = [
    Refused {
        sections: &[THIRD],
        refusal: CascadeRefusal::Order { section: 0 },
    },
    Refused {
        sections: &[THIRD, HALF, THIRD],
        refusal: CascadeRefusal::Order { section: 0 },
    },
    Refused {
        sections: &[HALF, THIRD],
        refusal: CascadeRefusal::Order { section: 1 },
    },
    Refused {
        sections: &[HALF, PAIR, GAIN, THIRD, THIRD],
        refusal: CascadeRefusal::Order { section: 3 },
    },
];

#[test]
fn the_first_section_of_an_order_over_two_is_named(rt: HostRuntime) {
    for row in &ORDERS {
        assert!(rt; is_refused(rt.alloc(), row));
    }
}

/// A word of one bit more after the point.
const FINER: Section = Section {
    frac_bits: 3,
    ..HALF
};

/// A word of one bit more before the point.
const GREATER: Section = Section {
    int_bits: 3,
    ..HALF
};

/// Products are rounded to the nearest word.
const ROUNDED: Section = Section {
    rounding: Rounding::Nearest,
    ..HALF
};

/// What is no word wraps.
const WRAPPED: Section = Section {
    overflow: OverflowMode::Wrap,
    ..HALF
};

/// The direct form II.
const CANONICAL: Section = Section {
    realisation: Realisation::Dfii,
    ..HALF
};

/// A section that isn't like section 0.
const MIXED: [Refused; 8] = [
    Refused {
        sections: &[HALF, FINER],
        refusal: CascadeRefusal::Mixed { section: 1 },
    },
    Refused {
        sections: &[HALF, GREATER],
        refusal: CascadeRefusal::Mixed { section: 1 },
    },
    Refused {
        sections: &[HALF, ROUNDED],
        refusal: CascadeRefusal::Mixed { section: 1 },
    },
    Refused {
        sections: &[HALF, WRAPPED],
        refusal: CascadeRefusal::Mixed { section: 1 },
    },
    Refused {
        sections: &[HALF, CANONICAL],
        refusal: CascadeRefusal::Mixed { section: 1 },
    },
    Refused {
        sections: &[HALF, WIDE_HALF],
        refusal: CascadeRefusal::Mixed { section: 1 },
    },
    Refused {
        sections: &[WIDE_HALF, HALF],
        refusal: CascadeRefusal::Mixed { section: 1 },
    },
    Refused {
        sections: &[HALF, PAIR, FINER, WRAPPED],
        refusal: CascadeRefusal::Mixed { section: 2 },
    },
];

#[test]
fn the_first_section_that_is_not_like_section_0_is_named(rt: HostRuntime) {
    for row in &MIXED {
        assert!(rt; is_refused(rt.alloc(), row));
    }
}

/// Of order 3, and with a word of one bit more after the point.
const FINER_THIRD: Section = Section {
    frac_bits: 3,
    ..THIRD
};

const ORDER_AND_MIXED: Refused = Refused {
    sections: &[HALF, FINER_THIRD],
    refusal: CascadeRefusal::Order { section: 1 },
};

#[test]
fn the_order_comes_before_what_is_mixed(rt: HostRuntime) {
    assert!(rt; is_refused(rt.alloc(), &ORDER_AND_MIXED));
}

const MIXED_AND_LATER_ORDER: Refused = Refused {
    sections: &[HALF, FINER, THIRD],
    refusal: CascadeRefusal::Mixed { section: 1 },
};

#[test]
fn an_earlier_section_comes_before_a_later_one(rt: HostRuntime) {
    assert!(rt; is_refused(rt.alloc(), &MIXED_AND_LATER_ORDER));
}
