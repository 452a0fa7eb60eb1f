// Proposers that need no trust: the command asks them, drops them, and stays right.
ghost use Rattle.std.specs.Prelude.{nat_eq, None};

use crate::runs::{files_of, run_with};
use dsv_base::MemSink;
use dsv_cli::{FormProposer, Proposers, SumProposer};
use dsv_forms::{
    Falls, Form, FormOffer, FormRefusal, GREATEST_ORDER, KeptAway, OfferPart, Poly, Squares,
};
use std::alloc::Global;
use std::cell::Cell;
use std::rc::Rc;

/// The roots of z^3 = -2, which are outside the unit circle.
const NO_FORM: &[u8] = b"digital_system d = { .b = {1.0}, .b_size = 1, \
      .a = {1.0, 0.0, 0.0, 2.0}, .a_size = 4 }; \
      implementation r = { .int_bits = 3, .frac_bits = 13, .max = 1.0, .min = -1.0 };";

/// The roots of 2 z^3 = 1.
const THIRD_ROOT: &[u8] = b"digital_system d = { .b = {1.0}, .b_size = 1, \
      .a = {1.0, 0.0, 0.0, -0.5}, .a_size = 4 }; \
      implementation r = { .int_bits = 2, .frac_bits = 14, .max = 1.0, .min = -1.0 };";

const NO_FORM_TEXT: &[u8] = b"VERIFICATION INCONCLUSIVE\nproperty STABILITY realization DFI\n\
      polynomial 1 0 0 2\ncause NO_FORM offers 32\njury not-inside 0\n";

const THIRD_ROOT_TEXT: &[u8] = b"VERIFICATION SUCCESSFUL\nproperty STABILITY realization DFI\n\
      polynomial 2 0 0 -1\n\
      form 3145728 0 0\nform 0 2359296 0\nform 0 0 1572864\n\
      fall 3145728 0 0\nfall 0 3145728 0\nfall 0 0 3145728\n";

const SQUARES: Squares = Squares {
    m: 1,
    count: 0,
    weights: [0; GREATEST_ORDER],
    rows: [[0; GREATEST_ORDER]; GREATEST_ORDER],
    rest: [[0; GREATEST_ORDER]; GREATEST_ORDER],
};

/// A form of three places whose entries are all this number.
fn form_of(entry: i128) -> Form {
    Form {
        d: 3,
        rows: [[entry; GREATEST_ORDER]; GREATEST_ORDER],
    }
}

/// An offer of a form of three places whose entries are all this number.
fn kept_away(entry: i128) -> FormOffer {
    FormOffer::KeptAway(KeptAway {
        form: form_of(entry),
        start: [1; GREATEST_ORDER],
        fall: SQUARES,
    })
}

/// An offer of such a form that is to fall.
fn falls(entry: i128) -> FormOffer {
    FormOffer::Falls(Falls {
        form: form_of(entry),
        positive: SQUARES,
        fall: SQUARES,
    })
}

/// Offers a form a number of times, and counts how often it hears a refusal.
#[derive(Drop)]
struct Stubborn {
    offer: FormOffer,
    refusal: FormRefusal,
    left: u32,
    last: Option<FormOffer>,
    heard: Rc<Cell<u32>>,
}

impl FormProposer for Stubborn {
    ghost last = { λ s. s.last };

    ghost dry = { λ s. nat_eq s.left 0 };

    ghost sure = { λ _ _. ⊥ };

    ghost to_come = { λ _ _. None };

    ghost heard = { λ _ _. Unit {0} };

    fn propose(&mut self, _poly: &Poly) -> Option<FormOffer> {
        if self.left == 0 {
            return None;
        }
        self.left -= 1;
        self.last = Some(self.offer);
        self.last
    }

    fn tell(&mut self, refusal: &FormRefusal) {
        let heard = u32::from(*refusal == self.refusal);
        self.heard.set(self.heard.get().wrapping_add(heard));
    }
}

/// A run on a file by a proposer that offers a form so many times, before the one that is built in,
/// and what comes of it.
#[derive(Clone, Copy)]
struct Row {
    file: &'static [u8],
    times: u32,
    status: u8,
    text: &'static [u8],
    /// How often it heard this refusal.
    heard: u32,
    refusal: FormRefusal,
    /// How many proposers are left.
    left: usize,
}

/// A proposer that offers a form as often as a row says, and the one that is built in.
fn proposers_of(
    alloc: Global,
    row: &Row,
    offer: FormOffer,
    heard: Rc<Cell<u32>>,
) -> Option<Proposers> {
    let stubborn = Stubborn {
        offer,
        refusal: row.refusal,
        left: row.times,
        last: None,
        heard,
    };
    let mut forms: Vec<Box<dyn FormProposer>> = Vec::new(alloc);
    forms.push(Box::new(alloc, stubborn).ok()?).ok()?;
    forms.push(Box::new(alloc, SumProposer::new()).ok()?).ok()?;
    Some(Proposers {
        sets: Vec::new(alloc),
        forms,
    })
}

/// Whether the run of a row with these proposers ends as it says.
fn ends(alloc: Global, row: &Row, proposers: &mut Proposers) -> Option<bool> {
    let mut files = files_of(alloc, "f", row.file)?;
    let mut sink = MemSink::new(alloc, 1000).ok()?;
    let words = ["f", "--property", "STABILITY"];
    let done = run_with(alloc, &words, &mut files, &mut sink, proposers)?;
    Some(done.status == row.status && sink.bytes() == row.text)
}

/// Whether the run of a row ends as it says, and the proposer heard as much.
fn is_as_told(alloc: Global, row: &Row, offer: FormOffer) -> Option<bool> {
    let heard = Rc::new(alloc, Cell::new(0)).ok()?;
    let mut proposers = proposers_of(alloc, row, offer, heard.clone().ok()?)?;
    let ended = ends(alloc, row, &mut proposers)?;
    Some(ended && heard.get() == row.heard && proposers.forms.len() == row.left)
}

const ZERO: Row = Row {
    file: NO_FORM,
    times: 1000,
    status: 20,
    text: NO_FORM_TEXT,
    heard: 32,
    refusal: FormRefusal::Shape {
        part: OfferPart::Positive,
    },
    left: 0,
};

#[test]
fn the_zero_form_is_refused_32_times(rt: HostRuntime) {
    assert!(rt; is_as_told(rt.alloc(), &ZERO, falls(0)) == Some(true));
}

const LEAST: Row = Row {
    file: THIRD_ROOT,
    times: 1,
    status: 0,
    text: THIRD_ROOT_TEXT,
    heard: 1,
    refusal: FormRefusal::Wide {
        part: OfferPart::Fall,
        i: 0,
        j: 0,
    },
    left: 1,
};

#[test]
fn a_form_of_least_numbers_is_refused(rt: HostRuntime) {
    assert!(rt; is_as_told(rt.alloc(), &LEAST, kept_away(i128::MIN)) == Some(true));
}
