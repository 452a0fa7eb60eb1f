// Certificates that are checked against controllers in a loop with a plant.
use dsv_certcheck::{CheckRefusal, check};
use dsv_certfile::{Certificate, CheckFault, read};
use dsv_loop::LoopRefusal;
use dsv_quantiser::QuantRefusal;
use dsv_reader::{Controller, Plant, read_plant};
use std::alloc::Global;

/// The controller 1 / (z - 1), which isn't stable.
const SUM: &str = "digital_system d = { .b = {0.0, 1.0}, .b_size = 2, .a = {1.0, -1.0}, \
    .a_size = 2 }; implementation r = { .int_bits = 2, .frac_bits = 2, .max = 1.0, .min = -1.0 };";

/// The controller 1/2.
const GAIN: &str = "digital_system d = { .b = {0.5}, .b_size = 1, .a = {1.0}, .a_size = 1 }; \
    implementation r = { .int_bits = 2, .frac_bits = 2, .max = 1.0, .min = -1.0 };";

/// The controller 1/2 / (z - 1/2), whose own polynomial is 2 z - 1.
const POLE: &str = "digital_system d = { .b = {0.0, 0.5}, .b_size = 2, .a = {1.0, -0.5}, \
    .a_size = 2 }; implementation r = { .int_bits = 2, .frac_bits = 2, .max = 1.0, .min = -1.0 };";

/// The plant 1: with `SUM` the loop has the polynomial z - 1 + 1, with `POLE` z - 1/2 + 1/2.
const ONE: &str = "digital_system p = { .b = {1}, .b_size = 1, .a = {1}, .a_size = 1 };";

/// The plant -1: with `SUM` the loop has the polynomial z - 2.
const MINUS_ONE: &str = "digital_system p = { .b = {-1}, .b_size = 1, .a = {1}, .a_size = 1 };";

/// The plant 1, sampled twice as fast.
const FAST_ONE: &str = "digital_system p = { .b = {1}, .b_size = 1, .a = {1}, .a_size = 1, \
    .sample_time = 0.5 };";

/// The lines before those of the kind.
const HEAD: &str = "dsv-certificate 1\njob STABILITY DFI FLOOR WRAPAROUND plant\n";

/// The polynomial z.
const Z: &str = "kind table 2\ncoefficient 1\ncoefficient 0\nend\n";

/// A controller, a plant, the two parts of a certificate, and what is found of it.
struct Case(
    &'static str,
    &'static str,
    &'static str,
    &'static str,
    Result<(), CheckRefusal>,
);

/// The certificate is none of the loop's stability, or has another number of coefficients.
const MISFIT: Result<(), CheckRefusal> = Err(CheckRefusal::Line {
    line: 3,
    fault: CheckFault::Shape,
});

/// A first number of the polynomial's table isn't positive.
const NOT_INSIDE: Result<(), CheckRefusal> = Err(CheckRefusal::Line {
    line: 3,
    fault: CheckFault::Table,
});

/// The first coefficient isn't the polynomial's.
const OTHER_FIRST: Result<(), CheckRefusal> = Err(CheckRefusal::Line {
    line: 4,
    fault: CheckFault::Table,
});

/// The second coefficient isn't the polynomial's.
const OTHER_SECOND: Result<(), CheckRefusal> = Err(CheckRefusal::Line {
    line: 5,
    fault: CheckFault::Table,
});

const CASES: &[Case] = &[
    Case(SUM, ONE, HEAD, Z, Ok(())),
    Case(POLE, ONE, HEAD, Z, Ok(())),
    // the controller's own polynomial isn't that of the loop
    Case(
        POLE,
        ONE,
        HEAD,
        "kind table 2\ncoefficient 2\ncoefficient -1\nend\n",
        OTHER_FIRST,
    ),
    Case(
        SUM,
        ONE,
        HEAD,
        "kind table 2\ncoefficient 1\ncoefficient -18446744073709551616\nend\n",
        OTHER_SECOND,
    ),
    // the loop has its root at 2
    Case(
        SUM,
        MINUS_ONE,
        HEAD,
        "kind table 2\ncoefficient 1\ncoefficient -2\nend\n",
        NOT_INSIDE,
    ),
    // one that isn't of a loop, of another kind, or of another order
    Case(
        SUM,
        ONE,
        "dsv-certificate 1\njob STABILITY DFI FLOOR WRAPAROUND\n",
        "kind falls 0\npositive 1 0\nfall 1 0\nend\n",
        MISFIT,
    ),
    Case(
        SUM,
        ONE,
        "dsv-certificate 1\njob OVERFLOW DFI FLOOR WRAPAROUND unbounded\n",
        "kind gain 0\nend\n",
        MISFIT,
    ),
    Case(SUM, ONE, HEAD, "kind table 1\ncoefficient 1\nend\n", MISFIT),
    // no loop
    Case(
        SUM,
        FAST_ONE,
        HEAD,
        Z,
        Err(CheckRefusal::Loop(LoopRefusal::SampleTimes)),
    ),
    Case(
        GAIN,
        ONE,
        HEAD,
        Z,
        Err(CheckRefusal::Loop(LoopRefusal::Algebraic)),
    ),
    // no words, before there is no loop
    Case(
        SUM,
        FAST_ONE,
        "dsv-certificate 1\njob STABILITY DDFI FLOOR WRAPAROUND plant\n",
        Z,
        Err(CheckRefusal::Quant(QuantRefusal::DeltaNotPositive { wanted: 0 })),
    ),
    // another format, before there are no words
    Case(
        SUM,
        FAST_ONE,
        "dsv-certificate 2\njob STABILITY DDFI FLOOR WRAPAROUND plant\nformat 2 3\n",
        "kind table 1\ncoefficient 1\nend\n",
        Err(CheckRefusal::Line {
            line: 3,
            fault: CheckFault::Format,
        }),
    ),
];

fn controller_of(alloc: Global, text: &str) -> Option<Controller> {
    dsv_reader::read(alloc, text.as_bytes()).ok()
}

fn plant_of(alloc: Global, text: &str) -> Option<Plant> {
    read_plant(alloc, text.as_bytes()).ok()
}

/// The certificate of a case.
fn certificate_of(alloc: Global, case: &Case) -> Option<Certificate> {
    let mut text = String::new(alloc);
    text.push_str(case.2).ok()?;
    text.push_str(case.3).ok()?;
    read(alloc, text.as_bytes()).ok()
}

/// What is found of a case.
fn found_of(alloc: Global, case: &Case) -> Option<Result<(), CheckRefusal>> {
    let controller = controller_of(alloc, case.0)?;
    let plant = plant_of(alloc, case.1)?;
    let certificate = certificate_of(alloc, case)?;
    match check(alloc, &controller, Some(&plant), &certificate) {
        Ok(None) => Some(Ok(())),
        Ok(Some(_)) => None,
        Err(why) => Some(Err(why)),
    }
}

#[test]
fn a_certificate_of_a_loop_is_checked_against_its_plant(rt: HostRuntime) {
    for case in CASES {
        assert!(rt; found_of(rt.alloc(), case) == Some(case.4));
    }
}
