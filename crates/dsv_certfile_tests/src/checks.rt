// Certificates that are checked against controllers.
use dsv_certcheck::{CheckRefusal, check};
use dsv_certfile::{Certificate, CheckFault, read};
use dsv_quantiser::QuantRefusal;
use dsv_reader::Controller;
use std::alloc::Global;

/// Poles at 0.5 + 0.5i and 0.5 - 0.5i.
const TWO_POLES: &str = "digital_system d = { .b = {1.0}, .b_size = 1, .a = {1.0, -1.0, 0.5}, \
    .a_size = 3 }; implementation r = { .int_bits = 2, .frac_bits = 2, .max = 1.0, .min = -1.0 };";

/// A pole at 0.5, and a zero at 0.
const ONE_POLE: &str = "digital_system d = { .b = {0.0, 0.0}, .b_size = 2, .a = {1.0, -0.5}, \
    .a_size = 2 }; implementation r = { .int_bits = 2, .frac_bits = 2, .max = 1.0, .min = -1.0 };";

/// y = x / 2
const GAIN: &str = "digital_system d = { .b = {0.5}, .b_size = 1, .a = {1.0}, .a_size = 1 }; \
    implementation r = { .int_bits = 2, .frac_bits = 14, .max = 1.0, .min = -1.0 };";

/// y = x + y1: -0.9 becomes -1.
const SUM: &str = "digital_system d = { .b = {1.0}, .b_size = 1, .a = {1.0, -0.9}, .a_size = 2 }; \
    implementation r = { .int_bits = 2, .frac_bits = 2, .max = 1.0, .min = -1.0 };";

/// A zero at -0.5, and a pole at 0.5.
const ONE_ZERO: &str = "digital_system d = { .b = {1.0, 0.5}, .b_size = 2, .a = {1.0, -0.5}, \
    .a_size = 2 }; implementation r = { .int_bits = 2, .frac_bits = 2, .max = 1.0, .min = -1.0 };";

/// A zero at -1, and a pole at 0.5.
const ZERO_ON_CIRCLE: &str = "digital_system d = { .b = {1.0, 1.0}, .b_size = 2, \
    .a = {1.0, -0.5}, .a_size = 2 }; implementation r = { .int_bits = 2, .frac_bits = 2, \
    .max = 1.0, .min = -1.0 };";

/// A pole at 0.5; in the delta operator the words 4 and 4 with 1/2.
const DELTA_POLE: &str = "digital_system d = { .b = {0.0, 0.5}, .b_size = 2, .a = {1.0, -0.5}, \
    .a_size = 2 }; implementation r = { .int_bits = 2, .frac_bits = 2, .max = 1.0, .min = -1.0, \
    .delta = 0.5 };";

/// A pole at 0.5; in the delta operator its first coefficient in z is 2^52, and its second one no
/// multiple of 2^7.
const WIDE_POLE: &str = "digital_system d = { .b = {0.0, 0.5}, .b_size = 2, .a = {1.0, -0.5}, \
    .a_size = 2 }; implementation r = { .int_bits = 3, .frac_bits = 26, .max = 1.0, .min = -1.0, \
    .delta = 0.3 };";

/// Five products in words of 32 bits.
const LARGE: &str = "digital_system d = { .b = {1.0}, .b_size = 1, .a = {1.0, 0.0, 0.5}, \
    .a_size = 3 }; implementation r = { .int_bits = 16, .frac_bits = 16, .max = 1.0, \
    .min = -1.0 };";

/// y = x / 2 in words of 48 bits.
const WIDE_GAIN: &str = "digital_system d = { .b = {0.5}, .b_size = 1, .a = {1.0}, .a_size = 1 }; \
    implementation r = { .int_bits = 2, .frac_bits = 46, .max = 1.0, .min = -1.0 };";

/// y = x / 2 in words of 33 bits.
const LEAST_WIDE_GAIN: &str = "digital_system d = { .b = {0.5}, .b_size = 1, .a = {1.0}, \
    .a_size = 1 }; implementation r = { .int_bits = 16, .frac_bits = 17, .max = 1.0, \
    .min = -1.0 };";

/// y = x / 2 in words of 32 bits.
const GREATEST_NARROW_GAIN: &str = "digital_system d = { .b = {0.5}, .b_size = 1, .a = {1.0}, \
    .a_size = 1 }; implementation r = { .int_bits = 16, .frac_bits = 16, .max = 1.0, \
    .min = -1.0 };";

/// The lines before the kind, where no format is said.
const UNSAID: &str = "dsv-certificate 1\njob STABILITY DFI FLOOR WRAPAROUND\n";

/// The lines before the format for two poles.
const SAID: &str = "dsv-certificate 2\njob STABILITY DFI FLOOR WRAPAROUND\n";

/// The lines before the form for two poles.
const HEAD: &str = "dsv-certificate 1\njob STABILITY DFI FLOOR WRAPAROUND\nkind falls 2\n";

/// A controller, the three parts of a certificate, and what is found of it.
struct Case(
    &'static str,
    &'static str,
    &'static str,
    &'static str,
    Result<(), CheckRefusal>,
);

/// A form for two poles, and parts of it that are wrong.
const FORMS: &[Case] = &[
    Case(
        TWO_POLES,
        HEAD,
        "form 24 -8\nform -8 11\npositive 3 2\nsquare 2 6 -2\nsquare 25 0 1\nrest 0 0\nrest 0 0\n",
        "fall 1 2\nsquare 20 1 0\nsquare 20 0 1\nrest 0 0\nrest 0 0\nend\n",
        Ok(()),
    ),
    Case(
        TWO_POLES,
        HEAD,
        "form 24 -8\nform -8 11\npositive 3 2\nsquare 2 6 -2\nsquare 24 0 1\nrest 0 0\nrest 0 0\n",
        "fall 1 2\nsquare 20 1 0\nsquare 20 0 1\nrest 0 0\nrest 0 0\nend\n",
        Err(CheckRefusal::Line {
            line: 10,
            fault: CheckFault::Form,
        }),
    ),
    Case(
        TWO_POLES,
        HEAD,
        "form 24 -8\nform -7 11\npositive 3 2\nsquare 2 6 -2\nsquare 25 0 1\nrest 0 0\nrest 0 0\n",
        "fall 1 2\nsquare 20 1 0\nsquare 20 0 1\nrest 0 0\nrest 0 0\nend\n",
        Err(CheckRefusal::Line {
            line: 4,
            fault: CheckFault::Form,
        }),
    ),
    Case(
        TWO_POLES,
        HEAD,
        "form 24 -8\nform -8 11\npositive 0 2\nsquare 2 6 -2\nsquare 25 0 1\nrest 0 0\nrest 0 0\n",
        "fall 1 2\nsquare 20 1 0\nsquare 20 0 1\nrest 0 0\nrest 0 0\nend\n",
        Err(CheckRefusal::Line {
            line: 6,
            fault: CheckFault::Form,
        }),
    ),
    Case(
        TWO_POLES,
        HEAD,
        "form 24 -8\nform -8 11\npositive 3 2\nsquare 2 6 -2\nsquare -25 0 1\nrest 0 0\nrest 0 0\n",
        "fall 1 2\nsquare 20 1 0\nsquare 20 0 1\nrest 0 0\nrest 0 0\nend\n",
        Err(CheckRefusal::Line {
            line: 8,
            fault: CheckFault::Form,
        }),
    ),
    Case(
        TWO_POLES,
        HEAD,
        "form 24 -8\nform -8 11\npositive 3 2\nsquare 2 6 -2\nsquare 25 0 1\nrest 0 0\nrest 0 0\n",
        "fall 0 2\nsquare 20 1 0\nsquare 20 0 1\nrest 0 0\nrest 0 0\nend\n",
        Err(CheckRefusal::Line {
            line: 11,
            fault: CheckFault::Form,
        }),
    ),
    Case(
        TWO_POLES,
        HEAD,
        "form 24 -8\nform -8 11\npositive 3 2\nsquare 2 6 -2\nsquare 25 0 1\nrest 0 0\nrest 0 0\n",
        "fall 1 2\nsquare 20 1 0\nsquare 20 1 1\nrest 0 0\nrest 0 0\nend\n",
        Err(CheckRefusal::Line {
            line: 13,
            fault: CheckFault::Form,
        }),
    ),
    Case(
        TWO_POLES,
        HEAD,
        "form 24 -8\nform -8 11\npositive 3 2\nsquare 2 6 -2\nsquare 25 0 1\nrest 0 0\nrest 0 0\n",
        "fall 1 2\nsquare 20 1 0\nsquare 21 0 1\nrest 0 0\nrest 0 -1\nend\n",
        Err(CheckRefusal::Line {
            line: 15,
            fault: CheckFault::Form,
        }),
    ),
    Case(
        ONE_POLE,
        HEAD,
        "form 24 -8\nform -8 11\npositive 3 2\nsquare 2 6 -2\nsquare 25 0 1\nrest 0 0\nrest 0 0\n",
        "fall 1 2\nsquare 20 1 0\nsquare 20 0 1\nrest 0 0\nrest 0 0\nend\n",
        Err(CheckRefusal::Line {
            line: 3,
            fault: CheckFault::Shape,
        }),
    ),
    Case(
        GAIN,
        "dsv-certificate 1\njob STABILITY DFI FLOOR WRAPAROUND\nkind falls 0\n",
        "positive 1 0\n",
        "fall 1 0\nend\n",
        Ok(()),
    ),
    Case(
        GAIN,
        "dsv-certificate 1\njob STABILITY DFI FLOOR WRAPAROUND\nkind falls 0\n",
        "positive 0 0\n",
        "fall 1 0\nend\n",
        Err(CheckRefusal::Line {
            line: 4,
            fault: CheckFault::Form,
        }),
    ),
    Case(
        GAIN,
        "dsv-certificate 1\njob STABILITY DFI FLOOR WRAPAROUND plant\nkind table 1\n",
        "coefficient 1\n",
        "end\n",
        Err(CheckRefusal::Line {
            line: 3,
            fault: CheckFault::Shape,
        }),
    ),
    Case(
        ONE_POLE,
        "dsv-certificate 1\njob MINIMUM_PHASE DFI FLOOR WRAPAROUND\nkind falls 0\n",
        "positive 1 0\n",
        "fall 1 0\nend\n",
        Err(CheckRefusal::NoZeros),
    ),
];

/// Tables of polynomials, and what is wrong with some: 2 z^2 - 2 z + 1 has the rows (2, -2, 1), (3,
/// -2) and (5), z - 1 has (1, -1) and (0), z + 1 has (1, 1) and (0), and 2 z - 1 and 2 z + 1 have
/// a second row of 3.
const TABLES: &[Case] = &[
    Case(
        TWO_POLES,
        UNSAID,
        "kind table 3\n",
        "coefficient 2\ncoefficient -2\ncoefficient 1\nend\n",
        Ok(()),
    ),
    Case(
        ONE_ZERO,
        "dsv-certificate 1\njob MINIMUM_PHASE DFI FLOOR WRAPAROUND\n",
        "kind table 2\n",
        "coefficient 2\ncoefficient 1\nend\n",
        Ok(()),
    ),
    Case(
        GAIN,
        UNSAID,
        "kind table 1\n",
        "coefficient 1\nend\n",
        Ok(()),
    ),
    Case(
        DELTA_POLE,
        "dsv-certificate 1\njob STABILITY DDFII NEAREST SATURATE\n",
        "kind table 2\n",
        "coefficient 2\ncoefficient -1\nend\n",
        Ok(()),
    ),
    // the words, with their common power of two
    Case(
        TWO_POLES,
        UNSAID,
        "kind table 3\n",
        "coefficient 4\ncoefficient -4\ncoefficient 2\nend\n",
        Err(CheckRefusal::Line {
            line: 4,
            fault: CheckFault::Table,
        }),
    ),
    Case(
        TWO_POLES,
        UNSAID,
        "kind table 3\n",
        "coefficient 2\ncoefficient -18446744073709551618\ncoefficient 1\nend\n",
        Err(CheckRefusal::Line {
            line: 5,
            fault: CheckFault::Table,
        }),
    ),
    Case(
        TWO_POLES,
        UNSAID,
        "kind table 3\n",
        "coefficient 2\ncoefficient -2\ncoefficient 0\nend\n",
        Err(CheckRefusal::Line {
            line: 6,
            fault: CheckFault::Table,
        }),
    ),
    // the denominator, when the numerator is tested
    Case(
        ONE_ZERO,
        "dsv-certificate 1\njob MINIMUM_PHASE DFI FLOOR WRAPAROUND\n",
        "kind table 2\n",
        "coefficient 2\ncoefficient -1\nend\n",
        Err(CheckRefusal::Line {
            line: 5,
            fault: CheckFault::Table,
        }),
    ),
    // a root on the circle
    Case(
        SUM,
        UNSAID,
        "kind table 2\n",
        "coefficient 1\ncoefficient -1\nend\n",
        Err(CheckRefusal::Line {
            line: 3,
            fault: CheckFault::Table,
        }),
    ),
    Case(
        ZERO_ON_CIRCLE,
        "dsv-certificate 1\njob MINIMUM_PHASE DFI FLOOR WRAPAROUND\n",
        "kind table 2\n",
        "coefficient 1\ncoefficient 1\nend\n",
        Err(CheckRefusal::Line {
            line: 3,
            fault: CheckFault::Table,
        }),
    ),
    // a wrong coefficient, before the root on the circle
    Case(
        SUM,
        UNSAID,
        "kind table 2\n",
        "coefficient 1\ncoefficient 0\nend\n",
        Err(CheckRefusal::Line {
            line: 5,
            fault: CheckFault::Table,
        }),
    ),
    // a coefficient too many, and one too few, before a wrong one
    Case(
        TWO_POLES,
        UNSAID,
        "kind table 4\n",
        "coefficient 1\ncoefficient -2\ncoefficient 1\ncoefficient 0\nend\n",
        Err(CheckRefusal::Line {
            line: 3,
            fault: CheckFault::Shape,
        }),
    ),
    Case(
        TWO_POLES,
        UNSAID,
        "kind table 2\n",
        "coefficient 1\ncoefficient -2\nend\n",
        Err(CheckRefusal::Line {
            line: 3,
            fault: CheckFault::Shape,
        }),
    ),
    // no polynomial, before another number of coefficients
    Case(
        ONE_POLE,
        "dsv-certificate 1\njob MINIMUM_PHASE DFI FLOOR WRAPAROUND\n",
        "kind table 1\n",
        "coefficient 0\nend\n",
        Err(CheckRefusal::NoZeros),
    ),
    Case(
        WIDE_POLE,
        "dsv-certificate 1\njob STABILITY DDFI FLOOR WRAPAROUND\n",
        "kind table 1\n",
        "coefficient 1\nend\n",
        Err(CheckRefusal::Wide { index: 0 }),
    ),
    // no words, before the wrong number of coefficients
    Case(
        SUM,
        "dsv-certificate 1\njob STABILITY DDFI FLOOR WRAPAROUND\n",
        "kind table 1\n",
        "coefficient 1\nend\n",
        Err(CheckRefusal::Quant(QuantRefusal::DeltaNotPositive { wanted: 0 })),
    ),
    // a line further down, after a format
    Case(
        TWO_POLES,
        SAID,
        "format 2 2\nkind table 3\n",
        "coefficient 2\ncoefficient 2\ncoefficient 1\nend\n",
        Err(CheckRefusal::Line {
            line: 6,
            fault: CheckFault::Table,
        }),
    ),
    Case(
        SUM,
        SAID,
        "format 2 2\nkind table 2\n",
        "coefficient 1\ncoefficient -1\nend\n",
        Err(CheckRefusal::Line {
            line: 4,
            fault: CheckFault::Table,
        }),
    ),
];

/// Logs that are too short, and what keeps them from being checked.
const LOGS: &[Case] = &[
    Case(
        SUM,
        "dsv-certificate 1\njob OVERFLOW DFI FLOOR WRAPAROUND 1\n",
        "kind hints\n",
        "end\n",
        Err(CheckRefusal::Line {
            line: 4,
            fault: CheckFault::Step,
        }),
    ),
    Case(
        SUM,
        "dsv-certificate 1\njob OVERFLOW DFI FLOOR WRAPAROUND 1\n",
        "kind hints\n1 d 1 0\n1 d 1 0\n",
        "end\n",
        Err(CheckRefusal::Line {
            line: 5,
            fault: CheckFault::Step,
        }),
    ),
    Case(
        SUM,
        "dsv-certificate 1\njob OVERFLOW DFI FLOOR WRAPAROUND unbounded\n",
        "kind invariant 1 0\nbase\n",
        "step\nsafe\nend\n",
        Err(CheckRefusal::Line {
            line: 5,
            fault: CheckFault::Step,
        }),
    ),
    Case(
        SUM,
        "dsv-certificate 1\njob OVERFLOW DFI FLOOR WRAPAROUND unbounded\n",
        "kind invariant 9 0\nbase\n",
        "step\nsafe\nend\n",
        Err(CheckRefusal::Line {
            line: 3,
            fault: CheckFault::Shape,
        }),
    ),
    Case(
        SUM,
        "dsv-certificate 1\njob OVERFLOW DDFI FLOOR WRAPAROUND 1\n",
        "kind hints\n",
        "end\n",
        Err(CheckRefusal::Quant(QuantRefusal::DeltaNotPositive { wanted: 0 })),
    ),
    Case(
        LARGE,
        "dsv-certificate 1\njob LIMIT_CYCLE DFI FLOOR WRAPAROUND 49\n",
        "kind hints\n",
        "end\n",
        Err(CheckRefusal::JobSize { size: 250880 }),
    ),
];

/// What formats are refused, and at which line.
const FORMATS: &[Case] = &[
    Case(
        GREATEST_NARROW_GAIN,
        UNSAID,
        "",
        "kind falls 0\npositive 1 0\nfall 1 0\nend\n",
        Ok(()),
    ),
    Case(
        LEAST_WIDE_GAIN,
        UNSAID,
        "",
        "kind falls 0\npositive 1 0\nfall 1 0\nend\n",
        Err(CheckRefusal::Line {
            line: 1,
            fault: CheckFault::Format,
        }),
    ),
    Case(
        LEAST_WIDE_GAIN,
        SAID,
        "format 16 17\n",
        "kind falls 0\npositive 1 0\nfall 1 0\nend\n",
        Ok(()),
    ),
    Case(
        WIDE_GAIN,
        SAID,
        "format 2 46\n",
        "kind falls 0\npositive 1 0\nfall 1 0\nend\n",
        Ok(()),
    ),
    Case(
        WIDE_GAIN,
        SAID,
        "format 2 45\n",
        "kind falls 0\npositive 1 0\nfall 1 0\nend\n",
        Err(CheckRefusal::Line {
            line: 3,
            fault: CheckFault::Format,
        }),
    ),
    Case(
        WIDE_GAIN,
        SAID,
        "format 46 2\n",
        "kind falls 0\npositive 1 0\nfall 1 0\nend\n",
        Err(CheckRefusal::Line {
            line: 3,
            fault: CheckFault::Format,
        }),
    ),
    Case(
        GAIN,
        SAID,
        "format 2 14\n",
        "kind falls 0\npositive 1 0\nfall 1 0\nend\n",
        Ok(()),
    ),
    Case(
        GAIN,
        SAID,
        "format 3 14\n",
        "kind falls 0\npositive 0 0\nfall 1 0\nend\n",
        Err(CheckRefusal::Line {
            line: 3,
            fault: CheckFault::Format,
        }),
    ),
    Case(
        SUM,
        "dsv-certificate 2\njob OVERFLOW DDFI FLOOR WRAPAROUND 1\n",
        "format 2 3\n",
        "kind hints\nend\n",
        Err(CheckRefusal::Line {
            line: 3,
            fault: CheckFault::Format,
        }),
    ),
    Case(
        SUM,
        "dsv-certificate 2\njob OVERFLOW DDFI FLOOR WRAPAROUND 1\n",
        "format 2 2\n",
        "kind hints\nend\n",
        Err(CheckRefusal::Quant(QuantRefusal::DeltaNotPositive { wanted: 0 })),
    ),
];

/// Certificates that say a format: what is refused stands a line further down.
const LINES: &[Case] = &[
    Case(
        TWO_POLES,
        "dsv-certificate 2\njob STABILITY DFI FLOOR WRAPAROUND\nformat 2 2\nkind falls 2\n",
        "form 24 -8\nform -8 11\npositive 3 2\nsquare 2 6 -2\nsquare 25 0 1\nrest 0 0\nrest 0 0\n",
        "fall 1 2\nsquare 20 1 0\nsquare 20 0 1\nrest 0 0\nrest 0 0\nend\n",
        Ok(()),
    ),
    Case(
        TWO_POLES,
        "dsv-certificate 2\njob STABILITY DFI FLOOR WRAPAROUND\nformat 2 2\nkind falls 2\n",
        "form 24 -8\nform -7 11\npositive 3 2\nsquare 2 6 -2\nsquare 25 0 1\nrest 0 0\nrest 0 0\n",
        "fall 1 2\nsquare 20 1 0\nsquare 20 0 1\nrest 0 0\nrest 0 0\nend\n",
        Err(CheckRefusal::Line {
            line: 5,
            fault: CheckFault::Form,
        }),
    ),
    Case(
        TWO_POLES,
        "dsv-certificate 2\njob STABILITY DFI FLOOR WRAPAROUND\nformat 2 2\nkind falls 2\n",
        "form 24 -8\nform -8 11\npositive 3 2\nsquare 2 6 -2\nsquare -25 0 1\nrest 0 0\nrest 0 0\n",
        "fall 1 2\nsquare 20 1 0\nsquare 20 0 1\nrest 0 0\nrest 0 0\nend\n",
        Err(CheckRefusal::Line {
            line: 9,
            fault: CheckFault::Form,
        }),
    ),
    Case(
        TWO_POLES,
        "dsv-certificate 2\njob STABILITY DFI FLOOR WRAPAROUND\nformat 2 2\nkind falls 2\n",
        "form 24 -8\nform -8 11\npositive 3 2\nsquare 2 6 -2\nsquare 25 0 1\nrest 0 0\nrest 0 0\n",
        "fall 1 2\nsquare 20 1 0\nsquare 21 0 1\nrest 0 0\nrest 0 -1\nend\n",
        Err(CheckRefusal::Line {
            line: 16,
            fault: CheckFault::Form,
        }),
    ),
    Case(
        ONE_POLE,
        "dsv-certificate 2\njob STABILITY DFI FLOOR WRAPAROUND\nformat 2 2\nkind falls 2\n",
        "form 24 -8\nform -8 11\npositive 3 2\nsquare 2 6 -2\nsquare 25 0 1\nrest 0 0\nrest 0 0\n",
        "fall 1 2\nsquare 20 1 0\nsquare 20 0 1\nrest 0 0\nrest 0 0\nend\n",
        Err(CheckRefusal::Line {
            line: 4,
            fault: CheckFault::Shape,
        }),
    ),
    Case(
        SUM,
        "dsv-certificate 2\njob OVERFLOW DFI FLOOR WRAPAROUND 1\nformat 2 2\n",
        "kind hints\n1 d 1 0\n1 d 1 0\n",
        "end\n",
        Err(CheckRefusal::Line {
            line: 6,
            fault: CheckFault::Step,
        }),
    ),
    Case(
        SUM,
        "dsv-certificate 2\njob OVERFLOW DFI FLOOR WRAPAROUND unbounded\nformat 2 2\n",
        "kind invariant 1 0\nbase\n",
        "step\nsafe\nend\n",
        Err(CheckRefusal::Line {
            line: 6,
            fault: CheckFault::Step,
        }),
    ),
    Case(
        SUM,
        "dsv-certificate 2\njob OVERFLOW DFI FLOOR WRAPAROUND unbounded\nformat 2 2\n",
        "kind invariant 9 0\nbase\n",
        "step\nsafe\nend\n",
        Err(CheckRefusal::Line {
            line: 4,
            fault: CheckFault::Shape,
        }),
    ),
    Case(
        SUM,
        "dsv-certificate 2\njob OVERFLOW DFI FLOOR WRAPAROUND unbounded\nformat 2 2\n",
        "kind gain 0\n",
        "end\n",
        Err(CheckRefusal::Line {
            line: 4,
            fault: CheckFault::Gain,
        }),
    ),
];

fn controller_of(alloc: Global, text: &str) -> Option<Controller> {
    dsv_reader::read(alloc, text.as_bytes()).ok()
}

/// The certificate of a case.
fn certificate_of(alloc: Global, case: &Case) -> Option<Certificate> {
    let mut text = String::new(alloc);
    text.push_str(case.1).ok()?;
    text.push_str(case.2).ok()?;
    text.push_str(case.3).ok()?;
    read(alloc, text.as_bytes()).ok()
}

/// What is found of a case, apart from what it shows of the output's error.
fn found_of(alloc: Global, case: &Case) -> Option<Result<(), CheckRefusal>> {
    let controller = controller_of(alloc, case.0)?;
    let certificate = certificate_of(alloc, case)?;
    match check(alloc, &controller, None, &certificate) {
        Ok(_) => Some(Ok(())),
        Err(why) => Some(Err(why)),
    }
}

/// Whether this is found of all cases.
fn are_found(alloc: Global, cases: &[Case]) -> bool {
    cases
        .iter()
        .all(|case| found_of(alloc, case) == Some(case.4))
}

#[test]
fn a_form_is_refused_at_the_line_of_its_fault(rt: HostRuntime) {
    assert!(rt; are_found(rt.alloc(), FORMS));
}

#[test]
fn a_table_is_refused_at_the_line_of_its_fault(rt: HostRuntime) {
    assert!(rt; are_found(rt.alloc(), TABLES));
}

#[test]
fn another_format_is_refused_before_all_else(rt: HostRuntime) {
    assert!(rt; are_found(rt.alloc(), FORMATS));
}

#[test]
fn lines_after_a_format_are_counted(rt: HostRuntime) {
    assert!(rt; are_found(rt.alloc(), LINES));
}

#[test]
fn a_log_is_refused_at_its_first_step_that_does_not_follow(rt: HostRuntime) {
    assert!(rt; are_found(rt.alloc(), LOGS));
}
