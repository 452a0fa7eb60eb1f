// Writes why a command line is none, with no memory.
ghost use Rattle.std.specs.Prelude.{◌≡◌, ◌++◌};
ghost use Rattle.dsv_base.specs.Taking.{Writes};
ghost use Rattle.dsv_command.specs.Views.{key_view, part_view, reason_view};
ghost use Rattle.dsv_report.specs.AllowedViews.{allowed_view};
ghost use Rattle.dsv_report.specs.Reasons.{allowed_in, allowed_text, allowed_values};
ghost use Rattle.dsv_report.specs.Reasons.{apart_text, choice_text, value_text};
ghost use Rattle.dsv_report.specs.Reasons.{bad_value_text, key_text, lacking_text, option_text};
ghost use Rattle.dsv_report.specs.Reasons.{part_text, reason_text};
ghost use Rattle.dsv_report.specs.Reasons.{unknown_text, values_of, wanting_text};

use dsv_base::{Failed, Sink, put_all};
use dsv_command::{Key, Part, Reason};
use dsv_word_lines::put_shown;

/// What the values of an option may be.
#[derive(Clone, Copy)]
struct OptionValues {
    option: &'static str,
    values: &'static str,
}

/// The options whose values are other than names of files.
const ALLOWED: [OptionValues; 11] = [
    OptionValues {
        option: "property",
        values: "OVERFLOW, LIMIT_CYCLE, STABILITY, MINIMUM_PHASE or TIMING",
    },
    OptionValues {
        option: "x-size",
        values: "from 1 to 64",
    },
    OptionValues {
        option: "conflicts",
        values: "from 1 to 200000",
    },
    OptionValues {
        option: "simulate",
        values: "1 to 64 whole numbers joined by commas; after = if the first is negative",
    },
    OptionValues {
        option: "sections",
        values: "the names of 1 to 7 files, joined by commas",
    },
    OptionValues {
        option: "realization",
        values: "DFI, DFII, TDFII, DDFI, DDFII or TDDFII",
    },
    OptionValues {
        option: "rounding",
        values: "FLOOR, CEIL or NEAREST",
    },
    OptionValues {
        option: "overflow-mode",
        values: "WRAPAROUND or SATURATE",
    },
    OptionValues {
        option: "generate",
        values: "from 0 to 4294967295",
    },
    OptionValues {
        option: "count",
        values: "from 1 to 1000",
    },
    OptionValues {
        option: "c-name",
        values: "a letter and up to 30 letters, digits or _; no word of C or <stdint.h>",
    },
];

/// The table of what values may be.
fn allowed_values() -> &'static [OptionValues]
    ensures { allowed_view result.now ≡ allowed_values }
{
    &ALLOWED
}

/// What the values of this option may be, by a table.
fn find_allowed(table: &[OptionValues], name: &str) -> &'static str
    ensures { result.now ≡ allowed_in (allowed_view table.now) name.now }
{
    for allowed in table {
        if name == allowed.option {
            return allowed.values;
        }
    }
    "the name of a file"
}

/// What the values of this option may be.
fn values_of(name: &str) -> &'static str
    ensures { result.now ≡ values_of name.now }
{
    find_allowed(allowed_values(), name)
}

/// Writes an option's name.
fn put_option<K: Sink>(sink: &mut K, name: &[u8]) -> Result<(), Failed>
    ensures { Writes (K.seen sink.old) (K.seen sink.new) result (option_text name.now) }
{
    put_all(sink, b"--")?;
    put_all(sink, name)
}

/// Writes an option's name, and a text after it.
fn put_option_and<K: Sink>(sink: &mut K, name: &[u8], rest: &[u8]) -> Result<(), Failed>
    ensures { Writes (K.seen sink.old) (K.seen sink.new) result
        (option_text name.now ++ rest.now) }
{
    put_option(sink, name)?;
    put_all(sink, rest)
}

/// Writes two texts.
fn put_two<K: Sink>(sink: &mut K, text: &[u8], rest: &[u8]) -> Result<(), Failed>
    ensures { Writes (K.seen sink.old) (K.seen sink.new) result (text.now ++ rest.now) }
{
    put_all(sink, text)?;
    put_all(sink, rest)
}

/// Writes what something is given for, and a text after it.
fn put_key_and<K: Sink>(sink: &mut K, key: Key<'_>, rest: &[u8]) -> Result<(), Failed>
    ensures { Writes (K.seen sink.old) (K.seen sink.new) result
        (key_text (key_view key.entry) ++ rest.now) }
{
    match key {
        Key::File => put_two(sink, b"FILE", rest),
        Key::Option(name) => put_option_and(sink, name.as_bytes(), rest),
    }
}

/// Writes an option, its value and a text after them.
fn put_choice_and<K: Sink>(
    sink: &mut K,
    name: &[u8],
    value: &[u8],
    rest: &[u8],
) -> Result<(), Failed>
    ensures { Writes (K.seen sink.old) (K.seen sink.new) result
        (choice_text name.now value.now rest.now) }
{
    put_option_and(sink, name, b" ")?;
    put_two(sink, value, rest)
}

/// Writes a part, and a text after it.
fn put_part_and<K: Sink>(sink: &mut K, part: Part<'_>, rest: &[u8]) -> Result<(), Failed>
    ensures { Writes (K.seen sink.old) (K.seen sink.new) result
        (part_text (part_view part.entry) rest.now) }
{
    match part {
        Part::File(_) => put_two(sink, b"FILE", rest),
        Part::Flag(name) => put_option_and(sink, name.as_bytes(), rest),
        Part::Choice(name, value) => {
            put_choice_and(sink, name.as_bytes(), value.as_bytes(), rest)
        }
    }
}

/// Writes that two parts don't go together.
fn put_apart<K: Sink>(sink: &mut K, part: Part<'_>, other: Part<'_>) -> Result<(), Failed>
    ensures { Writes (K.seen sink.old) (K.seen sink.new) result
        (apart_text (part_view part.entry) (part_view other.entry)) }
{
    put_part_and(sink, part, b" and ")?;
    put_part_and(sink, other, b" don't go together\n")
}

/// Writes a text, then what values may be, up to the end of the line.
fn put_allowed<K: Sink>(sink: &mut K, before: &[u8], values: &[u8]) -> Result<(), Failed>
    ensures { Writes (K.seen sink.old) (K.seen sink.new) result
        (allowed_text before.now values.now) }
{
    put_all(sink, before)?;
    put_two(sink, values, b"\n")
}

/// Writes that an option has no value, and what it may be.
fn put_lacking<K: Sink>(sink: &mut K, name: &[u8], values: &[u8]) -> Result<(), Failed>
    ensures { Writes (K.seen sink.old) (K.seen sink.new) result
        (lacking_text name.now values.now) }
{
    put_option(sink, name)?;
    put_allowed(sink, b" wants a value: ", values)
}

/// Writes a value, and what the values of its option may be.
fn put_value<K: Sink>(sink: &mut K, value: &[u8], values: &[u8]) -> Result<(), Failed>
    ensures { Writes (K.seen sink.old) (K.seen sink.new) result
        (value_text value.now values.now) }
{
    put_shown(sink, value)?;
    put_allowed(sink, b": ", values)
}

/// Writes that a value isn't one of an option's, and what it may be.
fn put_bad_value<K: Sink>(
    sink: &mut K,
    name: &[u8],
    value: &[u8],
    values: &[u8],
) -> Result<(), Failed>
    ensures { Writes (K.seen sink.old) (K.seen sink.new) result
        (bad_value_text name.now value.now values.now) }
{
    put_option_and(sink, name, b" ")?;
    put_value(sink, value, values)
}

/// Writes that an option wants another.
fn put_wanting<K: Sink>(sink: &mut K, name: &[u8], other: &[u8]) -> Result<(), Failed>
    ensures { Writes (K.seen sink.old) (K.seen sink.new) result
        (wanting_text name.now other.now) }
{
    put_option_and(sink, name, b" wants ")?;
    put_option_and(sink, other, b"\n")
}

/// Writes that there is no such option.
fn put_unknown<K: Sink>(sink: &mut K, argument: &[u8]) -> Result<(), Failed>
    ensures { Writes (K.seen sink.old) (K.seen sink.new) result (unknown_text argument.now) }
{
    put_shown(sink, argument)?;
    put_all(sink, b": there is no such option\n")
}

/// Writes in one line why a command line is none. It takes no memory.
pub fn put_reason<K: Sink>(sink: &mut K, reason: Reason<'_>) -> Result<(), Failed>
    ensures { Writes (K.seen sink.old) (K.seen sink.new) result
        (reason_text (reason_view reason.entry)) }
{
    match reason {
        Reason::Unknown(argument) => put_unknown(sink, argument.as_bytes()),
        Reason::Twice(key) => put_key_and(sink, key, b" is given twice\n"),
        Reason::LacksValue(name) => {
            put_lacking(sink, name.as_bytes(), values_of(name).as_bytes())
        }
        Reason::TakesNone(name) => { put_option_and(sink, name.as_bytes(), b" takes no value\n") }
        Reason::IsBlank(key) => put_key_and(sink, key, b" is empty\n"),
        Reason::BadValue(name, value) => {
            let values = values_of(name).as_bytes();
            put_bad_value(sink, name.as_bytes(), value.as_bytes(), values)
        }
        Reason::Apart(part, other) => put_apart(sink, part, other),
        Reason::Wants(name, other) => put_wanting(sink, name.as_bytes(), other.as_bytes()),
        Reason::WantsForm => put_all(
            sink,
            b"STABILITY of a state-space controller wants --schur-cohn, --lyapunov or --form\n",
        ),
        Reason::NoTask => put_all(sink, b"--property or --simulate is missing\n"),
        Reason::NoFile => put_all(sink, b"FILE is missing\n"),
    }
}
