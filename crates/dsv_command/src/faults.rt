// The first fault of arguments that aren't allowed.
ghost use Rattle.std.specs.Prelude.{◌≡◌, [], length, map, option_map, take};
ghost use Rattle.std.specs.List.{list_any};
ghost use Rattle.dsv_command.specs.Parts.{is_same_key, is_empty_part, key_of};
ghost use Rattle.dsv_command.specs.Reasons.{again, again_in, blank_in, fault_of, first_in, is_key};
ghost use Rattle.dsv_command.specs.Reasons.{key_of_mark, strange_in, value_fault};
ghost use Rattle.dsv_command.specs.Views.{key_view, mark_view, part_view, reason_view};

use crate::marks::Mark;
use crate::parts::{Key, Part};
use crate::reasons::Reason;

/// What a part is given for.
fn key_of(part: Part<'_>) -> Key<'_>
    ensures { key_view result ≡ key_of (part_view part.entry) }
{
    match part {
        Part::File(_) => Key::File,
        Part::Flag(name) | Part::Choice(name, _) => Key::Option(name),
    }
}

/// Whether FILE or the value of an option is empty.
fn is_empty_part(part: Part<'_>) -> bool
    ensures { result ≡ is_empty_part (part_view part.entry) }
{
    match part {
        Part::File(text) | Part::Choice(_, text) => text.is_empty(),
        Part::Flag(_) => false,
    }
}

/// Whether two parts are given for the same.
fn is_same_key(key: Key<'_>, other: Key<'_>) -> bool
    ensures { result ≡ is_same_key (key_view key.entry) (key_view other.entry) }
{
    match (key, other) {
        (Key::File, Key::File) => true,
        (Key::Option(name), Key::Option(other)) => name == other,
        (Key::File, Key::Option(_)) | (Key::Option(_), Key::File) => false,
    }
}

/// What a mark is given for.
fn key_of_mark<'a>(mark: &Mark<'a>) -> Option<Key<'a>>
    ensures { option_map key_view result ≡ key_of_mark (mark_view mark.now) }
{
    match mark {
        Mark::Given(part) => Some(key_of(*part)),
        Mark::Strange(_) => None,
        Mark::Bare(name) | Mark::Laden(name) => Some(Key::Option(name)),
    }
}

/// Whether one of the marks is given for this.
fn has_mark(marks: &[Mark<'_>], key: Key<'_>) -> bool
    ensures { result ≡ list_any (λ m. is_key (key_view key.entry) (key_of_mark m))
        (map mark_view marks.now) }
{
    for mark in marks {
        if let Some(other) = key_of_mark(mark)
            && is_same_key(other, key)
        {
            return true;
        }
    }
    false
}

/// The fault of a mark whose key stands before it.
fn again<'a>(mark: &Mark<'a>, before: &[Mark<'a>]) -> Option<Reason<'a>>
    ensures { option_map reason_view result
        ≡ again (key_of_mark (mark_view mark.now)) (map mark_view before.now) }
{
    match key_of_mark(mark) {
        Some(key) if has_mark(before, key) => Some(Reason::Twice(key)),
        _ => None,
    }
}

/// The fault of an option that there isn't.
fn strange_in<'a>(mark: &Mark<'a>) -> Option<Reason<'a>>
    ensures { option_map reason_view result ≡ strange_in (mark_view mark.now) }
{
    match mark {
        Mark::Strange(argument) => Some(Reason::Unknown(argument)),
        _ => None,
    }
}

/// The fault of an option whose value lacks, is one too many or is empty, or of FILE if it is
/// empty.
fn value_fault<'a>(mark: &Mark<'a>) -> Option<Reason<'a>>
    ensures { option_map reason_view result ≡ value_fault (mark_view mark.now) }
{
    match mark {
        Mark::Given(part) if is_empty_part(*part) => Some(Reason::IsBlank(key_of(*part))),
        Mark::Bare(name) => Some(Reason::LacksValue(name)),
        Mark::Laden(name) => Some(Reason::TakesNone(name)),
        Mark::Given(_) | Mark::Strange(_) => None,
    }
}

/// The first option that there isn't.
fn first_strange<'a>(marks: &[Mark<'a>]) -> Option<Reason<'a>>
    ensures { option_map reason_view result ≡ first_in strange_in (map mark_view marks.now) }
{
    for mark in marks {
        if let Some(reason) = strange_in(mark) {
            return Some(reason);
        }
    }
    None
}

/// The first fault of a value.
fn first_value_fault<'a>(marks: &[Mark<'a>]) -> Option<Reason<'a>>
    ensures { option_map reason_view result ≡ first_in value_fault (map mark_view marks.now) }
{
    for mark in marks {
        if let Some(reason) = value_fault(mark) {
            return Some(reason);
        }
    }
    None
}

/// The first mark of what was given before.
fn first_again<'a>(marks: &[Mark<'a>]) -> Option<Reason<'a>>
    ensures { option_map reason_view result ≡ again_in [] (map mark_view marks.now) }
{
    for i in 0..marks.len() {
        if let Some(reason) = again(&marks[i], &marks[..i]) {
            return Some(reason);
        }
    }
    None
}

/// The first fault of the marks.
pub(crate) fn fault_of<'a>(marks: &[Mark<'a>]) -> Option<Reason<'a>>
    ensures { option_map reason_view result ≡ fault_of (map mark_view marks.now) }
{
    if let Some(reason) = first_strange(marks) {
        return Some(reason);
    }
    if let Some(reason) = first_again(marks) {
        return Some(reason);
    }
    first_value_fault(marks)
}
