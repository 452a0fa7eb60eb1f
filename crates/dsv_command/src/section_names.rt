// The names of the files of a cascade, after the first.
ghost use Rattle.std.specs.Prelude.{◌≡◌, ◌⊎◌, ◌<◌, ◌≤◌, true, false, [], ◌∷◌, ◌++◌, length, map};
ghost use Rattle.std.specs.Prelude.{option_map, IfSome, IfNone};
ghost use Rattle.dsv_command.specs.SectionNames.{is_nameless, most_later, names_of};

use arrayvec::ArrayVec;

/// The most sections after the first.
pub const MOST_LATER: usize = 7;

/// The names of the files of the sections after the first: one to seven, none of them empty.
pub type SectionNames<'a> = ArrayVec<&'a str, MOST_LATER>;

/// Adds a name that isn't empty, where there is room for it.
fn push_name<'a>(names: &mut SectionNames<'a>, name: &'a str) -> Option<()>
    ensures pushed { IfSome result (λ u. map (λ n. n.now) names.new.items
        ≡ map (λ n. n.now) names.old.items ++ name.now ∷ []) }
    ensures filled { IfSome result (λ u. is_nameless name.now ≡ false) }
    ensures room { IfSome result (λ u. length names.old.items < most_later) }
    ensures refused { IfNone result
        ((is_nameless name.now ≡ true) ⊎ (most_later ≤ length names.old.items)) }
{
    if name.is_empty() {
        return None;
    }
    names.try_push(name).ok()
}

/// The names of 1 to 7 files joined by commas; `None` for any other text.
pub(crate) fn find_names<'a>(text: &'a str) -> Option<SectionNames<'a>>
    ensures { option_map (λ names. map (λ name. name.now) names.items) result
        ≡ names_of text.now }
{
    let mut names = SectionNames::new();
    let mut rest = text;
    while let Some((first, others)) = rest.split_once(',') {
        push_name(&mut names, first)?;
        rest = others;
    }
    push_name(&mut names, rest)?;
    Some(names)
}
