// Names in the text.
#![tactic(auto, using(dsv_algebra::proofs::Casts::casts))]

ghost use Rattle.std.specs.Prelude.{◌≡◌, ◌<◌, ◌∷◌, ◌++◌, codes, length, pos};
ghost use Rattle.std.specs.Fmt.{signed_decimal};
ghost use Rattle.dsv_base.specs.Taking.{Writes};
ghost use Rattle.dsv_ctext.specs.Texts.{section_text, member_text, member_name};
ghost use Rattle.dsv_ctext.specs.Texts.{local_name, type_name, cast_text, left_parenthesis};
ghost use Rattle.dsv_ctext.specs.Texts.{right_parenthesis};
ghost use Rattle.dsv_ctext.specs.Texts.{rounded_head, fitted_head, product_head, name_limit};

use crate::fragments::{Fragment, put_fragments};
use crate::remarks::Remarks;
use dsv_base::{Failed, Sink, put_all};
use dsv_c::CType;

/// The name of a member of the struct: a letter and a number, in a cascade after its section's
/// number, as `x_1` and `s2_x_1`.
#[derive(Clone, Copy, Debug, PartialEq, Eq)]
pub struct MemberName {
    /// the section's number in a cascade
    pub section: Option<u32>,
    pub letter: u8,
    pub number: u32,
}

/// What a text says beside the program.
#[derive(Clone, Copy)]
pub struct Labels<'a> {
    /// What the names of its type and its functions begin with.
    pub prefix: &'a [u8],
    /// The names of the members, register by register.
    pub members: &'a [MemberName],
    /// What its comments say.
    pub remarks: Remarks,
}

/// Writes the beginning of a member's name in a cascade.
fn put_section<K: Sink>(sink: &mut K, section: Option<u32>) -> Result<(), Failed>
    ensures { Writes (K.seen sink.old) (K.seen sink.new) result (section_text section) }
{
    match section {
        Some(number) => put_fragments(
            sink,
            &[
                Fragment::Bytes(b"s"),
                Fragment::Number(number.into()),
                Fragment::Bytes(b"_"),
            ],
        ),
        None => Ok(()),
    }
}

/// Writes the letter and the number of a member.
fn put_letter<K: Sink>(sink: &mut K, member: &MemberName) -> Result<(), Failed>
    ensures { Writes (K.seen sink.old) (K.seen sink.new) result
        (member.now.letter ∷ codes "_" ++ signed_decimal (pos member.now.number)) }
{
    put_fragments(
        sink,
        &[
            Fragment::Byte(member.letter),
            Fragment::Bytes(b"_"),
            Fragment::Number(member.number.into()),
        ],
    )
}

/// Writes a name.
fn put_name<K: Sink>(sink: &mut K, member: &MemberName) -> Result<(), Failed>
    ensures { Writes (K.seen sink.old) (K.seen sink.new) result (member_text member.now) }
{
    put_section(sink, member.section)?;
    put_letter(sink, member)
}

/// Writes the name of a member.
pub(crate) fn put_member<K: Sink>(sink: &mut K, names: &Labels, k: u32) -> Result<(), Failed>
    requires there { k < length names.now.members.now }
    ensures { Writes (K.seen sink.old) (K.seen sink.new) result (member_name names.now k) }
{
    put_name(sink, &names.members[k as usize])
}

/// Writes the name of a local.
pub(crate) fn put_local<K: Sink>(sink: &mut K, names: &Labels, k: u32) -> Result<(), Failed>
    requires { k < name_limit }
    ensures { Writes (K.seen sink.old) (K.seen sink.new) result (local_name names.now k) }
{
    if k == 0 {
        return put_all(sink, b"x");
    }
    let many = names.members.len();
    if ((k - 1) as usize) < many {
        return put_member(sink, names, k - 1);
    }
    put_fragments(
        sink,
        &[
            Fragment::Bytes(b"value_"),
            Fragment::Number((k - 1 - many as u32).into()),
        ],
    )
}

/// The name of a type.
pub(crate) fn type_name(c_type: CType) -> &'static [u8]
    ensures { result.now ≡ type_name c_type }
{
    match c_type {
        CType::Int => b"int",
        CType::Int32 => b"int32_t",
        CType::Int64 => b"int64_t",
    }
}

/// The cast that makes an operand of one type another at least.
pub(crate) fn cast_text(need: CType, have: CType) -> &'static [u8]
    ensures { result.now ≡ cast_text need have }
{
    match (need, have) {
        (CType::Int64, CType::Int) => b"(int64_t)",
        (CType::Int64, CType::Int32) => b"(int64_t)",
        _ => b"",
    }
}

/// The parenthesis before an expression that isn't the whole one.
pub(crate) fn left_parenthesis(inner: bool) -> &'static [u8]
    ensures { result.now ≡ left_parenthesis inner }
{
    if inner { b"(" } else { b"" }
}

/// The parenthesis after it.
pub(crate) fn right_parenthesis(inner: bool) -> &'static [u8]
    ensures { result.now ≡ right_parenthesis inner }
{
    if inner { b")" } else { b"" }
}

/// The call of the helper function that rounds, up to its argument.
pub(crate) fn rounded_head(c_type: CType) -> &'static [u8]
    ensures { result.now ≡ rounded_head c_type }
{
    match c_type {
        CType::Int => b"rounded16(",
        CType::Int32 => b"rounded32(",
        CType::Int64 => b"rounded64(",
    }
}

/// The call of the helper function that gives a word, up to its argument.
pub(crate) fn fitted_head(c_type: CType) -> &'static [u8]
    ensures { result.now ≡ fitted_head c_type }
{
    match c_type {
        CType::Int => b"word16(",
        CType::Int32 => b"word32(",
        CType::Int64 => b"word64(",
    }
}

/// Writes a product up to its second factor.
pub(crate) fn put_product_head<K: Sink>(
    sink: &mut K,
    inner: bool,
    coeff: &i128,
    need: CType,
    have: CType,
) -> Result<(), Failed>
    ensures { Writes (K.seen sink.old) (K.seen sink.new) result
        (product_head inner coeff.now need have) }
{
    put_fragments(
        sink,
        &[
            Fragment::Bytes(left_parenthesis(inner)),
            Fragment::Number(*coeff),
            Fragment::Bytes(b" * "),
            Fragment::Bytes(cast_text(need, have)),
        ],
    )
}
