// The names of registers in C, and what the code is of.
#![tactic(auto, using(dsv_algebra::proofs::Casts::casts, crate::proofs::Members::joined_members))]

ghost use Rattle.std.specs.Prelude.{◌≡◌, ◌≤◌, ◌+◌, ◌++◌, ◌∷◌, [], length, map, IfOk};
ghost use Rattle.dsv_meaning.specs.Equations.{order};
ghost use Rattle.dsv_code.specs.Members.{numbered, members_as, sections_members};
ghost use Rattle.dsv_code.specs.Members.{controller_members, cascade_members, state_members};
ghost use Rattle.dsv_code.specs.Members.{controller_origin, cascade_origin, state_origin};

use dsv_base::{Items, NoMemory};
use dsv_cascade::Cascade;
use dsv_ctext::{MemberName, Origin};
use dsv_names::Realisation;
use dsv_quantiser::Quantised;
use dsv_state_space::StateSystem;
use std::alloc::Global;

/// What stands beside a program: the names of its registers, and what it is of.
#[derive(Drop)]
pub struct CodeNotes {
    pub members: Items<MemberName>,
    pub origin: Origin,
}

/// Adds so many names of this letter, numbered from 1.
fn push_numbered(
    list: &mut Items<MemberName>,
    section: Option<u32>,
    letter: u8,
    count: u32,
) -> Result<(), NoMemory>
    ensures { IfOk result (λ u. list.new ≡ list.old ++ numbered section letter count) }
{
    for k in 0..count {
        list.push(MemberName {
            section,
            letter,
            number: k + 1,
        })?;
    }
    Ok(())
}

/// Adds the names of two letters.
fn push_pair(
    list: &mut Items<MemberName>,
    section: Option<u32>,
    first: u8,
    second: u8,
    count: u32,
) -> Result<(), NoMemory>
    ensures { IfOk result (λ u. list.new
        ≡ list.old ++ (numbered section first count ++ numbered section second count)) }
{
    push_numbered(list, section, first, count)?;
    push_numbered(list, section, second, count)
}

/// Adds the names of the registers of a controller of this order.
fn push_members(
    list: &mut Items<MemberName>,
    section: Option<u32>,
    realisation: Realisation,
    order: u32,
) -> Result<(), NoMemory>
    ensures { IfOk result (λ u. list.new ≡ list.old ++ members_as section realisation order) }
{
    match realisation {
        Realisation::Dfi => push_pair(list, section, b'x', b'y', order),
        Realisation::Ddfi => push_pair(list, section, b'u', b'v', order),
        Realisation::Dfii | Realisation::Ddfii => push_numbered(list, section, b'w', order),
        Realisation::Tdfii | Realisation::Tddfii => push_numbered(list, section, b's', order),
    }
}

/// The order of a controller.
fn order_of(quantised: &Quantised) -> u32
    ensures { result ≡ order quantised.now }
{
    quantised.order() as u32
}

/// Adds the names of the registers of a section.
fn push_section(
    list: &mut Items<MemberName>,
    number: u32,
    section: &Quantised,
) -> Result<(), NoMemory>
    ensures { IfOk result (λ u. list.new ≡ list.old
        ++ members_as (Some number) section.now.realisation (order section.now)) }
{
    push_members(list, Some(number), section.realisation(), order_of(section))
}

/// Adds the names of the registers of sections, the first of which has this number.
fn push_sections(
    list: &mut Items<MemberName>,
    number: u32,
    sections: &[Quantised],
) -> Result<(), NoMemory>
    requires { number + length sections.now ≤ 100 }
    ensures { IfOk result (λ u. list.new ≡ list.old ++ sections_members number sections.now) }
{
    match sections {
        [] => Ok(()),
        [first, rest @ ..] => {
            push_section(list, number, first)?;
            push_sections(list, number + 1, rest)
        }
    }
}

/// What stands beside a controller's program.
pub fn controller_notes(alloc: Global, quantised: &Quantised) -> Result<CodeNotes, NoMemory>
    ensures members { IfOk result (λ n. n.members ≡ controller_members quantised.now) }
    ensures origin { IfOk result (λ n. n.origin ≡ controller_origin quantised.now) }
{
    let realisation = quantised.realisation();
    let wide = quantised.is_wide();
    let mut members = Items::new(alloc);
    push_members(&mut members, None, realisation, order_of(quantised))?;
    Ok(CodeNotes {
        members,
        origin: Origin::Controller { realisation, wide },
    })
}

/// What stands beside a cascade's program.
pub fn cascade_notes(alloc: Global, cascade: &Cascade) -> Result<CodeNotes, NoMemory>
    ensures members { IfOk result (λ n. n.members ≡ cascade_members cascade.now) }
    ensures origin { IfOk result (λ n. n.origin ≡ cascade_origin cascade.now) }
{
    let first = cascade.first_section();
    let later = cascade.later_sections();
    let mut members = Items::new(alloc);
    push_section(&mut members, 0, first)?;
    push_sections(&mut members, 1, later)?;
    Ok(CodeNotes {
        members,
        origin: Origin::Cascade {
            sections: later.len() as u32 + 1,
            realisation: first.realisation(),
            wide: first.is_wide(),
        },
    })
}

/// What stands beside a state-space controller's program.
pub fn state_notes(alloc: Global, system: &StateSystem) -> Result<CodeNotes, NoMemory>
    ensures members { IfOk result (λ n. n.members ≡ state_members system.now) }
    ensures origin { IfOk result (λ n. n.origin ≡ state_origin system.now) }
{
    let states = system.states();
    let mut members = Items::new(alloc);
    push_numbered(&mut members, None, b'x', states)?;
    Ok(CodeNotes {
        members,
        origin: Origin::States { states },
    })
}
