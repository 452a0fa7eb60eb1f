// The whole text of a program.
#![tactic(auto, using(dsv_algebra::proofs::Casts::casts, dsv_base::proofs::TakingLemmas::cut_more))]

ghost use Rattle.std.specs.Prelude.{◌≡◌, ◌<◌, ◌≤◌, ◌++◌, [], ◌∷◌, length};
ghost use Rattle.dsv_base.specs.Taking.{Writes};
ghost use Rattle.dsv_c.specs.Meaning.{is_same_type};
ghost use Rattle.dsv_ctext.specs.Plans.{IsPlan};
ghost use Rattle.dsv_c.specs.Programs.{has_helper, program_of, named_function};
ghost use Rattle.dsv_ctext.specs.ProgramTexts.{struct_text, struct_tail, member_line, none_line};
ghost use Rattle.dsv_ctext.specs.ProgramTexts.{lines_from};
ghost use Rattle.dsv_ctext.specs.Comments.{step_remark};
ghost use Rattle.dsv_ctext.specs.HelperTexts.{function_text};
ghost use Rattle.dsv_ctext.specs.UnitTexts.{helper_named, called_in, called_at, part_text};
ghost use Rattle.dsv_ctext.specs.UnitTexts.{type_parts};
ghost use Rattle.dsv_ctext.specs.UnitTexts.{functions_text, unit_text, labels_of};

use crate::fragments::{Fragment, put_fragments};
use crate::functions::{put_fitted, put_rounded};
use crate::lines::{put_init, put_step};
use crate::names::{Labels, put_member, type_name};
use crate::nodes::{Plan, helper_type, node_at};
use crate::remarks::{Remarks, put_step_remark, put_title};
use crate::types::{locals_of, types_of, word_type};
use dsv_base::{Failed, Sink, put_all};
use dsv_c::CType;
use dsv_netlist::{Netlist, Node};

/// Whether two types are the same.
fn is_same_type(left: CType, right: CType) -> bool
    ensures { result ≡ is_same_type left right }
{
    match (left, right) {
        (CType::Int, CType::Int) => true,
        (CType::Int32, CType::Int32) => true,
        (CType::Int64, CType::Int64) => true,
        _ => false,
    }
}

/// Whether a node calls the helper function that rounds, or fits, in this type.
fn calls_at(plan: &Plan, i: u32, fits: bool, wanted: CType) -> bool
    requires plan { IsPlan plan.now.net.now plan.now.types.now plan.now.locals.now }
    requires there { i < length plan.now.net.now.nodes }
    ensures { result ≡ has_helper (helper_named fits wanted) (called_at plan.now.net.now i) }
{
    match node_at(plan.net, i) {
        Node::Fit(of) => fits && is_same_type(helper_type(plan, of), wanted),
        Node::Round(of) => !fits && is_same_type(helper_type(plan, of), wanted),
        _ => false,
    }
}

/// Whether some node calls that helper function.
fn is_called(plan: &Plan, fits: bool, wanted: CType) -> bool
    requires plan { IsPlan plan.now.net.now plan.now.types.now plan.now.locals.now }
    ensures { result ≡ has_helper (helper_named fits wanted) (called_in plan.now.net.now) }
{
    for i in 0..plan.net.len() {
        if calls_at(plan, i, fits, wanted) {
            return true;
        }
    }
    false
}

/// Writes a helper function, if a node calls it.
fn put_part<K: Sink>(sink: &mut K, plan: &Plan, fits: bool, c_type: CType) -> Result<(), Failed>
    requires plan { IsPlan plan.now.net.now plan.now.types.now plan.now.locals.now }
    ensures { Writes (K.seen sink.old) (K.seen sink.new) result
        (part_text plan.now.net.now (helper_named fits c_type)) }
{
    if !is_called(plan, fits, c_type) {
        return Ok(());
    }
    let format = plan.net.format();
    if fits {
        put_fitted(sink, &format, c_type)
    } else {
        put_rounded(sink, &format, c_type)
    }
}

/// Writes the helper functions for values of a type.
fn put_type_parts<K: Sink>(sink: &mut K, plan: &Plan, c_type: CType) -> Result<(), Failed>
    requires plan { IsPlan plan.now.net.now plan.now.types.now plan.now.locals.now }
    ensures { Writes (K.seen sink.old) (K.seen sink.new) result
        (type_parts plan.now.net.now c_type) }
{
    put_part(sink, plan, false, c_type)?;
    put_part(sink, plan, true, c_type)
}

/// Writes the helper functions.
fn put_functions<K: Sink>(sink: &mut K, plan: &Plan) -> Result<(), Failed>
    requires plan { IsPlan plan.now.net.now plan.now.types.now plan.now.locals.now }
    ensures { Writes (K.seen sink.old) (K.seen sink.new) result
        (functions_text (program_of plan.now.net.now)) }
{
    put_type_parts(sink, plan, CType::Int)?;
    put_type_parts(sink, plan, CType::Int32)?;
    put_type_parts(sink, plan, CType::Int64)
}

/// Writes the line of a member.
fn put_member_line<K: Sink>(sink: &mut K, names: &Labels, word: CType, k: u32) -> Result<(), Failed>
    requires named { k < length names.now.members.now }
    ensures { Writes (K.seen sink.old) (K.seen sink.new) result (member_line names.now word k) }
{
    put_all(sink, b"    ")?;
    put_all(sink, type_name(word))?;
    put_all(sink, b" ")?;
    put_member(sink, names, k)?;
    put_all(sink, b";\n")
}

/// Writes the lines of the members.
fn put_member_lines<K: Sink>(
    sink: &mut K,
    names: &Labels,
    word: CType,
    many: u32,
) -> Result<(), Failed>
    requires named { many ≤ length names.now.members.now }
    ensures { Writes (K.seen sink.old) (K.seen sink.new) result
        (lines_from (member_line names.now word) 0 many) }
{
    for k in 0..many {
        put_member_line(sink, names, word, k)?;
    }
    Ok(())
}

/// Writes a member if there would be none.
fn put_none_line<K: Sink>(sink: &mut K, many: u32) -> Result<(), Failed>
    ensures { Writes (K.seen sink.old) (K.seen sink.new) result (none_line many) }
{
    if many == 0 {
        put_all(sink, b"    int32_t none;\n")
    } else {
        Ok(())
    }
}

/// Writes the end of the struct.
fn put_struct_tail<K: Sink>(sink: &mut K, names: &Labels) -> Result<(), Failed>
    ensures { Writes (K.seen sink.old) (K.seen sink.new) result (struct_tail names.now) }
{
    put_fragments(
        sink,
        &[
            Fragment::Bytes(b"} "),
            Fragment::Bytes(names.prefix),
            Fragment::Bytes(b"_state;\n\n"),
        ],
    )
}

/// Writes the struct.
fn put_struct<K: Sink>(sink: &mut K, names: &Labels, word: CType, many: u32) -> Result<(), Failed>
    requires named { many ≤ length names.now.members.now }
    ensures { Writes (K.seen sink.old) (K.seen sink.new) result (struct_text names.now word many) }
{
    put_all(sink, b"#include <stdint.h>\n\ntypedef struct {\n")?;
    put_member_lines(sink, names, word, many)?;
    put_none_line(sink, many)?;
    put_struct_tail(sink, names)
}

/// Writes what stands before the step function.
fn put_step_start<K: Sink>(sink: &mut K, remarks: &Remarks) -> Result<(), Failed>
    ensures { Writes (K.seen sink.old) (K.seen sink.new) result (10 ∷ step_remark remarks.now) }
{
    put_all(sink, b"\n")?;
    put_step_remark(sink, remarks)
}

/// Writes the program of a plan.
fn put_unit<K: Sink>(sink: &mut K, plan: &Plan) -> Result<(), Failed>
    requires plan { IsPlan plan.now.net.now plan.now.types.now plan.now.locals.now }
    requires named { length plan.now.names.members.now ≡ length plan.now.net.now.next }
    ensures { Writes (K.seen sink.old) (K.seen sink.new) result
        (unit_text plan.now.names (length plan.now.net.now.next) (program_of plan.now.net.now)) }
{
    let word = word_type(&plan.net.format());
    let many = plan.net.registers();
    put_title(sink, &plan.names.remarks)?;
    put_struct(sink, &plan.names, word, many)?;
    put_functions(sink, plan)?;
    put_init(sink, plan.net, &plan.names)?;
    put_step_start(sink, &plan.names.remarks)?;
    put_step(sink, plan)
}

/// Writes the C of a netlist: the text of its program, and nothing else. It takes no memory.
#[tactic(auto, using(crate::proofs::SameLabels::unit_elsewhere))]
pub fn put_program<K: Sink>(sink: &mut K, net: &Netlist, names: &Labels) -> Result<(), Failed>
    requires named { length names.now.members.now ≡ length net.now.next }
    ensures { Writes (K.seen sink.old) (K.seen sink.new) result
        (unit_text (labels_of names.now.prefix.now names.now.members.now names.now.remarks)
        (length net.now.next) (program_of net.now)) }
{
    let _count = net.len(); // that it is a netlist, for the proof
    let types = types_of(net);
    let locals = locals_of(net);
    let plan = Plan {
        net,
        types: &types,
        locals: &locals,
        names: *names,
    };
    put_unit(sink, &plan)
}
