// The lines of a program.
#![tactic(auto, using(dsv_algebra::proofs::Casts::casts, dsv_base::proofs::TakingLemmas::cut_more))]

ghost use Rattle.std.specs.Prelude.{◌≡◌, ◌<◌, ◌≤◌, length};
ghost use Rattle.dsv_base.specs.Taking.{Writes};
ghost use Rattle.dsv_ctext.specs.Plans.{IsPlan, load_line, node_line, store_of, init_line};
ghost use Rattle.dsv_ctext.specs.Plans.{fitted_of};
ghost use Rattle.dsv_ctext.specs.ProgramTexts.{lines_from, declaration_start, declaration_head};
ghost use Rattle.dsv_ctext.specs.ProgramTexts.{store_head};
ghost use Rattle.dsv_ctext.specs.ProgramTexts.{none_store, step_head, step_tail, step_text};
ghost use Rattle.dsv_ctext.specs.ProgramTexts.{init_head, init_text};
ghost use Rattle.dsv_c.specs.Programs.{word_type, program_of, codes_of, code_at};
ghost use Rattle.dsv_ctext.specs.Texts.{name_limit};

use crate::fragments::{Fragment, put_fragments};
use crate::names::{Labels, fitted_head, put_local, put_member, type_name};
use crate::nodes::{Plan, helper_type, node_at, put_node};
use crate::products::put_fit_end;
use crate::types::word_type;
use dsv_base::{Failed, Sink, put_all, put_number};
use dsv_c::CType;
use dsv_netlist::{Netlist, Node};

/// Writes the beginning of a local's line, up to its name.
fn put_declaration_start<K: Sink>(sink: &mut K, c_type: CType) -> Result<(), Failed>
    ensures { Writes (K.seen sink.old) (K.seen sink.new) result (declaration_start c_type) }
{
    put_fragments(
        sink,
        &[
            Fragment::Bytes(b"    const "),
            Fragment::Bytes(type_name(c_type)),
            Fragment::Bytes(b" "),
        ],
    )
}

/// Writes the beginning of a local's line.
fn put_declaration_head<K: Sink>(
    sink: &mut K,
    names: &Labels,
    c_type: CType,
    k: u32,
) -> Result<(), Failed>
    requires { k < name_limit }
    ensures { Writes (K.seen sink.old) (K.seen sink.new) result
        (declaration_head names.now c_type k) }
{
    put_declaration_start(sink, c_type)?;
    put_local(sink, names, k)?;
    put_all(sink, b" = ")
}

/// Writes the beginning of a store's line.
fn put_store_head<K: Sink>(sink: &mut K, names: &Labels, k: u32) -> Result<(), Failed>
    requires named { k < length names.now.members.now }
    ensures { Writes (K.seen sink.old) (K.seen sink.new) result (store_head names.now k) }
{
    put_all(sink, b"    s->")?;
    put_member(sink, names, k)?;
    put_all(sink, b" = ")
}

/// Writes the line that reads a member.
fn put_load<K: Sink>(sink: &mut K, names: &Labels, word: CType, k: u32) -> Result<(), Failed>
    requires small { k < 1000 }
    requires named { k < length names.now.members.now }
    ensures { Writes (K.seen sink.old) (K.seen sink.new) result (load_line names.now word k) }
{
    put_declaration_head(sink, names, word, k + 1)?;
    put_all(sink, b"s->")?;
    put_member(sink, names, k)?;
    put_all(sink, b";\n")
}

/// Writes the line that sets a member to 0.
fn put_zero<K: Sink>(sink: &mut K, names: &Labels, k: u32) -> Result<(), Failed>
    requires named { k < length names.now.members.now }
    ensures { Writes (K.seen sink.old) (K.seen sink.new) result (init_line names.now k) }
{
    put_store_head(sink, names, k)?;
    put_number(sink, 0i128)?;
    put_all(sink, b";\n")
}

/// What a node fits, if it does.
fn fitted_of(node: Node) -> Option<u32>
    ensures { result ≡ fitted_of node }
{
    match node {
        Node::Fit(of) => Some(of),
        _ => None,
    }
}

/// Writes the line of a node's local, or none.
fn put_node_line<K: Sink>(sink: &mut K, plan: &Plan, word: CType, i: u32) -> Result<(), Failed>
    requires plan { IsPlan plan.now.net.now plan.now.types.now plan.now.locals.now }
    requires there { i < length plan.now.net.now.nodes }
    requires word { word ≡ word_type plan.now.net.now.format }
    ensures { Writes (K.seen sink.old) (K.seen sink.new) result
        (node_line plan.now.names plan.now.net.now i) }
{
    match fitted_of(node_at(plan.net, i)) {
        Some(of) => {
            let head = fitted_head(helper_type(plan, of));
            put_declaration_head(sink, &plan.names, word, plan.locals[i as usize])?;
            put_all(sink, head)?;
            put_node(sink, plan, of, false)?;
            put_fit_end(sink, plan, of)
        }
        None => Ok(()),
    }
}

/// Writes the line that stores a register.
fn put_store<K: Sink>(sink: &mut K, plan: &Plan, k: u32) -> Result<(), Failed>
    requires plan { IsPlan plan.now.net.now plan.now.types.now plan.now.locals.now }
    requires there { k < length plan.now.net.now.next }
    requires named { length plan.now.names.members.now ≡ length plan.now.net.now.next }
    ensures { Writes (K.seen sink.old) (K.seen sink.new) result
        (store_of plan.now.names plan.now.net.now k) }
{
    let node = plan.net.next(k);
    put_store_head(sink, &plan.names, k)?;
    put_node(sink, plan, node, false)?;
    put_all(sink, b";\n")
}

/// Writes the lines that read the members.
pub(crate) fn put_loads<K: Sink>(
    sink: &mut K,
    names: &Labels,
    word: CType,
    many: u32,
) -> Result<(), Failed>
    requires small { many ≤ 1000 }
    requires named { many ≤ length names.now.members.now }
    ensures { Writes (K.seen sink.old) (K.seen sink.new) result
        (lines_from (load_line names.now word) 0 many) }
{
    for k in 0..many {
        put_load(sink, names, word, k)?;
    }
    Ok(())
}

/// Writes the lines that set the members to 0.
pub(crate) fn put_zeros<K: Sink>(sink: &mut K, names: &Labels, many: u32) -> Result<(), Failed>
    requires named { many ≤ length names.now.members.now }
    ensures { Writes (K.seen sink.old) (K.seen sink.new) result
        (lines_from (init_line names.now) 0 many) }
{
    for k in 0..many {
        put_zero(sink, names, k)?;
    }
    Ok(())
}

/// Writes the lines of the nodes' locals.
pub(crate) fn put_node_lines<K: Sink>(sink: &mut K, plan: &Plan, word: CType) -> Result<(), Failed>
    requires plan { IsPlan plan.now.net.now plan.now.types.now plan.now.locals.now }
    requires word { word ≡ word_type plan.now.net.now.format }
    ensures { Writes (K.seen sink.old) (K.seen sink.new) result
        (lines_from (node_line plan.now.names plan.now.net.now) 0
        (length plan.now.net.now.nodes)) }
{
    for i in 0..plan.net.len() {
        put_node_line(sink, plan, word, i)?;
    }
    Ok(())
}

/// Writes the lines that store the registers.
pub(crate) fn put_stores<K: Sink>(sink: &mut K, plan: &Plan) -> Result<(), Failed>
    requires plan { IsPlan plan.now.net.now plan.now.types.now plan.now.locals.now }
    requires named { length plan.now.names.members.now ≡ length plan.now.net.now.next }
    ensures { Writes (K.seen sink.old) (K.seen sink.new) result
        (lines_from (store_of plan.now.names plan.now.net.now) 0 (length plan.now.net.now.next)) }
{
    for k in 0..plan.net.registers() {
        put_store(sink, plan, k)?;
    }
    Ok(())
}

/// The line that uses a struct without registers.
fn none_store(many: u32) -> &'static [u8]
    ensures { result.now ≡ none_store many }
{
    if many == 0 {
        b"    s->none = 0;\n"
    } else {
        b""
    }
}

/// Writes the beginning of the step function.
fn put_step_head<K: Sink>(
    sink: &mut K,
    names: &Labels,
    word: CType,
    many: u32,
) -> Result<(), Failed>
    ensures { Writes (K.seen sink.old) (K.seen sink.new) result (step_head names.now word many) }
{
    let word_name = Fragment::Bytes(type_name(word));
    let name = Fragment::Bytes(names.prefix);
    put_fragments(
        sink,
        &[
            word_name,
            Fragment::Bytes(b" "),
            name,
            Fragment::Bytes(b"_step("),
            name,
            Fragment::Bytes(b"_state *s, "),
            word_name,
            Fragment::Bytes(b" x)\n{\n"),
            Fragment::Bytes(none_store(many)),
        ],
    )
}

/// Writes the end of the step function.
fn put_step_tail<K: Sink>(sink: &mut K, plan: &Plan) -> Result<(), Failed>
    requires plan { IsPlan plan.now.net.now plan.now.types.now plan.now.locals.now }
    ensures { Writes (K.seen sink.old) (K.seen sink.new) result
        (step_tail plan.now.names (code_at
        (codes_of plan.now.net.now) plan.now.net.now.output).expr) }
{
    let output = plan.net.output();
    put_all(sink, b"    return ")?;
    put_node(sink, plan, output, false)?;
    put_all(sink, b";\n}\n")
}

/// Writes the step function.
pub(crate) fn put_step<K: Sink>(sink: &mut K, plan: &Plan) -> Result<(), Failed>
    requires plan { IsPlan plan.now.net.now plan.now.types.now plan.now.locals.now }
    requires named { length plan.now.names.members.now ≡ length plan.now.net.now.next }
    ensures { Writes (K.seen sink.old) (K.seen sink.new) result
        (step_text plan.now.names (length plan.now.net.now.next) (program_of plan.now.net.now)) }
{
    let word = word_type(&plan.net.format());
    let many = plan.net.registers();
    put_step_head(sink, &plan.names, word, many)?;
    put_loads(sink, &plan.names, word, many)?;
    put_node_lines(sink, plan, word)?;
    put_stores(sink, plan)?;
    put_step_tail(sink, plan)
}

/// Writes the beginning of the init function.
fn put_init_head<K: Sink>(sink: &mut K, names: &Labels, many: u32) -> Result<(), Failed>
    ensures { Writes (K.seen sink.old) (K.seen sink.new) result (init_head names.now many) }
{
    let name = Fragment::Bytes(names.prefix);
    put_fragments(
        sink,
        &[
            Fragment::Bytes(b"void "),
            name,
            Fragment::Bytes(b"_init("),
            name,
            Fragment::Bytes(b"_state *s)\n{\n"),
            Fragment::Bytes(none_store(many)),
        ],
    )
}

/// Writes the init function.
pub(crate) fn put_init<K: Sink>(sink: &mut K, net: &Netlist, names: &Labels) -> Result<(), Failed>
    requires named { length names.now.members.now ≡ length net.now.next }
    ensures { Writes (K.seen sink.old) (K.seen sink.new) result
        (init_text names.now (length net.now.next) (program_of net.now)) }
{
    let _count = net.len(); // that it is a netlist, for the proof
    let many = net.registers();
    put_init_head(sink, names, many)?;
    put_zeros(sink, names, many)?;
    put_all(sink, b"}\n")
}
