// The lines of who went and of why the rest is left.

ghost use Rattle.std.specs.Prelude.{◌≡◌, ◌++◌, IfOk, OnOk, string_bytes};
ghost use Rattle.std.specs.List.{flat_map};
ghost use Rattle.report_text.specs.WhyLines.{cause_text, edge_text, held_text, member_line, parting_lines, reason_line, reason_text, why_lines};

use crate::lines::{push_amount, push_thing};
use orca_names::{ActorName, Edge, KeptReport, NoMemory, Parting, Reason, Why};
use std::alloc::{AllocError, Global};

/// By what a thing leads to another.
fn push_edge(out: &mut String, edge: &Edge) -> Result<(), AllocError>
    ensures { OnOk result (string_bytes out.new ≡ string_bytes out.old ++ edge_text edge.now) }
{
    match edge {
        Edge::Field(i) => write!(out, "field {i}"),
        Edge::Register(i) => write!(out, "register {i}"),
        Edge::Letter { letter, argument } => write!(out, "letter {letter} argument {argument}"),
        Edge::Place(i) => write!(out, "place {i}"),
        Edge::Owner => out.push_str("owner"),
    }
}

/// What keeps a thing.
fn push_cause(out: &mut String, why: &Why) -> Result<(), AllocError>
    ensures { OnOk result (string_bytes out.new ≡ string_bytes out.old ++ cause_text why.now) }
{
    match why {
        Why::Pinned => out.push_str("pinned"),
        Why::Frame => out.push_str("frame"),
        Why::Letter => out.push_str("letter"),
        Why::By { parent, edge } => {
            out.push_str("by ")?;
            push_thing(out, parent)?;
            out.push(' ')?;
            push_edge(out, edge)
        }
        Why::Loose => Ok(()),
    }
}

/// A thing that is left, without the line feed.
fn push_left(out: &mut String, reason: &Reason) -> Result<(), AllocError>
    ensures { OnOk result (string_bytes out.new ≡ string_bytes out.old
        ++ reason_text reason.now.thing reason.now.level reason.now.why) }
{
    match &reason.why {
        Why::Loose => {
            out.push_str("loose ")?;
            push_thing(out, &reason.thing)
        }
        why => {
            out.push_str("kept ")?;
            push_thing(out, &reason.thing)?;
            push_amount(out, "level", reason.level)?;
            out.push(' ')?;
            push_cause(out, why)
        }
    }
}

/// The line of a thing that is left.
fn push_reason(out: &mut String, reason: &Reason) -> Result<(), AllocError>
    ensures { OnOk result (string_bytes out.new ≡ string_bytes out.old ++ reason_line reason.now) }
{
    push_left(out, reason)?;
    out.push('\n')
}

fn push_reasons(out: &mut String, reasons: &[Reason]) -> Result<(), AllocError>
    ensures { OnOk result (string_bytes out.new ≡ string_bytes out.old
        ++ flat_map reason_line reasons.now) }
{
    for reason in reasons {
        push_reason(out, reason)?;
    }
    Ok(())
}

/// The actors that a member holds, each with the count.
fn push_held(out: &mut String, held: &[(ActorName, u64)]) -> Result<(), AllocError>
    ensures { OnOk result (string_bytes out.new ≡ string_bytes out.old
        ++ flat_map held_text held.now) }
{
    for (actor, count) in held {
        write!(out, " holds {} {count}", actor.0)?;
    }
    Ok(())
}

/// The line of a member that was reaped.
fn push_member(out: &mut String, member: &KeptReport) -> Result<(), AllocError>
    ensures { OnOk result (string_bytes out.new ≡ string_bytes out.old ++ member_line member.now) }
{
    write!(out, "member actor {}", member.actor.0)?;
    push_amount(out, "count", member.count)?;
    push_held(out, member.held.as_slice())?;
    out.push('\n')
}

fn push_members(out: &mut String, members: &[KeptReport]) -> Result<(), AllocError>
    ensures { OnOk result (string_bytes out.new ≡ string_bytes out.old
        ++ flat_map member_line members.now) }
{
    for member in members {
        push_member(out, member)?;
    }
    Ok(())
}

/// The lines of an actor that left, or of a token that was reaped.
fn push_parting(out: &mut String, parting: &Parting) -> Result<(), AllocError>
    ensures { OnOk result (string_bytes out.new ≡ string_bytes out.old ++ parting_lines parting.now) }
{
    match parting {
        Parting::Left { actor } => write!(out, "gone actor {}\n", actor.0),
        Parting::Reaped { token, members } => {
            write!(out, "reaped token {token}\n")?;
            push_members(out, members.as_slice())
        }
    }
}

fn push_partings(out: &mut String, partings: &[Parting]) -> Result<(), AllocError>
    ensures { OnOk result (string_bytes out.new ≡ string_bytes out.old
        ++ flat_map parting_lines partings.now) }
{
    for parting in partings {
        push_parting(out, parting)?;
    }
    Ok(())
}

/// Who went by each entry, and then why each thing is left, each in a line that ends with a line
/// feed; a token that was reaped has a line more for each member.
///
/// # Errors
/// `NoMemory` where memory was refused.
pub fn why_lines(
    alloc: Global,
    partings: &[Parting],
    reasons: &[Reason],
) -> Result<Vec<u8>, NoMemory>
    ensures { IfOk result (λ bytes. bytes.items ≡ why_lines partings.now reasons.now) }
{
    let mut out = String::new(alloc);
    push_partings(&mut out, partings)?;
    push_reasons(&mut out, reasons)?;
    Ok(out.into_bytes())
}
