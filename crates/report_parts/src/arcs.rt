//! The lines of a report on the arcs of a function.

ghost use Rattle.std.specs.Prelude.{◌≡◌, ◌≤◌, ◌++◌, ◌^◌, OnOk};
ghost use Rattle.report_parts.specs.Functions as spec;
ghost use Rattle.report_parts.specs.Shown.{IsShown};

use crate::arc_test::ArcTest;
use crate::numbers::{push_field, push_number};
use crate::shown::{Shown, is_branch};
use cov_base::{ArcKind, FlowArc, falls};
use std::alloc::AllocError;

/// The kind of an arc in words.
#[tactic(auto, unfolding(crate::specs::Functions::kind_text))]
fn kind_words(arc: &FlowArc) -> &'static str
    ensures { result.now ≡ spec.kind_text arc.now }
{
    match arc.kind {
        ArcKind::CallExit => "callexit",
        ArcKind::Real => { if falls(arc) { "fall" } else { "jump" } }
    }
}

/// Appends how much of the passages of its block a branch took.
#[tactic(auto, unfolding(crate::specs::Functions::share_text))]
fn push_share(out: &mut Vec<u8>, count: u128, block: u128) -> Result<(), AllocError>
    requires { count ≤ 2 ^ 80 }
    ensures { OnOk result (out.new.items ≡ out.old.items ++ spec.share_text count block) }
{
    if block == 0 {
        out.extend_from_slice(b" branch never")?;
        return Ok(());
    }
    out.extend_from_slice(b" branch ")?;
    push_number(out, 100 * count / block)?;
    out.extend_from_slice(b"%")?;
    Ok(())
}

/// Appends the share of an arc that is marked as a branch.
fn push_branch(
    out: &mut Vec<u8>,
    function: &Shown<'_>,
    arc: &FlowArc,
    count: u128,
) -> Result<(), AllocError>
    requires shown { IsShown function.now }
    requires small { count ≤ 2 ^ 80 }
    ensures { OnOk result (out.new.items
        ≡ out.old.items ++ spec.branch_text function.now arc.now count) }
{
    if !is_branch(function.net.arcs(), arc) {
        return Ok(());
    }
    push_share(out, count, function.total(ArcTest::Enters(arc.from)))?;
    Ok(())
}

/// Appends an arc, its kind and its count, and its share where it is a branch.
#[tactic(auto, unfolding(crate::specs::Functions::arc_line))]
fn push_arc(
    out: &mut Vec<u8>,
    function: &Shown<'_>,
    arc: &FlowArc,
    count: u128,
) -> Result<(), AllocError>
    requires shown { IsShown function.now }
    requires small { count ≤ 2 ^ 80 }
    ensures { OnOk result (out.new.items
        ≡ out.old.items ++ spec.arc_line function.now arc.now count) }
{
    push_field(out, "arc ", u128::from(arc.from))?;
    push_field(out, "-", u128::from(arc.to))?;
    out.extend_from_slice(b" ")?;
    out.extend_from_slice(kind_words(arc).as_bytes())?;
    push_field(out, " ", count)?;
    push_branch(out, function, arc, count)?;
    out.extend_from_slice(b"\n")?;
    Ok(())
}

/// Appends the arcs of a function.
pub fn push_arcs(out: &mut Vec<u8>, function: &Shown<'_>) -> Result<(), AllocError>
    requires { IsShown function.now }
    ensures { OnOk result (out.new.items ≡ out.old.items
        ++ spec.arc_lines function.now function.now.net.arcs function.now.counts) }
{
    let counts = function.counts.as_slice();
    for (index, arc) in function.net.arcs().iter().enumerate() {
        push_arc(out, function, arc, counts[index])?;
    }
    Ok(())
}
