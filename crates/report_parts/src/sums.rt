//! The sums at the end of a report.

ghost use Rattle.std.specs.Prelude.{◌≡◌, ◌+◌, ◌<◌, ◌≤◌, ◌^◌, ◌&&◌, ◌++◌, if◌then◌else◌};
ghost use Rattle.std.specs.Prelude.{nat_lt, length, OnOk, codes};
ghost use Rattle.std.specs.List.{All, count_by, list_any, sum_by};
ghost use Rattle.report_parts.specs.ArcTests as tests;
ghost use Rattle.report_parts.specs.CountSteps.{count_at};
ghost use Rattle.report_parts.specs.Shown.{IsShown};
ghost use Rattle.report_parts.specs.Shown as shown;
ghost use Rattle.report_parts.specs.Summary as spec;

use crate::arc_test::ArcTest;
use crate::lines::count_of;
use crate::numbers::push_number;
use crate::shown::{Shown, is_branch};
use cov_base::FlowArc;
use prime_paths::Listing;
use std::alloc::AllocError;

/// An amount that a report sums up over functions.
#[derive(Clone, Copy)]
pub enum Part {
    /// Branches with a count above 0.
    BranchesTaken,
    /// Arcs marked as branches.
    Branches,
    /// Blocks that call and were left by a real arc.
    CallsBack,
    /// Blocks with a call-exit arc and a real arc out.
    Calls,
    /// Listed paths that were covered.
    PathsCovered,
    /// Listed paths.
    Paths,
}

fn one_if(holds: bool) -> u64
    ensures value { result ≡ (if holds then 1 else 0) }
    ensures most { result ≤ 1 }
{
    if holds { 1 } else { 0 }
}

/// How many of these arcs are marked as branches.
fn count_branches(arcs: &[FlowArc]) -> u64
    requires { length arcs.now ≤ 4096 }
    ensures value { result ≡ count_by (shown.is_branch arcs.now) arcs.now }
    ensures small { result ≤ 4096 }
{
    let mut branches = 0;
    for arc in arcs {
        branches += one_if(is_branch(arcs, arc));
    }
    branches
}

/// How many arcs are marked as branches.
fn branches(function: &Shown<'_>) -> u64
    requires { IsShown function.now }
    ensures value { result ≡ spec.branches function.now }
    ensures small { result ≤ 2 ^ 32 }
{
    count_branches(function.arcs())
}

/// How many branches were taken.
fn branches_taken(function: &Shown<'_>) -> u64
    requires { IsShown function.now }
    ensures value { result ≡ spec.branches_taken function.now }
    ensures small { result ≤ 2 ^ 32 }
{
    let arcs = function.arcs();
    let counts = function.counts.as_slice();
    let mut taken = 0;
    for (index, arc) in arcs.iter().enumerate() {
        taken += one_if(is_taken(arcs, arc, counts[index]));
    }
    taken
}

fn is_taken(arcs: &[FlowArc], arc: &FlowArc, count: u128) -> bool
    ensures { result ≡ (shown.is_branch arcs.now arc.now && nat_lt 0 count) }
{
    is_branch(arcs, arc) && count > 0
}

/// Whether an arc passes the test.
fn any(arcs: &[FlowArc], test: ArcTest) -> bool
    ensures { result ≡ list_any (tests.passes test) arcs.now }
{
    arcs.iter().any(|arc| test.passes(arc))
}

/// Whether the block has a call-exit arc and a real arc out.
fn is_call(arcs: &[FlowArc], block: u32) -> bool
    ensures { result ≡ spec.is_call arcs.now block }
{
    any(arcs, ArcTest::IsCallExitOf(block)) && any(arcs, ArcTest::IsWayOut(block))
}

/// Whether the block has them, and its real arcs out were passed.
fn is_call_back(function: &Shown<'_>, block: u32) -> bool
    requires { IsShown function.now }
    ensures { result ≡ spec.is_call_back function.now block }
{
    is_call(function.arcs(), block) && function.total(ArcTest::IsWayOut(block)) > 0
}

/// How many blocks call.
fn calls(function: &Shown<'_>) -> u64
    requires { IsShown function.now }
    ensures value { result ≡ spec.calls function.now }
    ensures small { result ≤ 2 ^ 32 }
{
    let mut calls = 0;
    for block in 2..function.blocks() {
        calls += one_if(is_call(function.arcs(), block));
    }
    calls
}

/// How many of them were left by a real arc.
fn calls_back(function: &Shown<'_>) -> u64
    requires { IsShown function.now }
    ensures value { result ≡ spec.calls_back function.now }
    ensures small { result ≤ 2 ^ 32 }
{
    let mut calls = 0;
    for block in 2..function.blocks() {
        calls += one_if(is_call_back(function, block));
    }
    calls
}

/// How many paths are listed.
fn listed(function: &Shown<'_>) -> u32
    ensures { result ≡ spec.listed function.now.listing }
{
    match function.listing {
        Listing::All(paths) => paths.len(),
        Listing::LimitPassed => 0,
    }
}

/// How many of the listed paths were covered.
fn paths_covered(function: &Shown<'_>) -> u64
    ensures value { result ≡ spec.paths_covered function.now }
    ensures small { result ≤ 2 ^ 32 }
{
    let mut covered = 0;
    for k in 0..listed(function) {
        covered += one_if(function.covers(k));
    }
    covered
}

/// An amount of a function.
fn amount(part: Part, function: &Shown<'_>) -> u64
    requires { IsShown function.now }
    ensures value { result ≡ spec.amount part function.now }
    ensures small { result ≤ 2 ^ 32 }
{
    match part {
        Part::BranchesTaken => branches_taken(function),
        Part::Branches => branches(function),
        Part::CallsBack => calls_back(function),
        Part::Calls => calls(function),
        Part::PathsCovered => paths_covered(function),
        Part::Paths => u64::from(listed(function)),
    }
}

/// An amount summed up over functions.
fn sum_of(part: Part, functions: &[Shown<'_>]) -> u128
    requires shown { All IsShown functions.now }
    requires few { length functions.now < 2 ^ 32 }
    ensures { result ≡ sum_by (spec.amount part) functions.now }
{
    let mut sum = 0;
    for function in functions {
        sum += u128::from(amount(part, function));
    }
    sum
}

/// How many of so many lines have a count.
fn lines_told(counts: &[Option<u128>], lines: usize) -> u64
    requires { lines + 1 < 2 ^ 64 }
    ensures { result ≡ spec.lines_with spec.is_told (count_at counts.now) lines }
{
    let mut told = 0;
    for line in 1..lines + 1 {
        told += one_if(is_told(count_of(counts, line)));
    }
    told
}

fn is_told(count: Option<u128>) -> bool
    ensures { result ≡ spec.is_told count }
{
    match count {
        Some(_) => true,
        None => false,
    }
}

fn is_run(count: Option<u128>) -> bool
    ensures { result ≡ spec.is_run count }
{
    match count {
        Some(n) => n > 0,
        None => false,
    }
}

/// How many of so many lines have a count above 0.
fn lines_run(counts: &[Option<u128>], lines: usize) -> u64
    requires { lines + 1 < 2 ^ 64 }
    ensures { result ≡ spec.lines_with spec.is_run (count_at counts.now) lines }
{
    let mut run = 0;
    for line in 1..lines + 1 {
        run += one_if(is_run(count_of(counts, line)));
    }
    run
}

/// Appends how many of all there are.
#[tactic(auto, unfolding(crate::specs::Summary::sum_line))]
fn push_sum(out: &mut Vec<u8>, what: &str, some: u128, all: u128) -> Result<(), AllocError>
    ensures { OnOk result (out.new.items ≡ out.old.items ++ spec.sum_line what.now some all) }
{
    out.extend_from_slice(what.as_bytes())?;
    out.extend_from_slice(b" ")?;
    push_number(out, some)?;
    out.extend_from_slice(b" of ")?;
    push_number(out, all)?;
    out.extend_from_slice(b"\n")?;
    Ok(())
}

/// Appends how many of all functions' amounts there are.
fn push_part(
    out: &mut Vec<u8>,
    what: &str,
    some: Part,
    all: Part,
    functions: &[Shown<'_>],
) -> Result<(), AllocError>
    requires shown { All IsShown functions.now }
    requires few { length functions.now < 2 ^ 32 }
    ensures { OnOk result (out.new.items ≡ out.old.items
        ++ spec.sum_line what.now (sum_by (spec.amount some) functions.now)
        (sum_by (spec.amount all) functions.now)) }
{
    push_sum(out, what, sum_of(some, functions), sum_of(all, functions))?;
    Ok(())
}

/// Appends the sums of a report with so many source lines.
#[tactic(auto, unfolding(crate::specs::Summary::summary_by))]
pub fn push_sums(
    out: &mut Vec<u8>,
    counts: &[Option<u128>],
    lines: usize,
    functions: &[Shown<'_>],
) -> Result<(), AllocError>
    requires shown { All IsShown functions.now }
    requires few { length functions.now < 2 ^ 32 }
    requires lines { lines + 1 < 2 ^ 64 }
    ensures { OnOk result (out.new.items ≡ out.old.items
        ++ spec.summary_by (count_at counts.now) lines functions.now) }
{
    let run = u128::from(lines_run(counts, lines));
    push_sum(out, "lines", run, u128::from(lines_told(counts, lines)))?;
    push_part(
        out,
        "branches",
        Part::BranchesTaken,
        Part::Branches,
        functions,
    )?;
    push_part(out, "calls", Part::CallsBack, Part::Calls, functions)?;
    push_part(out, "paths", Part::PathsCovered, Part::Paths, functions)?;
    Ok(())
}
