//! The part of a report on a function.

ghost use Rattle.std.specs.Prelude.{◌≡◌, ◌<◌, ◌++◌, OnOk};
ghost use Rattle.std.specs.List.{All, flat_map};
ghost use Rattle.prime_paths.specs.Lister.{inner_blocks};
ghost use Rattle.report_parts.specs.Functions as spec;
ghost use Rattle.report_parts.specs.Shown.{IsShown};

use crate::arc_test::ArcTest;
use crate::arcs::push_arcs;
use crate::numbers::{push_field, push_spaced};
use crate::paths::push_paths;
use crate::shown::Shown;
use std::alloc::AllocError;

/// Appends the function's name, and how often it was called, returned, and was left by an exit.
#[tactic(auto, unfolding(crate::specs::Functions::function_line))]
fn push_head(out: &mut Vec<u8>, function: &Shown<'_>) -> Result<(), AllocError>
    requires { IsShown function.now }
    ensures { OnOk result (out.new.items ≡ out.old.items ++ spec.function_line function.now) }
{
    out.extend_from_slice(b"function ")?;
    out.extend_from_slice(function.name)?;
    push_field(out, " called ", function.total(ArcTest::IsCall))?;
    push_field(out, " returned ", function.total(ArcTest::IsReturn))?;
    push_field(out, " exited ", function.total(ArcTest::IsCallExit))?;
    out.extend_from_slice(b"\n")?;
    Ok(())
}

/// Appends a block, how often it was entered, and its lines.
#[tactic(auto, unfolding(crate::specs::Functions::block_line))]
fn push_block(out: &mut Vec<u8>, function: &Shown<'_>, block: u32) -> Result<(), AllocError>
    requires shown { IsShown function.now }
    requires within { block < function.now.net.blocks }
    ensures { OnOk result (out.new.items ≡ out.old.items ++ spec.block_line function.now block) }
{
    push_field(out, "block ", u128::from(block))?;
    push_field(out, " count ", function.total(ArcTest::Enters(block)))?;
    out.extend_from_slice(b" lines")?;
    push_spaced(out, function.net.lines(block))?;
    out.extend_from_slice(b"\n")?;
    Ok(())
}

/// Appends the blocks of a function from 2 up.
fn push_blocks(out: &mut Vec<u8>, function: &Shown<'_>) -> Result<(), AllocError>
    requires { IsShown function.now }
    ensures { OnOk result (out.new.items ≡ out.old.items
        ++ flat_map (spec.block_line function.now) (inner_blocks function.now.net)) }
{
    for block in 2..function.blocks() {
        push_block(out, function, block)?;
    }
    Ok(())
}

/// Appends a function, its blocks from 2 up, its arcs, and its paths.
#[tactic(auto, unfolding(crate::specs::Functions::function_text))]
pub fn push_function(out: &mut Vec<u8>, limit: u32, function: &Shown<'_>) -> Result<(), AllocError>
    requires { IsShown function.now }
    ensures { OnOk result (out.new.items ≡ out.old.items ++ spec.function_text limit function.now) }
{
    push_head(out, function)?;
    push_blocks(out, function)?;
    push_arcs(out, function)?;
    push_paths(out, limit, function.listing, function.bits)?;
    Ok(())
}

/// Appends these functions.
pub fn push_functions(
    out: &mut Vec<u8>,
    limit: u32,
    functions: &[Shown<'_>],
) -> Result<(), AllocError>
    requires { All IsShown functions.now }
    ensures { OnOk result (out.new.items
        ≡ out.old.items ++ flat_map (spec.function_text limit) functions.now) }
{
    for function in functions {
        push_function(out, limit, function)?;
    }
    Ok(())
}
