//! Which blocks are reached from block 2.

ghost use Rattle.std.specs.Prelude.{
  ◌≡◌,
  ◌+◌,
  ◌<◌,
  ◌≤◌,
  ℕ,
  length,
  IfOk,
  MatchOption,
  IsTrue,
  true,
  false,
  not,
  slice_index_or,
  if◌then◌else◌,
};
ghost use Rattle.std.specs.List.{All, count_by, fold, list_any};
ghost use Rattle.cov_base.specs.Net.{IsLeastApart, AllReached};
ghost use Rattle.cov_base.specs.Reach.{
  is_inside,
  is_marked,
  is_open,
  spread_along,
  AllMarked,
  IsFirstUnmarked,
  MarksReached,
};

use crate::net::FlowArc;
use std::alloc::{AllocError, Global};

/// The least block from 2 up that no arcs lead to from block 2. Takes memory for one mark a block.
pub fn first_apart(alloc: Global, blocks: u32, arcs: &[FlowArc]) -> Result<Option<u32>, AllocError>
    requires three { 2 < blocks }
    requires inside { All (λ arc. is_inside blocks arc ≡ true) arcs.now }
    ensures { IfOk result
        (λ apart. MatchOption apart (AllReached blocks arcs.now) (IsLeastApart blocks arcs.now)) }
{
    let mut marks = vec![in alloc; false; blocks as usize]?;
    mark_reached(arcs, &mut marks);
    match first_unmarked(&marks) {
        Some(block) => Ok(Some(block as u32)),
        None => Ok(None),
    }
}

fn mark_reached(arcs: &[FlowArc], marks: &mut [bool])
    requires three { 2 < length marks.old }
    requires inside { All (λ arc. is_inside (length marks.old) arc ≡ true) arcs.now }
    requires clear { All (λ mark. mark ≡ false) marks.old }
    ensures { MarksReached (length marks.old) arcs.now marks.new }
{
    marks[2] = true;
    while spread(arcs, marks) {}
}

fn spread(arcs: &[FlowArc], marks: &mut [bool]) -> bool
    requires { All (λ arc. is_inside (length marks.old) arc ≡ true) arcs.now }
    ensures after { marks.new ≡ fold spread_along marks.old arcs.now }
    ensures told { result ≡ list_any (is_open marks.old) arcs.now }
    ensures fewer { count_by not marks.new + (if result then 1 else 0) ≤ count_by not marks.old }
{
    let mut spreads = false;
    for arc in arcs {
        if follow(arc, marks) {
            spreads = true;
        }
    }
    spreads
}

fn follow(arc: &FlowArc, marks: &mut [bool]) -> bool
    requires { is_inside (length marks.old) arc.now ≡ true }
    ensures after { marks.new ≡ spread_along marks.old arc.now }
    ensures told { result ≡ is_open marks.old arc.now }
    ensures fewer { count_by not marks.new + (if result then 1 else 0) ≡ count_by not marks.old }
{
    let opens = marks[arc.from as usize] && !marks[arc.to as usize];
    if opens {
        marks[arc.to as usize] = true;
    }
    opens
}

fn first_unmarked(marks: &[bool]) -> Option<usize>
    ensures { MatchOption result (AllMarked marks.now) (IsFirstUnmarked marks.now) }
{
    for block in 2..marks.len() {
        if !marks[block] {
            return Some(block);
        }
    }
    None
}
