//! Nets of small graphs, with their trees and counters.

use super::{assert_net, block, unit_with};
use flow_graph::Ending;
use std::test::Fail;

#[test]
fn loop_has_its_blocks_in_order_of_arrival(rt: HostRuntime) -> Result<(), Fail> {
    let alloc = rt.alloc();
    let mut blocks = Vec::new(alloc);
    blocks.push(block(alloc, Ending::Jump(3), &[1, 2])?)?;
    blocks.push(block(alloc, Ending::Branch(4, 5), &[3])?)?;
    blocks.push(block(alloc, Ending::Back(3), &[4])?)?;
    blocks.push(block(alloc, Ending::Return, &[5])?)?;
    let unit = unit_with(alloc, blocks)?;
    assert_net(
        &rt,
        &unit,
        "0-2 2-3 3-4 3-5 4-3 5-1 | 1 0 5 2 3 4 | 0:2-3 1:4-3",
    )
}

#[test]
fn call_may_leave_for_the_exit(rt: HostRuntime) -> Result<(), Fail> {
    let alloc = rt.alloc();
    let mut blocks = Vec::new(alloc);
    blocks.push(block(alloc, Ending::Call(0, 1, 3), &[1])?)?;
    blocks.push(block(alloc, Ending::Return, &[1])?)?;
    let unit = unit_with(alloc, blocks)?;
    assert_net(&rt, &unit, "0-2 2-1x 2-3 3-1 | 1 0 2 3 | 0:0-2 1:2-3")
}

#[test]
fn join_behind_two_returns_is_dropped(rt: HostRuntime) -> Result<(), Fail> {
    let alloc = rt.alloc();
    let mut blocks = Vec::new(alloc);
    blocks.push(block(alloc, Ending::Branch(3, 4), &[1, 2, 3])?)?;
    blocks.push(block(alloc, Ending::Return, &[3])?)?;
    blocks.push(block(alloc, Ending::Return, &[3])?)?;
    blocks.push(block(alloc, Ending::Return, &[])?)?;
    let unit = unit_with(alloc, blocks)?;
    assert_net(&rt, &unit, "0-2 2-3 2-4 3-1 4-1 | 1 0 3 4 2 | 0:2-3 1:2-4")
}

#[test]
fn blocks_behind_a_return_are_dropped(rt: HostRuntime) -> Result<(), Fail> {
    let alloc = rt.alloc();
    let mut blocks = Vec::new(alloc);
    blocks.push(block(alloc, Ending::Return, &[1, 2])?)?;
    blocks.push(block(alloc, Ending::Jump(4), &[3])?)?;
    blocks.push(block(alloc, Ending::Return, &[])?)?;
    let unit = unit_with(alloc, blocks)?;
    assert_net(&rt, &unit, "0-2 2-1 | 1 0 2 | 0:0-2")
}

#[test]
fn loop_without_exit_has_a_tree(rt: HostRuntime) -> Result<(), Fail> {
    let alloc = rt.alloc();
    let mut blocks = Vec::new(alloc);
    blocks.push(block(alloc, Ending::Jump(3), &[1])?)?;
    blocks.push(block(alloc, Ending::Back(3), &[])?)?;
    let unit = unit_with(alloc, blocks)?;
    assert_net(&rt, &unit, "0-2 2-3 3-3 | 1 0 2 3 | 0:3-3")
}

#[test]
fn numbers_close_up_and_two_cases_share_an_arc(rt: HostRuntime) -> Result<(), Fail> {
    let alloc = rt.alloc();
    let mut cases = Vec::new(alloc);
    cases.push((2, 6))?;
    cases.push((1, 5))?;
    cases.push((7, 5))?;
    let mut blocks = Vec::new(alloc);
    blocks.push(block(alloc, Ending::Jump(4), &[1])?)?;
    blocks.push(block(alloc, Ending::Jump(4), &[2])?)?;
    blocks.push(block(alloc, Ending::Switch(cases, 6), &[3])?)?;
    blocks.push(block(alloc, Ending::Exit, &[4])?)?;
    blocks.push(block(alloc, Ending::Return, &[5])?)?;
    let unit = unit_with(alloc, blocks)?;
    assert_net(
        &rt,
        &unit,
        "0-2 2-3 3-4 3-5 4-1x 5-1 | 1 0 4 5 2 3 | 0:2-3 1:3-5",
    )
}

#[test]
fn function_of_the_made_source_has_a_loop_with_two_ways(rt: HostRuntime) -> Result<(), Fail> {
    let alloc = rt.alloc();
    let mut blocks = Vec::new(alloc);
    blocks.push(block(alloc, Ending::Jump(3), &[1, 2])?)?;
    blocks.push(block(alloc, Ending::Branch(4, 8), &[3])?)?;
    blocks.push(block(alloc, Ending::Branch(5, 6), &[4])?)?;
    blocks.push(block(alloc, Ending::Jump(7), &[5])?)?;
    blocks.push(block(alloc, Ending::Jump(7), &[7])?)?;
    blocks.push(block(alloc, Ending::Back(3), &[8])?)?;
    blocks.push(block(alloc, Ending::Return, &[10])?)?;
    let unit = unit_with(alloc, blocks)?;
    assert_net(
        &rt,
        &unit,
        "0-2 2-3 3-4 3-8 4-5 4-6 5-7 6-7 7-3 8-1 | 1 0 8 2 3 4 7 5 6 | 0:2-3 1:5-7 2:6-7",
    )
}

#[test]
fn main_of_the_made_source_calls_twice(rt: HostRuntime) -> Result<(), Fail> {
    let alloc = rt.alloc();
    let mut blocks = Vec::new(alloc);
    blocks.push(block(alloc, Ending::Call(0, 24, 3), &[22, 23, 24])?)?;
    blocks.push(block(alloc, Ending::Call(1, 25, 4), &[24, 25])?)?;
    blocks.push(block(alloc, Ending::Return, &[25, 26])?)?;
    let unit = unit_with(alloc, blocks)?;
    assert_net(
        &rt,
        &unit,
        "0-2 2-1x 2-3 3-1x 3-4 4-1 | 1 0 2 3 4 | 0:0-2 1:2-3 2:3-4",
    )
}
