//! What the tests share: nets by their real arcs, and the text of a listing.

ghost use Rattle.std.specs.Prelude.{◌≡◌, ◌≤◌, ◌<◌, length, IfOk};

mod nets;
mod rows;
mod words;

use crate::list_uncounted;
use cov_base::{ArcKind, FlowArc, Net, NoMemory, Refusal};
use prime_paths::{Listing, Paths};
use std::alloc::{AllocError, Global};
use std::process::Abort;
use std::test::Fail;

/// The net of these real arcs; none where they make none.
fn net_of(alloc: Global, blocks: u32, ends: &[(u32, u32)]) -> Result<Option<Net>, AllocError> {
    let mut arcs = Vec::new(alloc);
    for (from, to) in ends {
        arcs.push(FlowArc {
            from: *from,
            to: *to,
            kind: ArcKind::Real,
        })?;
    }
    let mut lines = Vec::new(alloc);
    for _ in 0..blocks {
        lines.push(Vec::new(alloc))?;
    }
    if arcs.len() > 4096 || lines.len() > 512 {
        return Ok(None);
    }
    match Net::new(alloc, blocks, arcs, lines) {
        Ok(net) => Ok(Some(net)),
        Err(Refusal::NoMemory) => Err(AllocError),
        Err(Refusal::Refused(_)) => Ok(None),
    }
}

/// The arcs of a star: block 2 leads to 200 blocks, which lead to block 203.
fn star_ends(alloc: Global) -> Result<Vec<(u32, u32)>, AllocError> {
    let mut ends = Vec::new(alloc);
    ends.push((0, 2))?;
    for middle in 3..203u32 {
        ends.push((2, middle))?;
    }
    for middle in 3..203u32 {
        ends.push((middle, 203))?;
    }
    ends.push((203, 1))?;
    Ok(ends)
}

/// The blocks of each path, with a comma behind each path.
fn text_of(alloc: Global, paths: &Paths) -> Result<String, Fail> {
    let mut text = String::new(alloc);
    for k in 0..paths.len() {
        for block in paths.path(k) {
            text.push_str(format!(in alloc; "{block} ")?.as_str())?;
        }
        text.push_str(", ")?;
    }
    Ok(text)
}

/// Asserts the paths of a net, or that there are more than the limit.
fn assert_listed(
    rt: &(impl AllocGlobal + Abort),
    net: &Net,
    limit: u32,
    expected: &str,
) -> Result<(), Fail>
    requires { limit ≤ 65536 }
{
    match list_uncounted(rt.alloc(), net, limit) {
        Ok(Listing::All(paths)) => {
            let text = text_of(rt.alloc(), &paths)?;
            assert_eq!(rt; text.as_str(), expected);
        }
        Ok(Listing::LimitPassed) => assert_eq!(rt; "more", expected),
        Err(NoMemory) => panic!(rt; "no memory"),
    }
    Ok(())
}
