//! What the tests share: that all comes as a session says. The crate `command_sessions` tells how
//! sessions are written.

mod answers;
mod builds;
mod covers;
mod faults;
mod limits;
mod merges;
mod pieces;
mod programs;
mod refusals;
mod reports;
mod runs;
mod sessions;
mod surely;

use command_sessions::play;
use std::process::Abort;
use std::test::Fail;

/// Asserts that all comes as a session says, which may stand in several texts.
fn assert_played(rt: &(impl AllocGlobal + Abort), texts: &[&str]) -> Result<(), Fail> {
    let told = play(rt.alloc(), texts)?;
    assert!(rt; told.is_empty(), "{told}");
    Ok(())
}
