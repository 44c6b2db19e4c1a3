//! The blocks that the cases of a switch lead to.

ghost use Rattle.std.specs.Prelude.{◌≡◌, map, IfOk};
ghost use Rattle.stack_code.specs.Laying.{goals};

use std::alloc::{AllocError, Global};

/// The blocks that cases lead to, one for each, ascending.
pub fn goals_of(alloc: Global, cases: &[(i128, u32)]) -> Result<Vec<u32>, AllocError>
    ensures { IfOk result (λ v. v.items ≡ goals (map (λ c. (c.0, c.1)) cases.now)) }
{
    let mut found = Vec::new(alloc);
    for case in cases {
        found.push(case.1)?;
    }
    found.sort_unstable();
    found.dedup();
    Ok(found)
}
