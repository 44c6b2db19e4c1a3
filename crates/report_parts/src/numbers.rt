//! Numbers in texts.

ghost use Rattle.std.specs.Prelude.{◌≡◌, ◌++◌, OnOk};
ghost use Rattle.std.specs.Fmt.{decimal};
ghost use Rattle.report_parts.specs.Functions as spec;

use itoa::Buffer;
use std::alloc::AllocError;

/// Appends a number in decimal.
pub fn push_number(out: &mut Vec<u8>, n: u128) -> Result<(), AllocError>
    ensures { OnOk result (out.new.items ≡ out.old.items ++ decimal n) }
{
    out.extend_from_slice(Buffer::new().format(n).as_bytes())?;
    Ok(())
}

/// Appends a number behind a word.
#[tactic(auto, unfolding(crate::specs::Functions::field))]
pub fn push_field(out: &mut Vec<u8>, word: &str, n: u128) -> Result<(), AllocError>
    ensures { OnOk result (out.new.items ≡ out.old.items ++ spec.field word.now n) }
{
    out.extend_from_slice(word.as_bytes())?;
    push_number(out, n)?;
    Ok(())
}

/// Appends each number after a blank.
pub fn push_spaced(out: &mut Vec<u8>, numbers: &[u32]) -> Result<(), AllocError>
    ensures { OnOk result (out.new.items ≡ out.old.items ++ spec.spaced numbers.now) }
{
    for number in numbers {
        out.push(b' ')?;
        push_number(out, u128::from(*number))?;
    }
    Ok(())
}
