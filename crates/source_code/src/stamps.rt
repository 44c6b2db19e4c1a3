//! The stamp of a source.

ghost use Rattle.std.specs.Prelude.{◌≡◌};
ghost use Rattle.source_code.specs.Renders.{stamp_of};

use sha2::{Digest, Sha256};

/// The stamp of a source that is built with this path limit: the first four bytes, the least first,
/// of the SHA-256 of the limit, in four bytes, and the source.
pub fn stamp(limit: u32, text: &[u8]) -> u32
    ensures { result ≡ stamp_of limit text.now }
{
    let mut hasher = Sha256::new();
    hasher.update(limit.to_le_bytes());
    hasher.update(text);
    let digest = hasher.finalize();
    u32::from_le_bytes([digest[0], digest[1], digest[2], digest[3]])
}
