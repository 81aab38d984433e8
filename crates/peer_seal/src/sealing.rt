// Seals, their spelling, and the test of a spelling.
ghost use Rattle.std.specs.Prelude.{◌≡◌, ◌↔◌, IfOk, IsTrue};
ghost use Rattle.peer_seal.specs.Seal.{hmac, seal_digits};

use crate::blocks::{block_of, with_pad};
use lang_base::{NoMemory, Text};
use sha2::{Digest, Sha256};
use std::alloc::Global;

/// The seal of these bytes by this secret: HMAC-SHA-256.
#[tactic(auto, unfolding(crate::specs::Seal::hmac))]
pub fn seal(secret: &[u8], bytes: &[u8]) -> [u8; 32]
    ensures { result ≡ hmac secret.now bytes.now }
{
    let block = block_of(secret);
    let mut inner = Sha256::new();
    inner.update(with_pad(&block, 0x36).as_slice());
    inner.update(bytes);
    let mut outer = Sha256::new();
    outer.update(with_pad(&block, 0x5c).as_slice());
    outer.update(inner.finalize().as_slice());
    outer.finalize()
}

/// The seal in 64 lower-case hexadecimal digits.
pub fn seal_text(alloc: Global, secret: &[u8], bytes: &[u8]) -> Result<Text, NoMemory>
    ensures { IfOk result (λ text. text ≡ seal_digits secret.now bytes.now) }
{
    let seal = seal(secret, bytes);
    let digits = hex::encode(alloc, seal.as_slice())?;
    Text::shared(digits)
}

// Looks at each pair of bytes, whatever the earlier ones were.
fn is_same(left: &[u8], right: &[u8]) -> bool
    ensures { IsTrue result ↔ (left.now ≡ right.now) }
{
    if left.len() != right.len() {
        return false;
    }
    let mut differing = 0;
    for (i, byte) in left.iter().enumerate() {
        differing |= *byte ^ right[i];
    }
    differing == 0
}

/// Whether the text is the seal in lower-case digits. It takes no memory, and its steps are the same wherever a text of
/// 64 bytes differs from the seal.
pub fn check(secret: &[u8], bytes: &[u8], text: &str) -> bool
    ensures { IsTrue result ↔ (text.now ≡ seal_digits secret.now bytes.now) }
{
    let mut digits = [0u8; 64];
    let spelled = hex::encode_to_slice(seal(secret, bytes).as_slice(), &mut digits);
    spelled.is_ok() && is_same(text.as_bytes(), &digits)
}
