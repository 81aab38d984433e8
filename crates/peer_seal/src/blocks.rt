// The key as a block of 64 bytes.
ghost use Rattle.std.specs.Prelude.{◌≡◌, ◌-◌, ◌≤◌, ◌++◌, map, replicate, bit_xor, length};
ghost use Rattle.peer_seal.specs.Seal.{block_of};

use sha2::{Digest, Sha256};

fn filled(key: &[u8]) -> [u8; 64]
    requires { length key.now ≤ 64 }
    ensures { result ≡ key.now ++ replicate (64 - length key.now) 0 }
{
    let mut block = [0u8; 64];
    for (i, byte) in key.iter().enumerate() {
        block[i] = *byte;
    }
    block
}

/// A key as a block.
pub fn block_of(key: &[u8]) -> [u8; 64]
    ensures { result ≡ block_of key.now }
{
    if key.len() > 64 {
        let digest = Sha256::digest(key);
        return filled(&digest);
    }
    filled(key)
}

/// A block with each byte changed by the pad.
pub fn with_pad(block: &[u8], pad: u8) -> [u8; 64]
    requires { length block.now ≡ 64 }
    ensures { result ≡ map (λ byte. bit_xor byte pad) block.now }
{
    let mut padded = [0u8; 64];
    for (i, byte) in block.iter().enumerate() {
        padded[i] = *byte ^ pad;
    }
    padded
}
