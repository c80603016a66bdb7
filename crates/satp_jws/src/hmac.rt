ghost use Rattle.std.specs.Prelude.{◌≡◌, ◌-◌, ◌≤◌, ◌++◌, length, replicate};
ghost use Rattle.sha2.specs.Sha256.{sha256};
ghost use Rattle.satp_base.specs.Signatures.{hmac, key_block, xor_each};

use sha2::{Digest, Sha256};

/// The bytes of a block of SHA-256.
const BLOCK: usize = 64;

/// HMAC with SHA-256 (RFC 2104) of a message under a key of any length.
pub fn hmac_sha256(key: &[u8], message: &[u8]) -> [u8; 32]
    ensures { result ≡ hmac key.now message.now }
{
    let block = key_block(key);
    let inner = hash_of_both(&xor_each(0x36, &block), message);
    hash_of_both(&xor_each(0x5c, &block), &inner)
}

fn hash_of_both(first: &[u8], second: &[u8]) -> [u8; 32]
    ensures { result ≡ sha256 (first.now ++ second.now) }
{
    let mut hasher = Sha256::new();
    hasher.update(first);
    hasher.update(second);
    hasher.finalize()
}

/// The key as one block; a key over the block is hashed first.
fn key_block(key: &[u8]) -> [u8; 64]
    ensures { result ≡ key_block key.now }
{
    if key.len() > BLOCK {
        return block_of(&Sha256::digest(key));
    }
    block_of(key)
}

/// The bytes, and zeros behind them.
fn block_of(bytes: &[u8]) -> [u8; 64]
    requires { length bytes.now ≤ 64 }
    ensures { result ≡ bytes.now ++ replicate (64 - length bytes.now) 0 }
{
    let mut block = [0; BLOCK];
    block[..bytes.len()].copy_from_slice(bytes);
    block
}

fn xor_each(byte: u8, block: &[u8; 64]) -> [u8; 64]
    ensures { result ≡ xor_each byte block.now }
{
    let mut masked = [0; BLOCK];
    for index in 0..BLOCK {
        masked[index] = byte ^ block[index];
    }
    masked
}
