//! CRC-32C, the cyclic redundancy check with Castagnoli's polynomial (RFC 3720, appendix B.4), as record batches of
//! Kafka and iSCSI have it.
#![tactic(auto)]

ghost use Rattle.std.specs.Prelude.{◌≡◌, ℕ, ◌+◌, ◌*◌, ◌<◌, List, bit_xor};
ghost use Rattle.crc_castagnoli.specs.Division.{IsRemainder, bits_of, crc_of, remainder_after, steps};

mod tables;

use tables::byte_steps;

const ALL_ONES: u32 = 0xffff_ffff;

// One more than the greatest word.
const WORD: u128 = 0x1_0000_0000;

/// The check of the bytes: the remainder of their division by the polynomial, with all ones in and out.
pub fn crc32c(bytes: &[u8]) -> u32
    ensures value { result ≡ crc_of bytes.now }
    ensures remainder { IsRemainder bytes.now (bit_xor result ALL_ONES) }
{
    let mut left = ALL_ONES;
    let mut rest = bytes;
    while let Some((block, after)) = rest.split_first_chunk::<16>() {
        left = by_block(left, block);
        rest = after;
    }
    by_words(left, rest) ^ ALL_ONES
}

// Sixteen bytes at once. The division is linear, so each word of four bytes is divided by itself, behind it the words
// that follow it.
fn by_block(left: u32, block: &[u8; 16]) -> u32
    ensures { result ≡ remainder_after left (bits_of block.now) }
{
    let sum = u128::from_le_bytes(*block) ^ left as u128;
    let a = (sum % WORD) as u32;
    let b = (sum / WORD % WORD) as u32;
    let c = (sum / WORD / WORD % WORD) as u32;
    let d = (sum / WORD / WORD / WORD) as u32;
    // The last three words wait for nothing that the bytes before left.
    let back = word_steps(b, 2) ^ (word_steps(c, 1) ^ word_steps(d, 0));
    word_steps(a, 3) ^ back
}

// What is left of a word after its own steps and those of so many words behind it.
#[inline(always)]
fn word_steps(word: u32, behind: usize) -> u32
    requires { behind < 4 }
    ensures { result ≡ steps (32 * (behind + 1)) word }
{
    let [a, b, c, d] = word.to_le_bytes();
    let last = 4 * behind;
    let front = byte_steps(a, last + 3) ^ byte_steps(b, last + 2);
    let back = byte_steps(c, last + 1) ^ byte_steps(d, last);
    front ^ back
}

// Four bytes at a time.
fn by_words(mut left: u32, bytes: &[u8]) -> u32
    ensures { result ≡ remainder_after left (bits_of bytes.now) }
{
    let mut rest = bytes;
    while let Some((word, after)) = rest.split_first_chunk::<4>() {
        left = by_word(left, word);
        rest = after;
    }
    by_byte(left, rest)
}

fn by_word(left: u32, word: &[u8; 4]) -> u32
    ensures { result ≡ remainder_after left (bits_of word.now) }
{
    word_steps(u32::from_le_bytes(*word) ^ left, 0)
}

// A byte at a time.
fn by_byte(mut left: u32, bytes: &[u8]) -> u32
    ensures { result ≡ remainder_after left (bits_of bytes.now) }
{
    for byte in bytes {
        left = byte_steps(((left & 0xff) as u8) ^ *byte, 0) ^ (left >> 8);
    }
    left
}

/// A message has one remainder.
pub fn remainders_are_unique()
    ensures { (bytes : List ℕ) (remainder other : ℕ) → IsRemainder bytes remainder → IsRemainder bytes other → remainder ≡ other }
{}
