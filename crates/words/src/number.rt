// Numbers as a script writes them: what `parse` reads, or `0x` and the 16 hexadecimal digits of the bits.
ghost use Rattle.words.specs.Readings.{Reads, ReadsHex};

use std::num::f64_from_bits_with_nan;

pub fn read_number(word: &str) -> Option<f64>
    ensures { Reads word.now result }
{
    match word.strip_prefix("0x") {
        Some(digits) => bits(digits).map(|bits| f64_from_bits_with_nan(bits)),
        None => word.parse().ok(),
    }
}

// The number that 16 hexadecimal digits write. A plus, which `from_str_radix` would read, is no digit.
#[tactic(auto, using(crate::proofs::Hex::hex_from_radix))]
fn bits(digits: &str) -> Option<u64>
    ensures { ReadsHex digits.now result }
{
    if digits.len() != 16 || digits.starts_with('+') {
        return None;
    }
    u64::from_str_radix(digits, 16).ok()
}
