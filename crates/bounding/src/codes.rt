// The set of the type codes that a bounder met: a bit for each of the 28.
ghost use Rattle.std.specs.Prelude.{◌≡◌, ◌^◌, ◌<◌, IfOk, bit_or};
ghost use Rattle.bounding.specs.Numbers.{numbers};
ghost use Rattle.bounding.specs.Record as Record;

use crate::records::CodeSet;
use shapes::Code;
use std::alloc::{AllocError, Global};

// How many codes there are.
const CODES: u32 = 28;

// The place of a code's bit: places rise with the codes.
fn place(code: Code) -> u32
    ensures value { result ≡ Record.place code }
    ensures bound { result < 28 }
{
    u32::from(code.dim) * 7 + u32::from(code.kind) - 1
}

impl CodeSet {
    pub fn empty() -> CodeSet
        ensures { result.bits ≡ 0 }
    {
        CodeSet { bits: 0 }
    }

    // The set with that code too.
    pub fn with(self, code: Code) -> CodeSet
        ensures { result.bits ≡ bit_or self.bits (2 ^ Record.place code) }
    {
        CodeSet {
            bits: self.bits | (1 << place(code)),
        }
    }

    pub fn union(self, other: CodeSet) -> CodeSet
        ensures { result.bits ≡ bit_or self.bits other.bits }
    {
        CodeSet {
            bits: self.bits | other.bits,
        }
    }

    // The codes in rising order, each once.
    pub fn numbers(self, heap: Global) -> Result<Vec<u32>, AllocError>
        ensures { IfOk result (λ v. v.items ≡ numbers self.bits) }
    {
        let mut found = Vec::new(heap);
        // Each place of a bit in turn, from which its code is reckoned; the bits are read off from the lowest on, as `listed` has them.
        let mut rest = self.bits;
        for at in 0..CODES {
            if rest % 2 == 1 {
                found.push(1000 * (at / 7) + at % 7 + 1)?;
            }
            rest /= 2;
        }
        Ok(found)
    }
}
