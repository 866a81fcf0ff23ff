// Bytes as a script writes them: two hexadecimal digits each, or `-` for no bytes at all.
ghost use Rattle.std.specs.Prelude.{ℕ, IfOk, vec_items, MatchOption};
ghost use Rattle.words.specs.Bytes.{ReadsBytes, TwoDigits};

use std::alloc::{AllocError, Global};

// The byte that two hexadecimal digits write.
fn byte(high: u8, low: u8) -> Option<u8>
    ensures { MatchOption result ((b : ℕ) → TwoDigits high low b → ⊥) (TwoDigits high low) }
{
    let sixteens = char::from(high).to_digit(16)?;
    let ones = char::from(low).to_digit(16)?;
    Some((16 * sixteens + ones) as u8)
}

pub fn read_bytes(heap: Global, word: &str) -> Result<Option<Vec<u8>>, AllocError>
    ensures { IfOk result (λ o. ReadsBytes vec_items word.now o) }
{
    let mut found = Vec::new(heap);
    if word == "-" {
        return Ok(Some(found));
    }
    let (pairs, rest) = word.as_bytes().as_chunks::<2>();
    if !rest.is_empty() {
        return Ok(None);
    }
    for [high, low] in pairs {
        let Some(b) = byte(*high, *low) else {
            return Ok(None);
        };
        found.push(b)?;
    }
    Ok(Some(found))
}
