ghost use Rattle.std.specs.Prelude.{◌≡◌, ◌≢◌, ◌^◌, ◌<◌, ◌≤◌, ◌⊎◌, false, length, slice_get, IfSome, OnSome, IfNone};
ghost use Rattle.std.specs.Str.{all_ascii_digits};
ghost use Rattle.transcript.specs.Reading.{number_of};

use std::str;

/// The most digits of a number in a line.
const MOST_DIGITS: usize = 20;

// The word as text that `parse` takes for a number without a sign.
#[tactic(auto, using(crate::proofs::NumberLemmas::number_facts))]
fn digits_of(word: &[u8]) -> Option<&str>
    ensures text { IfSome result (λ text. text.now ≡ word.now) }
    ensures few { OnSome result (length word.now ≤ MOST_DIGITS) }
    ensures unsigned { OnSome result (slice_get word.now 0 ≢ Some 43) }
    ensures none { IfNone result ((MOST_DIGITS < length word.now) ⊎ (all_ascii_digits word.now ≡ false)) }
{
    if word.len() > MOST_DIGITS || word.first() == Some(&b'+') {
        return None;
    }
    str::from_utf8(word).ok()
}

/// The number of 64 bits that a word of digits stands for.
#[tactic(auto, using(crate::proofs::NumberLemmas::number_facts))]
pub fn number_u64(word: &[u8]) -> Option<u64>
    ensures { result ≡ number_of (2 ^ 64) word.now }
{
    digits_of(word)?.parse().ok()
}

/// The number of 32 bits that a word of digits stands for.
#[tactic(auto, using(crate::proofs::NumberLemmas::number_facts))]
pub fn number_u32(word: &[u8]) -> Option<u32>
    ensures { result ≡ number_of (2 ^ 32) word.now }
{
    digits_of(word)?.parse().ok()
}
