ghost use Rattle.std.specs.Prelude.{◌≡◌, ◌≤◌, length, IfSome};
ghost use Rattle.proxy_config.specs.Texts.{short_number};
ghost use Rattle.proxy_config.specs.Steps.{digits_number};

// The number that 1 to 5 digits stand for, if it is at most `most`.
#[tactic(auto, unfolding(crate::specs::Texts::short_number))]
pub(crate) fn short_number(most: u32, word: &[u8]) -> Option<u32>
    ensures number { result ≡ short_number most word.now }
    ensures bound { IfSome result (λ n. n ≤ most) }
{
    if word.is_empty() || word.len() > 5 {
        return None;
    }
    let number = digits_number(word)?;
    if number <= most { Some(number) } else { None }
}

// The number that some digits stand for.
fn digits_number(word: &[u8]) -> Option<u32>
    requires { length word.now ≤ 5 }
    ensures { result ≡ digits_number word.now }
{
    let mut number = 0u32;
    for digit in word {
        if !digit.is_ascii_digit() {
            return None;
        }
        number = number * 10 + (*digit - b'0') as u32;
    }
    Some(number)
}
