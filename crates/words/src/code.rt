// Reads the numbers that a user writes.
ghost use Rattle.std.specs.Prelude.{◌≡◌, ◌<◌, ◌≤◌, MatchOption};
ghost use Rattle.words.specs.Numeral.{worth, Reading, radix_of, digits_of};

// Why a text is no number that is taken.
#[derive(Clone, Copy)]
pub enum Refusal {
    NotANumber,
    TooLarge,
}

// Not to_digit: its contract speaks of characters, and `worth` of bytes.
// The digit that a character is in a base up to 16, in either case of its letters.
fn digit(c: u8, base: u64) -> Option<u64>
    requires { base ≤ 16 }
    ensures cases { MatchOption result (base ≤ worth c) (λ d. (d ≡ worth c) × (d < base)) }
{
    let worth = match c {
        b'0'..=b'9' => c - b'0',
        b'A'..=b'F' => c - b'A' + 10,
        b'a'..=b'f' => c - b'a' + 10,
        _ => return None,
    };
    let worth = u64::from(worth);
    if worth < base { Some(worth) } else { None }
}

// Not from_str_radix: it takes a plus sign, and may call a text too large before it finds a letter in it.
// The number that digits write, if it is at most `most`. A text that is no number is refused as such however long it is.
fn number(digits: &[u8], base: u64, most: u32) -> Result<u32, Refusal>
    requires least { 1 ≤ base }
    requires largest { base ≤ 16 }
    ensures reading { Reading base most digits.now result }
{
    if digits.is_empty() {
        return Err(Refusal::NotANumber);
    }
    // Past `most` the value stays at the limit, so that it cannot wrap.
    let limit = u64::from(most) + 1;
    let mut value = 0u64;
    for c in digits {
        let Some(d) = digit(*c, base) else {
            return Err(Refusal::NotANumber);
        };
        value = (value * base + d).min(limit);
    }
    if value == limit {
        return Err(Refusal::TooLarge);
    }
    // It is at most `most`, so no try_from could fail.
    Ok(value as u32)
}

// The number that a text writes in decimal, or in hexadecimal after 0x or 0X, if it is at most `most`.
pub fn read(text: &[u8], most: u32) -> Result<u32, Refusal>
    ensures reading { Reading (radix_of text.now) most (digits_of text.now) result }
{
    match text {
        [b'0', b'x' | b'X', digits @ ..] => number(digits, 16, most),
        _ => number(text, 10, most),
    }
}
