// Decimal numbers.
ghost use Rattle.std.specs.Prelude.{◌≡◌};
ghost use Rattle.desk_parse.specs.Words.{next_value, numeral_of};

// What a decimal digit is read in.
const TEN: u32 = 10;

// The number that x goes on to with one digit more. Numbers are below 2^32.
#[tactic(auto, unfolding(crate::specs::Words::digit_of, crate::specs::Words::next_value))]
fn next_value(x: u32, d: u8) -> Option<u32>
    ensures { result ≡ next_value x d }
{
    let v = char::from(d).to_digit(TEN)?;
    x.checked_mul(TEN)?.checked_add(v)
}

// A word as a number below 2^32.
#[tactic(auto, using(crate::proofs::Digits::value_missing, crate::proofs::Digits::value_starts, crate::proofs::Digits::value_stops, crate::proofs::Digits::value_ends))]
pub fn numeral(word: &[u8]) -> Option<u32>
    ensures { result ≡ numeral_of word.now }
{
    if word.is_empty() {
        return None;
    }
    let mut x = 0;
    for d in word {
        x = next_value(x, *d)?;
    }
    Some(x)
}
