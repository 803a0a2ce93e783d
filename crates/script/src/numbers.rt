// Numbers in base ten: a token read, and a number spelled.
ghost use Rattle.std.specs.Prelude.{◌≡◌, ◌<◌, [], ◌∷◌, length, drop};
ghost use Rattle.script.specs.Decimal.{number_of, valued, is_digit, spelled};

// Reads a token: one digit or more and nothing else, below 2^64. std's `parse` takes a sign too, which no script has.
pub fn value_of(token: &[u8]) -> Option<u64>
    ensures { result ≡ number_of token.now }
{
    if token.is_empty() {
        return None;
    }
    let mut value = 0;
    for byte in token {
        value = with_digit(value, *byte)?;
    }
    Some(value)
}

// A number with one more digit behind it.
#[tactic(auto, using(crate::proofs::Digits::no_digit, crate::proofs::Digits::too_large, crate::proofs::Digits::added))]
fn with_digit(value: u64, byte: u8) -> Option<u64>
    ensures { result ≡ valued value (byte ∷ []) }
{
    if !is_digit(byte) {
        return None;
    }
    let digit = u64::from(byte - b'0');
    value.checked_mul(10)?.checked_add(digit)
}

pub fn is_digit(byte: u8) -> bool
    ensures { result ≡ is_digit byte }
{
    byte.is_ascii_digit()
}

// Puts n's decimal digits, without leading zeros, at the end of out, which has 20 bytes, and answers where
// they begin. The project has its own definition of them (`spelled`), which std's `Display` does not speak of.
pub fn spell(n: u64, out: &mut [u8]) -> usize
    requires { 20 ≡ length out.old }
    ensures { (result < 20) × (drop result out.new ≡ spelled 20 n) }
{
    let mut rest = n;
    let mut at = 20;
    while rest >= 10 {
        at -= 1;
        out[at] = b'0' + (rest % 10) as u8;
        rest /= 10;
    }
    at -= 1;
    out[at] = b'0' + rest as u8;
    at
}
