// Digits, of decimals and of hex. Hex is read in either case.
ghost use Rattle.std.specs.Prelude.{◌≡◌, ◌&&◌, ◌<◌, ltb};
ghost use Rattle.text_numbers.specs.Digit.{digit_of, digits};

// Gives what the digit x stands for, in either case; 16, which is no digit of any base here, for any other byte.
pub fn digit(x: u8) -> u8
    ensures { result ≡ digit_of x }
{
    match x {
        b'0'..=b'9' => x - b'0',
        b'A'..=b'F' => x - b'A' + 10,
        b'a'..=b'f' => x - b'a' + 10,
        _ => 16,
    }
}

// Gives what the hex digit x stands for, with no test: what its last four bits are, and 9 more for a letter.
pub fn hex_digit(x: u8) -> u8
    requires { digit_of x < 16 }
    ensures { result ≡ digit_of x }
{
    x % 16 + x / 64 * 9
}

// Tells whether all were digits of the base, and x is one.
fn with_digit(all: bool, x: u8, base: u8) -> bool
    ensures { result ≡ (ltb (digit_of x) base && all) }
{
    if base <= digit(x) {
        return false;
    }
    all
}

// Tells whether every byte of s is a digit of the base. Of nothing it says yes; callers test the length. It looks at them all, so that many
// are looked at at once.
pub fn are_digits(s: &[u8], base: u8) -> bool
    ensures { result ≡ digits base s.now }
{
    let mut all = true;
    for x in s {
        all = with_digit(all, *x, base);
    }
    all
}
