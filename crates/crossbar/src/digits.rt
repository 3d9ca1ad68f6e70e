// Numbers in two or five decimal digits, and bytes in two hexadecimal digits.
ghost use Rattle.std.specs.Prelude.{◌≡◌, Some};
ghost use Rattle.crossbar.specs.Text.{hex_digit, hex, two_digits, five_digits};

use std::fmt;

// The capital hexadecimal digit of the low four bits of a byte. Of single digits the library has small letters only.
pub fn hex_digit(value: u8) -> char
    ensures { result ≡ hex_digit value }
{
    let low = value % 16;
    char::from(if low < 10 {
        b'0' + low
    } else {
        b'A' + (low - 10)
    })
}

// A byte, shown in two hexadecimal digits.
#[derive(Clone, Copy)]
pub struct Hex(pub u8);

impl fmt::Display for Hex {
    ghost output = { λ b. Some (hex b.0) };

    #[tactic(auto, using(crate::proofs::Padded::hex_padded))]
    fn fmt<W: fmt::Write>(&self, f: &mut fmt::Formatter<W>) -> fmt::Result {
        let byte = self.0;
        write!(f, "{byte:02X}")
    }
}

// A number, shown in at least two decimal digits.
#[derive(Clone, Copy)]
pub struct TwoDigits(pub u8);

impl fmt::Display for TwoDigits {
    ghost output = { λ v. Some (two_digits v.0) };

    #[tactic(auto, using(crate::proofs::Padded::decimal_padded))]
    fn fmt<W: fmt::Write>(&self, f: &mut fmt::Formatter<W>) -> fmt::Result {
        let number = self.0;
        write!(f, "{number:02}")
    }
}

// A number, shown in five decimal digits.
#[derive(Clone, Copy)]
pub struct FiveDigits(pub u16);

impl fmt::Display for FiveDigits {
    ghost output = { λ v. Some (five_digits v.0) };

    #[tactic(auto, using(crate::proofs::Padded::five_padded))]
    fn fmt<W: fmt::Write>(&self, f: &mut fmt::Formatter<W>) -> fmt::Result {
        let number = self.0;
        write!(f, "{number:05}")
    }
}
