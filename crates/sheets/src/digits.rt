// Numbers in two or three decimal digits, and bytes in two hexadecimal digits, as the bytes of a sheet.
ghost use Rattle.std.specs.Prelude.{◌≡◌, ◌<◌};
ghost use Rattle.crossbar.specs.Text.{hex, two_digits};
ghost use Rattle.sheets.specs.Sheets.{three_digits};

use crossbar::digits::hex_digit;

// A number below 100 in two decimal digits.
#[tactic(auto, using(crate::proofs::Rows::digits))]
pub(crate) fn two_digits(value: u8) -> [u8; 2]
    requires { value < 100 }
    ensures { result ≡ two_digits value }
{
    [b'0' + value / 10, b'0' + value % 10]
}

// A number below 1,000 in three decimal digits.
#[tactic(auto, using(crate::proofs::Rows::digits))]
pub(crate) fn three_digits(value: u16) -> [u8; 3]
    requires { value < 1000 }
    ensures { result ≡ three_digits value }
{
    let hundreds = (value / 100) as u8;
    let [tens, ones] = two_digits((value % 100) as u8);
    [b'0' + hundreds, tens, ones]
}

// A byte in two hexadecimal digits.
pub(crate) fn hex(byte: u8) -> [u8; 2]
    ensures { result ≡ hex byte }
{
    [hex_digit(byte / 16) as u8, hex_digit(byte) as u8]
}
