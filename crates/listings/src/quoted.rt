// Bytes as text.
ghost use Rattle.std.specs.Prelude.{◌≡◌, ◌++◌, Some, IfOk, string_bytes};
ghost use Rattle.listings.specs.Quoted.{is_plain, escaped, quoted};

use crossbar::digits::Hex;
use std::alloc::AllocError;
use std::fmt;

// Whether a byte is shown as the character that it is: one of ASCII that prints, but neither a quotation mark nor a backslash.
fn is_plain(byte: u8) -> bool
    ensures { result ≡ is_plain byte }
{
    (0x20..0x7F).contains(&byte) && byte != b'"' && byte != b'\\'
}

// A byte of a text: shown as it is, or as a backslash and two hexadecimal digits.
#[derive(Clone, Copy)]
pub(crate) struct Escaped(pub u8);

impl fmt::Display for Escaped {
    ghost output = { λ b. Some (escaped b.0) };

    fn fmt<W: fmt::Write>(&self, f: &mut fmt::Formatter<W>) -> fmt::Result {
        let byte = self.0;
        if is_plain(byte) {
            let plain = char::from(byte);
            write!(f, "{plain}")
        } else {
            let hex = Hex(byte);
            write!(f, "\\{hex}")
        }
    }
}

// Adds the bytes to a text, between quotation marks.
#[tactic(auto, using(crate::proofs::Quoting::quoting))]
pub(crate) fn quote(text: &mut String, bytes: &[u8]) -> Result<(), AllocError>
    ensures { IfOk result (λ _. string_bytes text.new ≡ string_bytes text.old ++ quoted bytes.now) }
{
    text.push('"')?;
    for &byte in bytes {
        write!(text, "{}", Escaped(byte))?;
    }
    text.push('"')
}
