// What the lines are made of: upper-case hexadecimal as the data sheets print it.
#![tactic(auto)]

ghost use Rattle.std.specs.Prelude.{◌≡◌, ◌%◌, get_or, Some};
ghost use Rattle.say.specs.Digits.{digits};
ghost use Rattle.say.specs.Text.{bytes_text, hex_text};

use std::fmt;

#[tactic(auto, using(crate::proofs::DigitLaws::figure, crate::proofs::DigitLaws::letter))]
fn digit(value: u8) -> u8
    ensures { result ≡ get_or digits (value % 16) 0 }
{
    let low = value % 16;
    if low < 10 { 48 + low } else { 55 + low }
}

// Bytes, two digits each, and a dash where there are none.
#[derive(Clone, Copy)]
pub struct Bytes<'a>(pub &'a [u8]);

impl fmt::Display for Bytes<'_> {
    ghost output = { λ bytes. Some (bytes_text bytes.0.now) };

    fn fmt<W: fmt::Write>(&self, f: &mut fmt::Formatter<W>) -> fmt::Result {
        if self.0.is_empty() {
            return f.write_str("-");
        }
        for byte in self.0 {
            f.write_char(digit(byte / 16) as char)?;
            f.write_char(digit(*byte) as char)?;
        }
        Ok(())
    }
}

// A number, and how many digits it has at least.
#[derive(Clone, Copy)]
pub struct Hex(pub u32, pub usize);

impl fmt::Display for Hex {
    ghost output = { λ hex. Some (hex_text hex.0 hex.1) };

    fn fmt<W: fmt::Write>(&self, f: &mut fmt::Formatter<W>) -> fmt::Result {
        let Hex(number, width) = *self;
        for place in (0..8).rev() {
            let rest = number >> (4 * place);
            if rest != 0 || place < width {
                f.write_char(digit((rest % 16) as u8) as char)?;
            }
        }
        Ok(())
    }
}
