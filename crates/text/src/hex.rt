ghost use Rattle.std.specs.Prelude.{◌≡◌, ◌+◌, ◌*◌, ◌<◌};
ghost use Rattle.text.specs.Hex.{glyph_of, meant, ReadAs};
ghost use Rattle.text.specs.declared.hex.HexFault.TheVariants.{Memory};

use std::alloc::{AllocFailed, Global};
use std::fmt;

// Why a text means no bytes.
#[derive(Clone, Copy, Debug, PartialEq, Eq)]
pub enum HexFault {
    // the byte at this offset is neither a digit nor white space
    NotDigit(usize),
    // the last digit has no second one
    Odd,
    // no memory is left for the bytes
    Memory,
}

impl<T: Drop> From<AllocFailed<T>> for HexFault {
    ghost from_gives = { λ _ fault. fault ≡ Memory };

    fn from(_e: AllocFailed<T>) -> HexFault {
        HexFault::Memory
    }
}

// What a byte of a text is; three cases, so neither an `Option` nor a `Result`.
#[derive(Clone, Copy, Debug, PartialEq, Eq)]
enum Glyph {
    Blank,
    Digit(u8),
    Other,
}

impl From<u8> for Glyph {
    ghost from_gives = { λ c glyph. glyph ≡ glyph_of c };

    fn from(c: u8) -> Glyph {
        match c {
            b' ' | b'\t' | b'\n' | b'\r' => Glyph::Blank,
            b'0'..=b'9' => Glyph::Digit(c - b'0'),
            b'A'..=b'F' => Glyph::Digit(c - b'A' + 10),
            b'a'..=b'f' => Glyph::Digit(c - b'a' + 10),
            _ => Glyph::Other,
        }
    }
}

// The byte of two digits.
fn byte(high: u8, low: u8) -> u8
    requires { (high < 16) × (low < 16) }
    ensures { result ≡ high * 16 + low }
{
    high * 16 + low
}

// The bytes that a hexadecimal text means, two digits each; white space counts for nothing,
// also between the two digits of a byte, so the text is not read in pairs.
pub fn bytes(heap: Global, text: &[u8]) -> Result<Vec<u8>, HexFault>
    ensures { ReadAs (meant text.now) result }
{
    let mut bytes = Vec::new(heap);
    let mut high = None;
    for (i, c) in text.iter().enumerate() {
        match Glyph::from(*c) {
            Glyph::Blank => {}
            Glyph::Other => return Err(HexFault::NotDigit(i)),
            Glyph::Digit(d) => match high.take() {
                None => high = Some(d),
                Some(h) => bytes.push(byte(h, d))?,
            },
        }
    }
    match high {
        None => Ok(bytes),
        Some(_) => Err(HexFault::Odd),
    }
}

// Bytes in upper-case digits, two each, with nothing between them.
#[derive(Clone, Copy, Debug, PartialEq, Eq)]
pub struct Hex<'a>(pub &'a [u8]);

impl fmt::Display for Hex<'_> {
    fn fmt<W: fmt::Write>(&self, f: &mut fmt::Formatter<W>) -> fmt::Result {
        for b in self.0 {
            write!(f, "{b:02X}")?;
        }
        Ok(())
    }
}
