//! Bytes printed as hexadecimal digits, two a byte, `-` for none.
use amqp_link::Payload;
use std::fmt;

/// Prints bytes as lower-case digits, two a byte, and `-` where there are none.
#[derive(Clone, Copy)]
pub struct Hex<'a>(pub &'a [u8]);

impl fmt::Display for Hex<'_> {
    ghost use Rattle.std.specs.Prelude.{Some};
    ghost use Rattle.linkrun.specs.Hex.{hex_text};

    ghost output = { λ hex. Some (hex_text hex.0.now) };

    fn fmt<W: fmt::Write>(&self, f: &mut fmt::Formatter<W>) -> fmt::Result {
        if self.0.is_empty() {
            return f.write_str("-");
        }
        for byte in self.0 {
            let (high, low) = (byte / 16, byte % 16);
            write!(f, "{high:x}{low:x}")?;
        }
        Ok(())
    }
}

/// Prints the bytes of the pieces joined, as `Hex` prints bytes.
#[derive(Clone, Copy)]
pub struct HexPieces<'a>(pub &'a [Payload]);

impl fmt::Display for HexPieces<'_> {
    fn fmt<W: fmt::Write>(&self, f: &mut fmt::Formatter<W>) -> fmt::Result {
        let mut is_empty = true;
        for piece in self.0 {
            if !piece.is_empty() {
                is_empty = false;
                let digits = Hex(piece.as_slice());
                write!(f, "{digits}")?;
            }
        }
        if is_empty { f.write_str("-") } else { Ok(()) }
    }
}
