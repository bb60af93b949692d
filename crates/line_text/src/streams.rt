//! The buffered streams of a program.
ghost use Rattle.std.specs.Prelude.{◌≡◌, IfOk, IfErr};
ghost use Rattle.std.specs.Io.Buffered.{reader_inner, writer_inner};
ghost use Rattle.std.specs.IoError.{error_kind};

use std::alloc::Global;
use std::io::{self, BufReader, BufWriter, ErrorKind, Read, Write};

/// A buffered reader and a buffered writer over these streams.
///
/// Refused only if it is out of memory; the streams are dropped then.
pub fn buffered<R: Read + Drop, W: Write + Drop>(
    alloc: Global,
    input: R,
    output: W,
) -> io::Result<(BufReader<R, Global>, BufWriter<W, Global>)>
    ensures input { IfOk result (λ streams. reader_inner streams.0 ≡ input) }
    ensures output { IfOk result (λ streams. writer_inner streams.1 ≡ output) }
    ensures refused { IfErr result (λ error. error_kind error ≡ ErrorKind.OutOfMemory) }
{
    let input = BufReader::new(alloc, input)?;
    let output = BufWriter::new(alloc, output)?;
    Ok((input, output))
}
