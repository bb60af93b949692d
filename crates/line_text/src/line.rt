//! Lines of a reader.
ghost use Rattle.std.specs.Prelude.{◌≡◌, ◌↔◌, [], false, IfOk, IfSome, OnOk};
ghost use Rattle.std.specs.Io.BufRead.{DropsThrough, first_line};

use std::io;
use std::io::BufRead;

/// Reads the next line without its end, which is a line feed and a carriage return before it, and returns
/// whether there was one.
///
/// The old content of `line` is dropped; after an error it may hold a part of the line. The error is a failed
/// read, or out of memory.
pub fn read_line<R: BufRead>(input: &mut R, line: &mut Vec<u8>) -> io::Result<bool>
    ensures line { OnOk result (IfSome (R.remaining input.old) (λ bytes. line.new.items ≡ first_line bytes)) }
    ensures rest { OnOk result (DropsThrough (R.remaining input.old) (R.remaining input.new) 10) }
    ensures end { IfOk result (λ is_line.
        IfSome (R.remaining input.old) (λ bytes. (is_line ≡ false) ↔ (bytes ≡ []))) }
{
    line.clear();
    if input.read_until(b'\n', line)? == 0 {
        return Ok(false);
    }
    if line.last() == Some(&b'\n') {
        let _ = line.pop();
        if line.last() == Some(&b'\r') {
            let _ = line.pop();
        }
    }
    Ok(true)
}
