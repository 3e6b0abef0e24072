// Prints a program.
ghost use Rattle.std.specs.Prelude.{◌≤◌, length};
ghost use Rattle.text.specs.Limits.{text_limit};
ghost use Rattle.machine.specs.Programs.{program_of};
ghost use Rattle.text.specs.Print.{printed};
ghost use Rattle.printer.specs.Prints.{Printed};
ghost use Rattle.text.specs.Reads.{SpellsJust};

use crate::page::Page;
use crate::short_buffer::ShortBuffer;
use machine::program::Program;

/// Writes the program's text into `out`, and tells its length; too short a buffer stays as it is, and the length due is told.
pub fn print(program: &Program, out: &mut [u8]) -> Result<usize, ShortBuffer>
    ensures value { Printed (printed (program_of program.now)) out.old result out.new }
    ensures fits { length (printed (program_of program.now)) ≤ text_limit }
    ensures back { SpellsJust (printed (program_of program.now)) (program_of program.now) }
{
    let mut page = Page::new();
    page.push_program(program);
    let text = page.text();
    let len = text.len();
    if len > out.len() {
        return Err(ShortBuffer { due: len });
    }
    out[..len].copy_from_slice(text);
    Ok(len)
}
