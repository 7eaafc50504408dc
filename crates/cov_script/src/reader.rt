// Lines that read a variant.
ghost use Rattle.std.specs.Prelude.{◌≡◌, ◌<◌, ◌^◌, length, IfOk};
ghost use Rattle.cov_script.specs.Grouping.{grouped};
ghost use Rattle.cov_script.specs.Readers.{is_reader, reads_variant};

use crate::read::read_line;
use crate::{Line, LineSyntax};
use cov_base::Memory;
use std::alloc::Global;

/// Whether a line has the form `cat` or `checkout`, of whatever length it is. It takes time in the line.
pub fn reads_variant(alloc: Global, line: &[u8]) -> Result<bool, Memory>
    requires { length line.now < 2 ^ 32 }
    ensures { IfOk result (λ reads. reads ≡ reads_variant line.now) }
{
    match read_line(alloc, line) {
        Ok(form) => {
            let reads = is_reader(&form);
            close(form);
            Ok(reads)
        }
        Err(LineSyntax::Memory) => Err(Memory),
        Err(LineSyntax::Syntax { .. }) => Ok(false),
        Err(LineSyntax::TooLong) => Ok(false),
    }
}

// Drops what a line says.
fn close(_form: Line) {}

fn is_reader(form: &Line) -> bool
    ensures { result ≡ is_reader (grouped form.now) }
{
    matches!(form, Line::Cat { .. } | Line::Checkout { .. })
}
