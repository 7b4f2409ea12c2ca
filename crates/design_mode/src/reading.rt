// Reading a designs file.
ghost use Rattle.std.specs.Prelude.{◌≡◌, ◌≤◌, List, ℕ, length, IfOk, IfErr};
ghost use Rattle.plan_io.specs.Streams.{at_end};
ghost use Rattle.case_design.specs.Designs.{NamesColumns, rows_in};
ghost use Rattle.design_mode.specs.DesignFiles.{HasDesign, FoundNoDesign};

use case_design::{Design, DesignStop, read_design};
use plan_io::Source;
use run_parts::{Code, read_input};
use std::alloc::Global;

/// How many bytes a designs file may have.
const MOST_BYTES: usize = 262144;

// What a designs file that is read to its end asks for; or the code of the run where it asks for nothing.
pub(crate) fn read_file<S: Source>(alloc: Global, source: &mut S) -> Result<Design, Code>
    ensures design { IfOk result (λ design. (read : List ℕ) × (S.past source.new ≡ at_end (S.past source.old) read)
        × HasDesign read design) }
    ensures few { IfOk result (λ design. length (rows_in design) ≤ 256) }
    ensures columns { IfOk result NamesColumns }
    ensures no_design { IfErr result (λ code. FoundNoDesign (S.past source.old) code (S.past source.new)) }
{
    let bytes = read_input(alloc, source, MOST_BYTES)?;
    match read_design(alloc, &bytes) {
        Ok(design) => Ok(design),
        Err(DesignStop::NoHeader) => Err(Code::NoHeader),
        Err(DesignStop::TooManyRows) => Err(Code::TooManyRows),
        Err(DesignStop::Memory) => Err(Code::Memory),
    }
}
