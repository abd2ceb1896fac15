//! The procedures of a program, as `procs` lists them.

ghost use Rattle.std.specs.Prelude.{◌≡◌, Some, IfOk, string_bytes};
ghost use Rattle.dcc_top.specs.Procedures.{summary_line, procedure_lines, IsWhole};

use dcc_prog::Program;
use std::alloc::{AllocError, Global};
use std::fmt;

/// A procedure as it is listed.
#[derive(Clone, Copy, PartialEq, Eq, Debug)]
pub struct Summary {
    /// The offset of its first instruction in the code segment.
    pub entry: u16,
    /// The number of its instructions.
    pub nodes: usize,
    /// The number of its argument words on the stack.
    pub args: u16,
    /// The number of bytes that its RET removes.
    pub ret: u16,
}

impl fmt::Display for Summary {
    ghost output = { λ summary. Some (summary_line summary) };

    fn fmt<W: fmt::Write>(&self, f: &mut fmt::Formatter<W>) -> fmt::Result {
        let Summary {
            entry,
            nodes,
            args,
            ret,
        } = *self;
        write!(f, "{entry:04X} nodes {nodes} args {args} ret {ret}")
    }
}

/// The lines of a program: one for each procedure, the entry procedure first, and then the others by their entries.
pub fn procedure_lines(alloc: Global, program: &Program) -> Result<String, AllocError>
    requires { IsWhole program.now }
    ensures { IfOk result (λ lines. string_bytes lines ≡ procedure_lines program.now) }
{
    let mut lines = String::new(alloc);
    for (i, proc) in program.procs.iter().enumerate() {
        let summary = Summary {
            entry: proc.entry,
            nodes: proc.nodes.len(),
            args: program.cells.frames[i].args,
            ret: program.heights.ret[i],
        };
        let line = format!(in alloc; "{summary}\n")?;
        lines.push_str(line.as_str())?;
    }
    Ok(lines)
}
