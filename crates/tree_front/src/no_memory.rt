//! What is told where the system refused memory: a line for programs, and one for people.
ghost use Rattle.std.specs.Prelude.{◌≡◌, ◌++◌, ◌⊎◌, IfOk, OnOk};
ghost use Rattle.std.specs.Io.KnownBytes.{Appends};
ghost use Rattle.s6_script.specs.Writing.{AppendsFront};
ghost use Rattle.tree_front.specs.NoMemory.{no_memory_text};

use arrayvec::CapacityError;
use s6_script::write_whole;
use std::io::Write;
use tool_lines::FaultText;

/// The status of a program to which the system refused something.
const SYSTEM_STATUS: u8 = 111;

/// Tells by two lines that the system refused this program memory. Where they can't be written
/// whole, only their beginning is. Returns the exit status, 111.
pub fn tell_no_memory<E: Write>(program: &str, errors: &mut E) -> u8
    ensures status { result ≡ 111 }
    ensures lines { Appends (E.contents errors.old) (E.contents errors.new)
        (no_memory_text program.now)
        ⊎ AppendsFront (E.contents errors.old) (E.contents errors.new)
        (no_memory_text program.now) }
{
    if let Ok(told) = no_memory_lines(program) {
        let _ = write_whole(errors, told.as_slice());
    }
    SYSTEM_STATUS
}

// The two lines that tell that the system refused this program memory: `no memory` is for programs,
// the sentence is for people.
fn no_memory_lines(program: &str) -> Result<FaultText, CapacityError>
    ensures { IfOk result (λ told. told.items ≡ no_memory_text program.now) }
{
    let mut told = FaultText::new();
    add_line(&mut told, program, ": no memory\n")?;
    add_line(
        &mut told,
        program,
        ": the system refused memory; try again later\n",
    )?;
    Ok(told)
}

// Adds the line of a program.
fn add_line(told: &mut FaultText, program: &str, line: &str) -> Result<(), CapacityError>
    ensures { OnOk result (told.new.items ≡ told.old.items ++ (program.now ++ line.now)) }
{
    told.try_extend_from_slice(program.as_bytes())?;
    told.try_extend_from_slice(line.as_bytes())
}
