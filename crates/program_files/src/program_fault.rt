//! Why a program can't be started, or not as it is written.

/// Why a program of a service, `run` or `finish`, can't be started, or not as it is written. Page
/// `servicedir` asks for an executable file; how Linux reads its first line is in execve(2).
#[derive(Clone, Copy, Debug, PartialEq, Eq)]
pub enum ProgramFault {
    /// Nobody may execute it.
    NotExecutable,
    /// It is a directory, a pipe or the like.
    NotRegular,
    /// It has no byte.
    Empty,
    /// It is no binary (ELF), and its first line names no interpreter: `#!` and a path.
    NoInterpreter,
    /// Its first line names an interpreter, and ends with a carriage return, which Linux takes as
    /// part of what stands before it.
    CarriageReturn,
    /// The interpreter isn't there.
    InterpreterAbsent,
    /// The interpreter's path doesn't begin with a slash, and the service's own directory, where it
    /// is looked for, has none of that name.
    InterpreterRelative,
    /// The interpreter is no regular file, or one that nobody may execute.
    InterpreterUnusable,
}
