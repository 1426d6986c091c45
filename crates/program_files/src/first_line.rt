//! What the first line of a program says: which interpreter runs it. Linux looks at it where the
//! program is no binary: execve(2).
ghost use Rattle.std.specs.Prelude.{◌≡◌, ◌<◌, IfSome, length, not, option_map, position};
ghost use Rattle.program_files.specs.FirstLine.{is_binary, is_newline, first_line, is_blank, is_end, without_blanks, first_word, word_behind, interpreter_in, interpreter_of, fault_of_line, fault_of_text};

use crate::program_fault::ProgramFault;

/// What is wrong with a program, as far as its own bytes say. None also for each binary (ELF).
pub fn fault_of_text(text: &[u8]) -> Option<ProgramFault>
    ensures { result ≡ fault_of_text text.now }
{
    if text.is_empty() {
        return Some(ProgramFault::Empty);
    }
    if is_binary(text) {
        return None;
    }
    fault_of_line(first_line(text))
}

/// The path of the interpreter that runs a program of this text; None where it is a binary, or its
/// first line names none. The path is bytes, and may be relative.
pub fn interpreter_of(text: &[u8]) -> Option<&[u8]>
    ensures { option_map (λ path. path.now) result ≡ interpreter_of text.now }
{
    if is_binary(text) {
        return None;
    }
    interpreter_in(first_line(text))
}

// Whether the text is a binary of the form ELF, as its first four bytes say.
fn is_binary(text: &[u8]) -> bool
    ensures { result ≡ is_binary text.now }
{
    text.starts_with(b"\x7fELF")
}

// What is wrong with a first line.
fn fault_of_line(line: &[u8]) -> Option<ProgramFault>
    ensures { result ≡ fault_of_line line.now }
{
    if interpreter_in(line).is_none() {
        return Some(ProgramFault::NoInterpreter);
    }
    if line.ends_with(b"\r") {
        return Some(ProgramFault::CarriageReturn);
    }
    None
}

// The text up to its first newline.
fn first_line(text: &[u8]) -> &[u8]
    ensures { result.now ≡ first_line text.now }
{
    match newline_in(text) {
        Some(end) => &text[..end],
        None => text,
    }
}

// The place of the first newline of a text.
fn newline_in(text: &[u8]) -> Option<usize>
    ensures place { result ≡ position is_newline text.now }
    ensures bound { IfSome result (λ place. place < length text.now) }
{
    text.iter().position(|byte| *byte == b'\n')
}

// The interpreter that a first line names: the first word behind `#!`. None where it doesn't begin
// so, or there is no word.
fn interpreter_in(line: &[u8]) -> Option<&[u8]>
    ensures { option_map (λ path. path.now) result ≡ interpreter_in line.now }
{
    match line.strip_prefix(b"#!".as_slice()) {
        Some(rest) => word_behind(rest),
        None => None,
    }
}

// The first word of a text; None where it has none.
fn word_behind(text: &[u8]) -> Option<&[u8]>
    ensures { option_map (λ word. word.now) result ≡ word_behind text.now }
{
    let word = first_word(without_blanks(text));
    if word.is_empty() { None } else { Some(word) }
}

// The text from its first byte on that is no blank.
fn without_blanks(text: &[u8]) -> &[u8]
    ensures { result.now ≡ without_blanks text.now }
{
    match word_begin(text) {
        Some(begin) => &text[begin..],
        None => &text[text.len()..],
    }
}

// The place of the first byte of a text that is no blank.
fn word_begin(text: &[u8]) -> Option<usize>
    ensures place { result ≡ position (λ byte. not (is_blank byte)) text.now }
    ensures bound { IfSome result (λ place. place < length text.now) }
{
    text.iter().position(|byte| !is_blank(*byte))
}

// The text up to its first blank or zero byte.
fn first_word(text: &[u8]) -> &[u8]
    ensures { result.now ≡ first_word text.now }
{
    match word_end(text) {
        Some(end) => &text[..end],
        None => text,
    }
}

// The place of the first blank or zero byte of a text.
fn word_end(text: &[u8]) -> Option<usize>
    ensures place { result ≡ position is_end text.now }
    ensures bound { IfSome result (λ place. place < length text.now) }
{
    text.iter().position(|byte| is_end(*byte))
}

// Whether the byte is a space or a tab.
fn is_blank(byte: u8) -> bool
    ensures { result ≡ is_blank byte }
{
    byte == b' ' || byte == b'\t'
}

// Whether a word ends at this byte.
fn is_end(byte: u8) -> bool
    ensures { result ≡ is_end byte }
{
    is_blank(byte) || byte == 0
}
