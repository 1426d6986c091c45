//! Scripts with what is expected of them, each written as one text. `# ` stands between two of
//! them.

/// A script, the answer in words, and what is written.
#[derive(Clone, Copy)]
pub struct Case<'a> {
    pub name: &'a str,
    pub script: &'a str,
    pub answer: &'a str,
    pub written: &'a str,
}

impl<'a> Case<'a> {
    /// Reads a case. Its name is the first line, and its script all up to the first `> `. The
    /// answer is the rest of that line, and what is written the lines behind it. What isn't there
    /// is empty; nothing gives an empty answer.
    pub fn read(text: &'a str) -> Case<'a> {
        let (name, behind_name) = text.split_once('\n').unwrap_or((text, ""));
        let (script, behind_script) = behind_name.split_once("> ").unwrap_or(("", ""));
        let (answer, written) = behind_script.split_once('\n').unwrap_or(("", ""));
        Case {
            name,
            script,
            answer,
            written,
        }
    }
}
