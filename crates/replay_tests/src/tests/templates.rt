//! Texts that are made of templates.
use std::alloc::{AllocError, Global};

/// A template, and how many times it stands in a text.
pub type Part = (u32, &'static str);

// Adds a template: `#` stands for this number, `@` for the next one, `~` for it in two digits, `%`
// for it in three.
fn push_letter(text: &mut String, letter: char, number: u32) -> Result<(), AllocError> {
    match letter {
        '#' => write!(text, "{number}"),
        '@' => write!(text, "{}", number.saturating_add(1)),
        '~' => write!(text, "{number:02}"),
        '%' => write!(text, "{number:03}"),
        _ => text.push(letter),
    }
}

/// Adds a template to the text, for this number.
pub fn push_template(text: &mut String, template: &str, number: u32) -> Result<(), AllocError> {
    for letter in template.chars() {
        push_letter(text, letter, number)?;
    }
    Ok(())
}

/// The text that begins so, and has these parts behind it, each for the numbers from 1 on.
pub fn make_text(alloc: Global, first: &str, parts: &[Part]) -> Result<String, AllocError> {
    let mut text = String::new(alloc);
    text.push_str(first)?;
    for (count, template) in parts {
        for number in 0..*count {
            push_template(&mut text, *template, number.saturating_add(1))?;
        }
    }
    Ok(text)
}
