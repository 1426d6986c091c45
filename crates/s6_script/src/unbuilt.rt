//! What was read from the words of an act, where the pattern of a subscription isn't built yet, and
//! building that pattern.
ghost use Rattle.std.specs.Prelude.{◌≡◌, ◌≢◌, ◌↔◌, Err, IfOk, IsErrOf, IsTrue, false};
ghost use Rattle.event_directory.specs.Pattern.{is_expression, is_pattern_text};
ghost use Rattle.s6_script.specs.Spelling.{HasExpression, IsAct, IsSubscription};
ghost use Rattle.s6_script.specs.Unbuilt.{act_read, pattern_line_fault, FitsButText};

use super::parse::LineFault;
use event_directory::{Pattern, PatternFault};
use std::alloc::{Allocator, Global};
use tree_core::{Act, Target};

// An act that was read: a whole one, or a subscription with the text of its pattern, which isn't
// built yet, and whether it goes on after a match. The text may be that of no pattern.
#[derive(Drop)]
pub enum UnbuiltAct<A: Allocator> {
    Whole(Act<A>),
    Subscribe(Target, String<A>, bool),
}

// Builds a pattern, with memory from `patterns`. `Line` where the text is not one of 1 to 256 bytes
// between a space and a tilde.
fn build_pattern(patterns: Global, text: &str) -> Result<Pattern, LineFault>
    ensures ok { IfOk result (λ pattern. pattern ≡ text.now) }
    ensures expression { IfOk result (λ _. IsTrue (is_expression text.now)) }
    ensures line { IsErrOf result LineFault.Line ↔ (is_pattern_text text.now ≡ false) }
{
    match Pattern::build(patterns, text) {
        Ok(pattern) => Ok(pattern),
        Err(fault) => Err(line_fault_of(fault)),
    }
}

// What is wrong with a line whose pattern was not built: a text of a length or with a byte that no
// pattern has is no part of any input.
fn line_fault_of(fault: PatternFault) -> LineFault
    ensures { result ≡ pattern_line_fault fault }
{
    match fault {
        PatternFault::Length => LineFault::Line,
        PatternFault::Refused => LineFault::Pattern,
        PatternFault::NoMemory => LineFault::NoMemory,
    }
}

// Builds the pattern of an act that has one to be built, with memory from `patterns`; any other act
// is whole. `Line` where the pattern's text is not one of 1 to 256 bytes between a space and a
// tilde.
pub fn build_act<A: Allocator>(patterns: Global, act: UnbuiltAct<A>) -> Result<Act<A>, LineFault>
    ensures ok { IfOk result (λ built. built ≡ act_read act) }
    ensures expression { FitsButText act → IfOk result HasExpression }
    ensures fits { result ≢ Err LineFault.Line → FitsButText act → IsAct (act_read act) }
    ensures line { result ≡ Err LineFault.Line → IsAct (act_read act) → ⊥ }
    ensures pattern { result ≡ Err LineFault.Pattern → IsSubscription (act_read act) }
{
    match act {
        UnbuiltAct::Whole(act) => Ok(act),
        UnbuiltAct::Subscribe(target, text, repeats) => {
            let pattern = build_pattern(patterns, &text)?;
            Ok(Act::Subscribe(target, pattern, repeats))
        }
    }
}
