//! The list of exits of a `permafailon`, in a script: reading it, and its spelling (the words by
//! which a script writes it).
ghost use Rattle.std.specs.Prelude.{◌≡◌, ◌++◌, ◌∷◌, [], unwrap_or, decimal, map, codes, IfOk, OnOk};
ghost use Rattle.std.specs.List.{flat_map, join_with_byte};
ghost use Rattle.servicedir.specs.SignalName.{name_of_signal};
ghost use Rattle.s6_script.specs.DeathList.{item_text, list_text};
ghost use Rattle.s6_script.specs.Spelling.{HasExpression, IsAct};
ghost use Rattle.s6_script.specs.Verb.{verb_of_act, details};
ghost use Rattle.s6_script.specs.declared.parse.Verb.TheVariants.{Permafailon};

use super::digits::{push_number, push_spaced};
use super::words::{Words, count_of, name_of};
use death_tally::{DeathItem, DeathList};
use s6_events::{Name, NoMemory};
use servicedir::signal_name;
use std::alloc::{AllocError, Allocator};
use tree_core::Act;

/// Reads a permafailon from the words behind its verb. Where the word for the list spells no list
/// of exits, it gives a tick: that has another spelling than the words, so `parse.rt` refuses the
/// line.
pub fn permafailon_of<A: Allocator + Copy>(
    alloc: A,
    words: &mut Words<'_>,
) -> Result<Act<A>, NoMemory>
    ensures spelled { IfOk result
        (λ found. (act : Act A) → IsAct act → Permafailon ≡ verb_of_act act
        → words.old ≡ details act → found ≡ act) }
    ensures fits { IfOk result (λ found. IsAct found × HasExpression found) }
{
    let name = name_of(words.take_next());
    let seconds = count_of(words.take_next());
    let count = count_of(words.take_next());
    match DeathList::parse(alloc, words.take_next())? {
        Some(list) => Ok(Act::Permafailon(name, seconds, count, list)),
        None => Ok(Act::Tick),
    }
}

// The name of a signal; nothing for a number that has none.
fn name_or_nothing(signal: u8) -> &'static str
    ensures { result.now ≡ unwrap_or (name_of_signal signal) [] }
{
    signal_name(signal).unwrap_or("")
}

// Adds an item of the list to the text: a code, as `7`, a range of codes, as `1-2`, or a signal, as
// `SIGTERM`.
fn push_item<A: Allocator>(text: &mut Vec<u8, A>, item: &DeathItem) -> Result<(), AllocError>
    ensures { OnOk result (text.new.items ≡ text.old.items ++ item_text item.now) }
{
    match *item {
        DeathItem::Code(code) => push_number(text, u64::from(code)),
        DeathItem::Range(low, high) => {
            push_number(text, u64::from(low))?;
            text.push(b'-')?;
            push_number(text, u64::from(high))
        }
        DeathItem::Signal(signal) => {
            text.extend_from_slice(b"SIG")?;
            text.extend_from_slice(name_or_nothing(signal).as_bytes())
        }
    }
}

// Adds more items of the list to the text, each behind a comma.
fn push_more_items<A: Allocator>(
    text: &mut Vec<u8, A>,
    items: &[DeathItem],
) -> Result<(), AllocError>
    ensures { OnOk result (text.new.items
        ≡ text.old.items ++ flat_map (λ item. 44 ∷ item_text item) items.now) }
{
    for item in items {
        text.push(b',')?;
        push_item(text, item)?;
    }
    Ok(())
}

// Adds a list of exits to the text: its items, with a comma between two.
fn push_items<A: Allocator>(text: &mut Vec<u8, A>, items: &[DeathItem]) -> Result<(), AllocError>
    ensures { OnOk result (text.new.items ≡ text.old.items ++ list_text items.now) }
{
    if let Some((first, more)) = items.split_first() {
        push_item(text, first)?;
        push_more_items(text, more)?;
    }
    Ok(())
}

/// Adds the words of a permafailon to the text: its verb, the name, the seconds, the count, and the
/// list of exits.
pub fn push_permafailon<A: Allocator>(
    text: &mut Vec<u8, A>,
    name: &Name,
    seconds: u32,
    count: u32,
    list: &DeathList,
) -> Result<(), AllocError>
    ensures { OnOk result (text.new.items ≡ text.old.items ++ join_with_byte 32
        (codes "permafailon" ∷ name.now ∷ decimal seconds ∷ decimal count ∷ list_text list.now
        ∷ [])) }
{
    push_permafailon_of(text, name, seconds, count, list.items())
}

// Adds the words of a permafailon to the text: its verb, the name, the seconds, the count, and the
// list of exits with these items.
pub fn push_permafailon_of<A: Allocator>(
    text: &mut Vec<u8, A>,
    name: &Name,
    seconds: u32,
    count: u32,
    items: &[DeathItem],
) -> Result<(), AllocError>
    ensures { OnOk result (text.new.items ≡ text.old.items ++ join_with_byte 32
        (codes "permafailon" ∷ name.now ∷ decimal seconds ∷ decimal count ∷ list_text items.now
        ∷ [])) }
{
    text.extend_from_slice(b"permafailon ")?;
    text.extend_from_slice(name.as_bytes())?;
    push_spaced(text, u64::from(seconds))?;
    push_spaced(text, u64::from(count))?;
    text.push(b' ')?;
    push_items(text, items)?;
    Ok(())
}
