//! Reads the acts that come most often, a start, a death and a tick, word for word: what is read of
//! them needn't be spelled again and compared, as `parse.rt` does with other acts.
ghost use Rattle.std.specs.Prelude.{◌≡◌, ◌<◌, ◌≤◌, ◌^◌, ◌∷◌, ◌++◌, ℕ, List, [], Some, true, IfSome, IsSome, IsTrue, OnSome, decimal};
ghost use Rattle.s6_script.specs.Spelling.{act_words, HasExpression, IsAct, IsExit, SpellsAct};
ghost use Rattle.s6_script.specs.Verb.{details, exit_words, verb_of_act, verb_word};
ghost use Rattle.s6_script.specs.ReadActs.{is_read, HasShortNumbers};
ghost use Rattle.s6_script.specs.declared.parse.Verb.TheVariants as verbs;

use super::words::{Words, is_word, take_number};
use s6_events::{Exit, Sid};
use std::alloc::Allocator;
use tree_core::Act;

// Takes what names a run: the serial of its service, and its generation (the number of its start).
// None where the next words spell none.
fn take_life(words: &mut Words<'_>) -> Option<(Sid, u64)>
    ensures only { IfSome result (λ life. (life.0 < 2 ^ 64) × (life.1 < 2 ^ 64)
        × (words.old ≡ decimal life.0 ∷ decimal life.1 ∷ words.new)) }
    ensures all { (sid generation : ℕ) → (rest : List (List ℕ)) → sid < 10 ^ 19
        → generation < 10 ^ 19 → words.old ≡ decimal sid ∷ decimal generation ∷ rest
        → (result ≡ Some (sid, generation)) × (words.new ≡ rest) }
{
    let sid = Sid(take_number(words, u64::MAX)?);
    let generation = take_number(words, u64::MAX)?;
    Some((sid, generation))
}

// Takes an exit; None where the next words spell none.
fn take_exit(words: &mut Words<'_>) -> Option<Exit>
    ensures only { IfSome result
        (λ exit. IsExit exit × (words.old ≡ exit_words exit ++ words.new)) }
    ensures all { (exit : Exit) → IsExit exit → words.old ≡ exit_words exit
        → (result ≡ Some exit) × (words.new ≡ []) }
{
    let kind = words.take_next();
    if is_word(kind, b"code") {
        Some(Exit::Code(take_number(words, 255)? as u8))
    } else if is_word(kind, b"signal") {
        Some(Exit::Killed(take_number(words, 64)? as u8))
    } else {
        None
    }
}

// Takes what is told of a start, and puts it into `act`; None where the next words tell none, and
// then `act` is as it was.
fn take_started<A: Allocator>(words: &mut Words<'_>, act: &mut Act<A>) -> Option<()>
    ensures fits { OnSome result (IsAct act.new) }
    ensures words { OnSome result ((verb_of_act act.new ≡ verbs.Started)
        × (words.old ≡ details act.new ++ words.new)) }
    ensures all { (sid generation pid : ℕ) → sid < 10 ^ 19 → generation < 10 ^ 19 → 1 ≤ pid
        → pid ≤ 2147483647
        → words.old ≡ decimal sid ∷ decimal generation ∷ decimal pid ∷ []
        → IsSome result × (words.new ≡ []) }
{
    let (sid, generation) = take_life(words)?;
    // The greatest process number is 2147483647.
    let pid = take_number(words, 2_147_483_647)?;
    // Process numbers count from 1.
    if pid == 0 {
        return None;
    }
    *act = Act::Started(sid, generation, pid as u32);
    Some(())
}

// Takes what is told of a death, and puts it into `act`; None where the next words tell none, and
// then `act` is as it was.
fn take_death<A: Allocator>(words: &mut Words<'_>, act: &mut Act<A>) -> Option<()>
    ensures fits { OnSome result (IsAct act.new) }
    ensures words { OnSome result ((verb_of_act act.new ≡ verbs.Death)
        × (words.old ≡ details act.new ++ words.new)) }
    ensures all { (sid generation : ℕ) → (exit : Exit) → sid < 10 ^ 19 → generation < 10 ^ 19
        → IsExit exit → words.old ≡ decimal sid ∷ decimal generation ∷ exit_words exit
        → IsSome result × (words.new ≡ []) }
{
    let (sid, generation) = take_life(words)?;
    let exit = take_exit(words)?;
    *act = Act::Death(sid, generation, exit);
    Some(())
}

// Takes a start, a death or a tick, with its verb, and puts it into `act`; None where the words
// left spell none.
fn take_report<A: Allocator>(words: &mut Words<'_>, act: &mut Act<A>) -> Option<()>
    ensures fits { OnSome result (IsAct act.new) }
    ensures read { OnSome result (is_read act.new ≡ true) }
    ensures words { OnSome result (words.old ≡ act_words act.new ++ words.new) }
    ensures all { (told : Act A) → IsAct told → is_read told ≡ true → HasShortNumbers told
        → words.old ≡ act_words told → IsSome result × (words.new ≡ []) }
{
    let verb = words.take_next();
    if is_word(verb, b"started") {
        take_started(words, act)
    } else if is_word(verb, b"death") {
        take_death(words, act)
    } else if is_word(verb, b"tick") {
        *act = Act::Tick;
        Some(())
    } else {
        None
    }
}

/// Puts the start, the death or the tick that a text spells into `act`. False where it spells
/// another act or none, or where a serial or a generation is 10^19 or more: then nothing is said of
/// `act`, and whoever calls reads the text otherwise.
pub fn read_report<A: Allocator>(text: &[u8], act: &mut Act<A>) -> bool
    ensures found { IsTrue result → SpellsAct text.now act.new }
    ensures only { IsTrue result → (other : Act A) → SpellsAct text.now other → act.new ≡ other }
    ensures expression { IsTrue result → HasExpression act.new }
    ensures all { (told : Act A) → SpellsAct text.now told → is_read told ≡ true
        → HasShortNumbers told → IsTrue result }
{
    let mut words = Words::of(text);
    match take_report(&mut words, act) {
        // Where words are left, the text spells another act or none.
        Some(()) => !words.has_more(),
        None => false,
    }
}
