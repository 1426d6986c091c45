//! The entries of a scan, in a script: a name, and options, which are the settings of its
//! configuration that aren't at their defaults. A word that is no entry gives some entry:
//! `parse.rt` then refuses the line, since it spells each input again and compares.
ghost use Rattle.std.specs.Prelude.{◌≡◌, ◌≢◌, ◌++◌, ◌∷◌, ℕ, ◌+◌, ◌≤◌, List, length, map, codes, decimal, IsTrue, IfOk, OnOk, MatchOption, All};
ghost use Rattle.std.specs.List.{slice_split, flat_map};
ghost use Rattle.servicedir.specs.Config.{is_served};
ghost use Rattle.servicedir.specs.declared.config.Config.{Config};
ghost use Rattle.svscan_core.specs.declared.entry.Entry.{Entry};
ghost use Rattle.s6_script.specs.declared.entry_options.Setting.{Setting};
ghost use Rattle.s6_script.specs.Options.{where_so, settings, with_setting, option_word, option_words, behind_name, entry_text, ends_part, config_text, IsSetting, IsConfig, IsEntry};

use super::digits::push_number;
use super::words::{Words, is_word, name_of, number, word_at, words_from};
use arrayvec::ArrayVec;
use servicedir::Config;
use std::alloc::{AllocError, Allocator};
use tree_core::Entry;

// A field of a configuration that isn't at its default.
#[derive(Clone, Copy, Debug, Default, PartialEq, Eq)]
pub enum Setting {
    // The service is not started when its supervisor starts.
    #[default]
    Down,
    // It has a finish.
    Finish,
    // It writes its readiness to this descriptor.
    Notify(u8),
    // How many milliseconds after a service was told to go down it gets SIGKILL.
    Kill(u32),
    // How many milliseconds after its start a finish that still lives gets SIGKILL.
    FinishTime(u32),
    // How many deaths are kept.
    Tally(u16),
    // This signal tells the service to go down.
    Signal(u8),
}

// The settings of a configuration, in the order in which they are written.
pub type Settings = ArrayVec<Setting, 7>;

// Puts a setting into the configuration.
pub fn set(config: &mut Config, setting: Setting)
    ensures { config.new ≡ with_setting config.old setting }
{
    match setting {
        Setting::Down => config.down = true,
        Setting::Finish => config.finish = true,
        Setting::Notify(descriptor) => config.notification_fd = Some(descriptor),
        Setting::Kill(millis) => config.timeout_kill = millis,
        Setting::FinishTime(millis) => config.timeout_finish = millis,
        Setting::Tally(deaths) => config.max_death_tally = deaths,
        Setting::Signal(signal) => config.down_signal = signal,
    }
}

// Adds the setting to the list if `so`: where the configuration isn't at its default.
fn add_where(list: &mut Settings, so: bool, setting: Setting)
    requires { length list.old.items ≤ 6 }
    ensures items { list.new.items ≡ list.old.items ++ where_so so setting }
    ensures few { length list.new.items ≤ length list.old.items + 1 }
{
    if so {
        list.push(setting);
    }
}

// The settings of a configuration that aren't at their defaults.
pub fn settings_of(config: &Config) -> Settings
    ensures { result.items ≡ settings config.now }
{
    // A configuration in which all is at its default.
    let plain = Config::plain();
    let mut list = Settings::new();
    add_where(&mut list, config.down, Setting::Down);
    add_where(&mut list, config.finish, Setting::Finish);
    if let Some(descriptor) = config.notification_fd {
        list.push(Setting::Notify(descriptor));
    }
    let kill = config.timeout_kill;
    let finish_time = config.timeout_finish;
    let tally = config.max_death_tally;
    let signal = config.down_signal;
    add_where(&mut list, kill != plain.timeout_kill, Setting::Kill(kill));
    add_where(
        &mut list,
        finish_time != plain.timeout_finish,
        Setting::FinishTime(finish_time),
    );
    add_where(
        &mut list,
        tally != plain.max_death_tally,
        Setting::Tally(tally),
    );
    add_where(
        &mut list,
        signal != plain.down_signal,
        Setting::Signal(signal),
    );
    list
}

// Adds to the text an option of this key and value.
fn push_value<A: Allocator>(text: &mut Vec<u8, A>, key: &str, value: u64) -> Result<(), AllocError>
    ensures { OnOk result (text.new.items ≡ text.old.items ++ (key.now ++ decimal value)) }
{
    text.extend_from_slice(key.as_bytes())?;
    push_number(text, value)
}

// Adds to the text the option that spells a setting.
fn push_option<A: Allocator>(text: &mut Vec<u8, A>, setting: Setting) -> Result<(), AllocError>
    ensures { OnOk result (text.new.items ≡ text.old.items ++ option_word setting) }
{
    match setting {
        Setting::Down => text.extend_from_slice(b"down"),
        Setting::Finish => text.extend_from_slice(b"finish"),
        Setting::Notify(descriptor) => push_value(text, "notify=", u64::from(descriptor)),
        Setting::Kill(millis) => push_value(text, "kill=", u64::from(millis)),
        Setting::FinishTime(millis) => push_value(text, "fintime=", u64::from(millis)),
        Setting::Tally(deaths) => push_value(text, "tally=", u64::from(deaths)),
        Setting::Signal(signal) => push_value(text, "signal=", u64::from(signal)),
    }
}

// Adds the options to the text, a colon before the first and a comma before each further one.
fn push_options<A: Allocator>(text: &mut Vec<u8, A>, settings: &[Setting]) -> Result<(), AllocError>
    ensures { OnOk result (text.new.items
        ≡ text.old.items ++ behind_name (map option_word settings.now)) }
{
    let mut mark = b':';
    for setting in settings {
        text.push(mark)?;
        push_option(text, *setting)?;
        mark = b',';
    }
    Ok(())
}

// Adds to the text the options of the configuration, or `!` where none could be read of the
// directory.
fn push_config<A: Allocator>(
    text: &mut Vec<u8, A>,
    config: &Option<Config>,
) -> Result<(), AllocError>
    ensures { OnOk result (text.new.items ≡ text.old.items ++ config_text config.now) }
{
    match config {
        None => text.push(b'!')?,
        Some(config) => push_options(text, settings_of(config).as_slice())?,
    }
    Ok(())
}

// Adds the entry to the text: its name, and right behind it its options or `!`.
fn push_entry<A: Allocator>(text: &mut Vec<u8, A>, entry: &Entry) -> Result<(), AllocError>
    ensures { OnOk result (text.new.items ≡ text.old.items ++ entry_text entry.now) }
{
    text.extend_from_slice(entry.name.as_bytes())?;
    push_config(text, &entry.config)
}

// Adds each entry to the text, behind a space.
pub fn push_entries<A: Allocator>(
    text: &mut Vec<u8, A>,
    entries: &[Entry],
) -> Result<(), AllocError>
    ensures { OnOk result (text.new.items
        ≡ text.old.items ++ flat_map (λ e. 32 ∷ entry_text e) entries.now) }
{
    for entry in entries {
        text.push(b' ')?;
        push_entry(text, entry)?;
    }
    Ok(())
}

// The word without the key with which it begins; None where it doesn't begin with the key.
fn value_of<'a>(word: &'a [u8], key: &[u8]) -> Option<&'a [u8]>
    ensures { MatchOption result ((value : List ℕ) → word.now ≢ key.now ++ value)
        (λ value. word.now ≡ key.now ++ value.now) }
{
    word.strip_prefix(key)
}

// Reads a descriptor on which a service may say that it is ready: 1, or 3 to 9.
fn descriptor_of(word: &[u8]) -> u8
    ensures spelled { (n : ℕ) → IsTrue (is_served n) → word.now ≡ decimal n → result ≡ n }
    ensures fits { IsTrue (is_served result) }
{
    match number(word, 9) as u8 {
        // Readiness can't be written to these: the option is spelled otherwise with 1, and so
        // refused.
        0 | 2 => 1,
        descriptor => descriptor,
    }
}

// Reads a signal.
fn signal_of(word: &[u8]) -> u8
    ensures spelled { (n : ℕ) → 1 ≤ n → n ≤ 64 → word.now ≡ decimal n → result ≡ n }
    ensures low { 1 ≤ result }
    ensures high { result ≤ 64 }
{
    // No signal has the number 0: the option is spelled otherwise with 1, and so refused.
    number(word, 64).max(1) as u8
}

// Reads a number of milliseconds, of at most 32 bits.
fn millis_of(word: &[u8]) -> u32
    ensures spelled { (n : ℕ) → n ≤ 4294967295 → word.now ≡ decimal n → result ≡ n }
{
    number(word, u64::from(u32::MAX)) as u32
}

// Reads an option of an entry: its key tells which setting it is, and what stands behind the key is
// the value.
fn setting_of(word: &[u8]) -> Setting
    ensures spelled { (s : Setting) → IsSetting s → word.now ≡ option_word s → result ≡ s }
    ensures fits { IsSetting result }
{
    if is_word(word, b"finish") {
        Setting::Finish
    } else if let Some(value) = value_of(word, b"notify=") {
        Setting::Notify(descriptor_of(value))
    } else if let Some(value) = value_of(word, b"kill=") {
        Setting::Kill(millis_of(value))
    } else if let Some(value) = value_of(word, b"fintime=") {
        Setting::FinishTime(millis_of(value))
    } else if let Some(value) = value_of(word, b"tally=") {
        Setting::Tally(number(value, 4096) as u16)
    } else if let Some(value) = value_of(word, b"signal=") {
        Setting::Signal(signal_of(value))
    } else {
        // It is `down`, or no option: that is spelled otherwise, and so refused.
        Setting::Down
    }
}

// Reads the options of an entry: each changes one setting of a plain configuration.
fn config_of(options: &[&[u8]]) -> Config
    ensures spelled { (c : Config) → IsConfig c → map (λ w. w.now) options.now ≡ option_words c
        → result ≡ c }
    ensures fits { IsConfig result }
{
    let mut config = Config::plain();
    for option in options {
        set(&mut config, setting_of(*option));
    }
    config
}

// The parts of an entry: its name, and its options. The name ends with a colon, each option but the
// last with a comma.
fn parts_of<A: Allocator + Copy>(alloc: A, word: &[u8]) -> Result<Vec<&[u8], A>, AllocError>
    ensures { IfOk result (λ parts. map (λ w. w.now) parts.items ≡ slice_split ends_part word.now) }
{
    word.split(|b| *b == b':' || *b == b',').collect(alloc)
}

// The name of an entry whose directory couldn't be read, which ends with `!`; None where the word
// doesn't.
fn unread_name(word: &[u8]) -> Option<&[u8]>
    ensures { MatchOption result ((name : List ℕ) → word.now ≢ name ++ codes "!")
        (λ name. word.now ≡ name.now ++ codes "!") }
{
    word.strip_suffix(b"!")
}

// Reads an entry: a name with `!` behind it, where its directory couldn't be read, or with the
// options of its configuration.
fn entry_of<A: Allocator + Copy>(alloc: A, word: &[u8]) -> Result<Entry, AllocError>
    ensures spelled { IfOk result
        (λ found. (e : Entry) → IsEntry e → word.now ≡ entry_text e → found ≡ e) }
    ensures fits { IfOk result IsEntry }
{
    if let Some(name) = unread_name(word) {
        return Ok(Entry {
            name: name_of(name),
            config: None,
        });
    }
    let parts = parts_of(alloc, word)?;
    // The first part is the name; the parts from place 1 on are the options.
    let name = name_of(word_at(parts.as_slice(), 0));
    let config = config_of(words_from(parts.as_slice(), 1));
    Ok(Entry {
        name,
        config: Some(config),
    })
}

// Reads entries, one for each word that is left.
pub fn entries_of<A: Allocator + Copy>(
    alloc: A,
    words: &mut Words<'_>,
) -> Result<Vec<Entry, A>, AllocError>
    ensures spelled { IfOk result (λ found. (entries : List Entry) → All IsEntry entries
        → words.old ≡ map entry_text entries → found.items ≡ entries) }
    ensures fits { IfOk result (λ found. All IsEntry found.items) }
{
    let mut entries = Vec::new(alloc);
    while words.has_more() {
        entries.push(entry_of(alloc, words.take_next())?)?;
    }
    Ok(entries)
}
