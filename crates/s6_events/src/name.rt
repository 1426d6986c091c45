//! Names of services and of free directories.
ghost use Rattle.std.specs.Prelude.{◌≡◌, ◌≤◌, length, if◌then◌else◌, nat_le, nat_eq, IsTrue, refl, Some};
ghost use Rattle.std.specs.Hash as fed;
ghost use Rattle.std.specs.Ordering.{nat_cmp};
ghost use Rattle.std.specs.Cmp.Lexicographic.{pointwise, slice_cmp, nat_list_eq_equiv, nat_list_cmp_total, texts_ties, texts_po};
ghost use Rattle.std.specs.Cmp.{partial_equiv_from_equiv};
ghost use Rattle.std.specs.Cmp.Rules.{hashing};
ghost use Rattle.std.specs.List.{list_all};
ghost use Rattle.std.proofs.Common.{rules};
ghost use Rattle.s6_events.specs.Name.{is_name, is_name_byte};

use std::cmp::Ordering;
use std::hash::{Hash, Hasher};
use std::marker::Model;

/// The most bytes of a name.
const NAME_LIMIT: usize = 64;

/// The name of a service or of a free event directory: 1 to 64 bytes of `A-Z a-z 0-9 . _ - @`, the
/// first of them no dot. Names are compared and ordered by their bytes. The alphabet and the length
/// are chosen here; page `s6-svscan` says that a name with a dot in front is not scanned.
#[derive(Clone, Copy, Debug)]
pub struct Name {
    bytes: [u8; 64],
    len: u8,
}

impl Model for Name {
    ghost use Rattle.std.specs.Prelude.{List, ℕ, take};
    ghost use Rattle.s6_events.specs.NameInverse.{from_text, IsPadded, inverse_proof};

    ghost Value = { List ℕ };

    ghost view = { λ n. take n.len n.bytes };

    ghost invariant = { IsPadded };

    ghost inverse = { from_text };

    ghost inverse_ok = { λ a h. inverse_proof a h };
}

impl Name {
    /// The name with these bytes; None where they are no name. They are copied to the front of a
    /// field of 64 bytes, and the rest of it stays 0.
    pub fn new(text: &[u8]) -> Option<Name>
        ensures { result ≡ (if is_name text.now then Some text.now else None) }
    {
        if !is_name_text(text) {
            return None;
        }
        let len = text.len();
        let mut bytes = [0; 64];
        let front = &mut bytes[..len];
        front.copy_from_slice(text);
        Some(Name {
            bytes,
            len: len as u8,
        })
    }

    // The name `-`, which fills the unused places of lists of fixed size.
    #[tactic(auto, unfolding(crate::specs::Name::is_name))]
    fn filler() -> Name {
        let mut bytes = [0; 64];
        bytes[0] = b'-';
        Name { bytes, len: 1 }
    }

    /// Its bytes.
    pub fn as_bytes(&self) -> &[u8]
        ensures bytes { result.now ≡ self.now }
        ensures name { IsTrue (is_name result.now) }
        ensures len { length result.now ≤ 64 }
    {
        &self.bytes[..self.len as usize]
    }
}

// Whether these bytes are a name: 1 to 64 bytes that a name may have, the first of them no dot.
#[tactic(auto, unfolding(crate::specs::Name::is_name))]
fn is_name_text(text: &[u8]) -> bool
    ensures value { result ≡ is_name text.now }
    ensures len { IsTrue result → length text.now ≤ 64 }
{
    if text.is_empty() || text.len() > NAME_LIMIT || text[0] == b'.' {
        return false;
    }
    are_name_bytes(text)
}

// Whether a name may have each of these bytes.
fn are_name_bytes(text: &[u8]) -> bool
    ensures { result ≡ list_all is_name_byte text.now }
{
    text.iter().all(|b| is_name_byte(*b))
}

// Whether a name may have this byte: an ASCII letter or digit, or one of `._-@`.
fn is_name_byte(b: u8) -> bool
    ensures { result ≡ is_name_byte b }
{
    matches!(b, b'A'..=b'Z' | b'a'..=b'z' | b'0'..=b'9' | b'.' | b'_' | b'-' | b'@')
}

impl PartialEq for Name {
    ghost eq = { pointwise nat_eq };

    ghost laws = { partial_equiv_from_equiv nat_list_eq_equiv };

    fn eq(&self, other: &Name) -> bool {
        self.as_bytes() == other.as_bytes()
    }
}

impl Eq for Name {
    ghost laws = { nat_list_eq_equiv };
}

impl PartialOrd for Name {
    ghost partial_cmp = { λ a b. Some (slice_cmp nat_cmp a b) };

    ghost laws = { texts_po };

    fn partial_cmp(&self, other: &Name) -> Option<Ordering> {
        Some(self.cmp(other))
    }
}

impl Ord for Name {
    ghost cmp = { slice_cmp nat_cmp };

    ghost total = { nat_list_cmp_total };

    ghost matches_partial_cmp = { λ a b. refl };

    ghost matches_eq = { texts_ties };

    fn cmp(&self, other: &Name) -> Ordering {
        self.as_bytes().cmp(other.as_bytes())
    }
}

impl Hash for Name {
    ghost hash_input = { fed.slice fed.u8 };

    ghost respects_eq = { Prim.search (hashing, rules) };

    fn hash<H: Hasher>(&self, state: &mut H) {
        self.as_bytes().hash(state);
    }
}

/// What fills the unused places of a list of fixed size.
impl Default for Name {
    // What fills the unused places of a list of fixed size: nobody reads it.
    fn default() -> Name {
        Name::filler()
    }
}
