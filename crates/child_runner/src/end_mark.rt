//! The mark that is written behind the last byte of a child, so that the thread that reads its
//! output knows where that ends.
ghost use Rattle.std.specs.Prelude.{◌≡◌, ◌≤◌, ◌↔◌, ℕ, IsTrue, length, drop, true, false};
ghost use Rattle.memchr.specs.Find.{OccursAt};
ghost use Rattle.child_runner.specs.EndMark.{end_mark, BeginsMark};

use memchr::{memmem, memrchr};

/// The mark is written to a child's pipe once the child has ended, behind all that it wrote. So its
/// reader stops there, even where another program keeps the descriptor open. It is written in one
/// go, and no program writes it by chance. Its first byte occurs in it only once.
pub(crate) const END_MARK: [u8; 16] = *b"\0child-has-ended";

/// How much of a child's output that was read may be told to the tree.
#[derive(Clone, Copy, PartialEq, Eq, Debug)]
pub(crate) struct Telling {
    /// How many bytes are the child's.
    pub count: usize,
    /// Whether the mark follows them.
    pub is_last: bool,
}

// Whether these bytes are a beginning of the mark, and not all of it.
#[tactic(auto, using(crate::proofs::Marks::begins))]
fn begins_mark(bytes: &[u8]) -> bool
    ensures { IsTrue result ↔ BeginsMark bytes.now }
{
    bytes.len() < END_MARK.len() && END_MARK.starts_with(bytes)
}

// How many of these bytes come before the part of a mark that is at their end; all of them where no
// such part is there.
fn before_mark(bytes: &[u8]) -> usize
    ensures within { result ≤ length bytes.now }
    ensures held { BeginsMark (drop result bytes.now) }
    ensures first { (k : ℕ) → k ≤ length bytes.now → BeginsMark (drop k bytes.now) → result ≤ k }
{
    // The first byte of the mark is only once in it, so a part of a mark can only begin where that
    // byte is last.
    let Some(place) = memrchr(END_MARK[0], bytes) else {
        return bytes.len();
    };
    if begins_mark(&bytes[place..]) {
        return place;
    }
    bytes.len()
}

/// How much of what was read may be told. `is_due` is whether the mark counts: the child was waited
/// for, or nobody listens. Where it counts and was read, all before it may be told. Else all may be
/// told but a beginning of the mark at the end, which is held back until more was read.
pub(crate) fn telling_of(bytes: &[u8], is_due: bool) -> Telling
    ensures within { result.count ≤ length bytes.now }
    ensures last { result.is_last ≡ true → OccursAt bytes.now end_mark result.count }
    ensures ended { result.is_last ≡ true → is_due ≡ true }
    ensures held { result.is_last ≡ false → BeginsMark (drop result.count bytes.now) }
    ensures first { result.is_last ≡ false
        → (k : ℕ) → k ≤ length bytes.now → BeginsMark (drop k bytes.now) → result.count ≤ k }
{
    if is_due {
        // The child's bytes are those before the mark.
        if let Some(count) = memmem::find(bytes, &END_MARK) {
            return Telling {
                count,
                is_last: true,
            };
        }
    }
    Telling {
        count: before_mark(bytes),
        is_last: false,
    }
}
