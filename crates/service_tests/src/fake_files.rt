//! A service directory in memory, whose files can fail.
ghost use Rattle.std.specs.Prelude.{◌≡◌, ◌≤◌, IsTrue, false, length, IfOk, option_map, find, take};

use s6_events::Name;
use servicedir::{Files, ReadFault, ServiceFile};
use std::alloc::{AllocError, Allocator};

/// The most bytes of a file that one reading gives.
const READING_LIMIT: usize = 4097;

/// Directories in memory: each service has these files. The first reading of the file `failing`
/// fails, refused growths are counted, and `failed` is the file whose reading gave nothing last.
#[derive(Drop)]
pub struct FakeFiles<'a> {
    pub files: &'a [(ServiceFile, &'a [u8])],
    pub failing: Option<ServiceFile>,
    pub has_failed: bool,
    pub failed: Option<ServiceFile>,
    pub refused: u64,
}

impl<'a> FakeFiles<'a> {
    pub fn new(files: &'a [(ServiceFile, &'a [u8])]) -> FakeFiles<'a> {
        FakeFiles {
            files,
            failing: None,
            has_failed: false,
            failed: None,
            refused: 0,
        }
    }

    fn find(&self, file: ServiceFile) -> Option<&'a [u8]>
        ensures { option_map (λ t. t.now) result
            ≡ option_map (λ e. e.1.now)
            (find (λ e. ⟦<ServiceFile as PartialEq>⟧.eq e.0 file) self.now.files.now) }
    {
        match self.files.iter().find(|entry| entry.0 == file) {
            Some(entry) => Some(entry.1),
            None => None,
        }
    }

    // Whether this reading fails.
    fn fails(&self, file: ServiceFile) -> bool
        ensures { IsTrue result → self.now.has_failed ≡ false }
    {
        !self.has_failed && self.failing == Some(file)
    }
}

impl<'a> Files for FakeFiles<'a> {
    ghost use Rattle.std.specs.Prelude.{option_map, find, take, if◌then◌else◌};

    ghost gives = { λ f name file. option_map (λ e. take 4097 e.1.now) (find (λ e. ⟦<ServiceFile as PartialEq>⟧.eq e.0 file) f.files.now) };

    ghost failures = { λ f. if f.has_failed then 1 else 0 };

    ghost failed = { λ f. f.failed };

    ghost refused = { λ f. f.refused };

    fn has(&mut self, _name: Name, file: ServiceFile) -> Result<bool, ReadFault> {
        if self.fails(file) {
            self.has_failed = true;
            self.failed = Some(file);
            return Err(ReadFault::Io);
        }
        Ok(self.find(file).is_some())
    }

    fn text<A: Allocator + Copy>(
        &mut self,
        alloc: A,
        _name: Name,
        file: ServiceFile,
    ) -> Result<Option<Vec<u8, A>>, ReadFault> {
        if self.fails(file) {
            self.has_failed = true;
            self.failed = Some(file);
            return Err(ReadFault::Io);
        }
        match self.find(file) {
            Some(text) => match copied(alloc, front(text, READING_LIMIT)) {
                Ok(bytes) => Ok(Some(bytes)),
                Err(_) => {
                    self.failed = Some(file);
                    self.refused = self.refused.wrapping_add(1);
                    Err(ReadFault::NoMemory)
                }
            },
            None => Ok(None),
        }
    }
}

// The first bytes of a text.
fn front(text: &[u8], limit: usize) -> &[u8]
    ensures front { result.now ≡ take limit text.now }
    ensures bound { length result.now ≤ limit }
{
    if text.len() <= limit {
        text
    } else {
        &text[..limit]
    }
}

fn copied<A: Allocator + Copy>(alloc: A, text: &[u8]) -> Result<Vec<u8, A>, AllocError>
    ensures ok { IfOk result (λ v. v.items ≡ text.now) }
{
    let mut bytes = Vec::new(alloc);
    bytes.extend_from_slice(text)?;
    Ok(bytes)
}
