ghost use Rattle.std.specs.Prelude.{◌<◌, IfSome};

use std::fs::File;

// How many files are kept open.
const OPEN_FILES: usize = 16;

#[derive(Drop)]
struct Opened {
    file: u64,
    handle: File,
}

/// Files that stay open, sixteen at most, in the order in which they were opened. Keeping one takes no memory.
#[derive(Drop)]
pub struct OpenFiles {
    // Those that are taken come first.
    slots: [Option<Opened>; OPEN_FILES],
}

impl OpenFiles {
    ghost use Rattle.real_files.specs.OpenFiles.{IsOpenBy};

    /// None is open.
    pub fn new() -> OpenFiles {
        OpenFiles {
            slots: [
                None, None, None, None, None, None, None, None, None, None, None, None, None, None,
                None, None,
            ],
        }
    }

    // The slot of a file.
    fn slot_of(&self, file: u64) -> Option<usize>
        ensures { IfSome result (λ slot. slot < 16) }
    {
        self.slots
            .iter()
            .position(|slot| matches!(slot, Some(opened) if opened.file == file))
    }

    /// The file, if it is open.
    pub fn get(&self, file: u64) -> Option<&File>
        ensures { IfSome result (λ handle. IsOpenBy self.now file handle.now) }
    {
        for slot in &self.slots {
            match slot {
                Some(opened) if opened.file == file => return Some(&opened.handle),
                _ => {}
            }
        }
        None
    }

    /// Keeps a file open, instead of the one that was opened first where all slots are taken.
    pub fn keep(&mut self, file: u64, handle: File)
        ensures { IsOpenBy self.new file handle }
    {
        let slot = match self.slots.iter().position(|slot| slot.is_none()) {
            Some(slot) => slot,
            None => {
                self.slots.rotate_left(1);
                OPEN_FILES - 1
            }
        };
        self.slots[slot] = Some(Opened { file, handle });
    }

    /// Closes a file, if it is open.
    pub fn close(&mut self, file: u64) {
        if let Some(slot) = self.slot_of(file) {
            self.slots[slot] = None;
            self.slots[slot..].rotate_left(1);
        }
    }
}
