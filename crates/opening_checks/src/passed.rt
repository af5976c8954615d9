ghost use Rattle.std.specs.Prelude.{◌≡◌, None, Some, if◌then◌else◌, ◌&&◌, nat_le};
ghost use Rattle.opening_checks.specs.Least.{lesser_of};
ghost use Rattle.opening_checks.specs.Walk.{follows, lower_of};

use crate::least::lesser_of;
use st_base::Key;

/// What was passed of a walk by keys: the last key, the least number of its entries, and the least file that is to blame.
#[derive(Drop)]
pub(crate) struct Passed {
    pub(crate) key: Option<Key>,
    pub(crate) low: u64,
    pub(crate) least: Option<u64>,
}

impl Passed {
    /// Nothing.
    pub(crate) fn new() -> Passed
        ensures key { result.key ≡ None }
        ensures low { result.low ≡ 0 }
        ensures least { result.least ≡ None }
    {
        Passed {
            key: None,
            low: 0,
            least: None,
        }
    }

    // Whether an entry of the key may stand behind what was passed; `bottom` says that it stands in the last level.
    fn follows(&self, bottom: bool, key: &Key, number: u64) -> bool
        ensures { result ≡ follows self.now.key self.now.low bottom key.now number }
    {
        match &self.key {
            Some(before) => {
                before.as_bytes() != key.as_bytes()
                    || number < self.low
                    || (bottom && number == 0 && self.low == 0)
            }
            None => true,
        }
    }

    // The least number of the key, with this one too.
    fn lower_of(&self, key: &Key, number: u64) -> u64
        ensures { result ≡ lower_of self.now.key self.now.low key.now number }
    {
        match &self.key {
            Some(before) => {
                if before.as_bytes() == key.as_bytes() {
                    self.low.min(number)
                } else {
                    number
                }
            }
            None => number,
        }
    }

    // The file, unless the entry may stand there.
    fn judged(
        &self,
        last: u64,
        bottom: bool,
        file: Option<u64>,
        key: &Key,
        number: u64,
    ) -> Option<u64>
        ensures { result ≡ (if nat_le number last && follows self.now.key self.now.low bottom key.now number
            then None else file) }
    {
        if number <= last && self.follows(bottom, key, number) {
            None
        } else {
            file
        }
    }

    /// Passes an entry of the key, of a part with this file.
    pub(crate) fn pass(&mut self, last: u64, bottom: bool, file: Option<u64>, key: Key, number: u64)
        ensures key { self.new.key ≡ Some key }
        ensures low { self.new.low ≡ lower_of self.old.key self.old.low key number }
        ensures least { self.new.least ≡ lesser_of self.old.least
            (if nat_le number last && follows self.old.key self.old.low bottom key number then None else file) }
    {
        let blamed = self.judged(last, bottom, file, &key, number);
        self.least = lesser_of(self.least, blamed);
        self.low = self.lower_of(&key, number);
        self.key = Some(key);
    }
}
