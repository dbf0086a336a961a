// Which positions read a record and which write it, by the record's bucket: more are told than do, and never fewer.

ghost use Rattle.std.specs.Prelude.{◌≡◌, ◌<◌, ◌+◌, ◌*◌, ◌/◌, ◌%◌, ℕ, true};
ghost use Rattle.std.specs.List.{All};
ghost use Rattle.std.specs.Int.{bit_at};
ghost use Rattle.oxii_defs.specs.Dependency.{depends};
ghost use Rattle.txn_types.specs.declared.txn.Txn.{Txn};
ghost use Rattle.txn_core.specs.Touching.{IsMarked, Grows, Unites, IsEntered};

use txn_types::{Kind, Txn};

/// For each of 256 buckets of records a set of positions below 256, as four words of 64 bits.
#[derive(Drop)]
pub(crate) struct Buckets {
    words: [u64; 1024],
}

impl Buckets {
    fn empty() -> Buckets {
        Buckets { words: [0; 1024] }
    }

    // Marks a position at each of these records.
    fn mark_all(&mut self, records: &[u16], position: u16)
        requires { position < 256 }
        ensures kept { Grows self.old.words self.new.words }
        ensures marked { All (IsMarked self.new.words position) records.now }
    {
        for number in records {
            self.mark(*number, position);
        }
    }

    fn mark(&mut self, number: u16, position: u16)
        requires { position < 256 }
        ensures kept { Grows self.old.words self.new.words }
        ensures marked { IsMarked self.new.words position number }
    {
        let place = word_place(number, position / 64);
        self.words[place] = with_bit(self.words[place], position % 64);
    }

    // The positions of one word that stand at any of these records.
    fn union(&self, records: &[u16], word: u16) -> u64
        requires { word < 4 }
        ensures { Unites self.now.words records.now word result }
    {
        let mut all = 0;
        for number in records {
            all |= self.words[word_place(*number, word)];
        }
        all
    }
}

// The place of a record's word.
fn word_place(number: u16, word: u16) -> usize
    requires { word < 4 }
    ensures place { result ≡ number % 256 * 4 + word }
    ensures within { result < 1024 }
{
    (number % 256 * 4 + word) as usize
}

fn with_bit(word: u64, bit: u16) -> u64
    requires { bit < 64 }
    ensures kept { (b : ℕ) → bit_at word b ≡ 1 → bit_at result b ≡ 1 }
    ensures set { bit_at result bit ≡ 1 }
{
    word | 1 << bit
}

/// The positions that read a record, and those that write it.
#[derive(Drop)]
pub(crate) struct Touches {
    readers: Buckets,
    writers: Buckets,
}

impl Touches {
    pub fn none() -> Touches {
        Touches {
            readers: Buckets::empty(),
            writers: Buckets::empty(),
        }
    }

    /// Enters a transaction at its position.
    pub fn enter(&mut self, position: u16, txn: &Txn)
        requires { position < 256 }
        ensures readers { Grows self.old.readers.words self.new.readers.words }
        ensures writers { Grows self.old.writers.words self.new.writers.words }
        ensures entered { IsEntered self.new.readers.words self.new.writers.words position txn.now }
    {
        self.readers.mark_all(txn.reads.as_slice(), position);
        self.writers.mark_all(txn.writes.as_slice(), position);
    }

    /// The positions of one word that a transaction may depend on.
    pub fn word(&self, kind: Kind, later: &Txn, word: u16) -> u64
        requires { word < 4 }
        ensures { (p : ℕ) (earlier : Txn) → p / 64 ≡ word → IsEntered self.now.readers.words self.now.writers.words p earlier
            → depends kind earlier later.now ≡ true → bit_at result (p % 64) ≡ 1 }
    {
        match kind {
            Kind::Full => {
                self.readers.union(later.writes.as_slice(), word)
                    | self.writers.union(later.reads.as_slice(), word)
                    | self.writers.union(later.writes.as_slice(), word)
            }
            Kind::Raw => self.writers.union(later.reads.as_slice(), word),
        }
    }
}
