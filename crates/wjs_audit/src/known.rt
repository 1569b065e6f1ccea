//! The texts that a log has named so far.
ghost use Rattle.std.specs.Prelude.{◌≡◌, ℕ, ◌==◌, ◌||◌, [], false, IfOk, OnOk, MatchBool};
ghost use Rattle.wjs_audit.specs.Reading.{numbers, TextMay, Named};

use std::alloc::Global;
use std::collections::BTreeSet;
use wjs_base::OutOfMemory;
use wjs_texts::{TextFault, Texts};

/// The texts so far, and the numbers that name them.
#[derive(Drop)]
pub(crate) struct KnownTexts {
    texts: Texts,
    /// All numbers below this one name texts; for a log whose texts are numbered as they come no tree is built.
    below: u64,
    /// The others that do.
    others: BTreeSet<u64>,
}

impl KnownTexts {
    /// No texts.
    pub(crate) fn new(alloc: Global) -> Result<KnownTexts, OutOfMemory>
        ensures texts { IfOk result (λ known. known.texts ≡ []) }
        ensures numbers { IfOk result (λ known. (n : ℕ) → numbers known n ≡ false) }
    {
        let texts = Texts::new(alloc)?;
        Ok(KnownTexts {
            texts,
            below: 0,
            others: BTreeSet::new(alloc),
        })
    }

    /// Whether the number names a text.
    pub(crate) fn has(&self, number: u64) -> bool
        ensures { result ≡ numbers self.now number }
    {
        number < self.below || self.others.contains(&number)
    }

    /// Takes a number in.
    fn add_number(&mut self, number: u64) -> Result<(), OutOfMemory>
        ensures texts { self.new.texts ≡ self.old.texts }
        ensures numbers { OnOk result ((m : ℕ) → numbers self.new m ≡ (numbers self.old m || number == m)) }
    {
        if number == self.below && number < u64::MAX {
            self.below = number + 1;
            return Ok(());
        }
        self.others.insert(number)?;
        Ok(())
    }

    /// Names a text by a number, where both are new and the text is none that is too long. Whether that is so: after false the
    /// texts are of no more use.
    pub(crate) fn add(&mut self, number: u64, units: &[u16]) -> Result<bool, OutOfMemory>
        ensures { IfOk result (λ adds. MatchBool adds (TextMay self.old number units.now × Named self.old number units.now self.new)
            (¬ (TextMay self.old number units.now))) }
    {
        if self.has(number) {
            return Ok(false);
        }
        let count = self.texts.len();
        match self.texts.intern(units) {
            Ok(id) => {
                if id.0 < count as u64 {
                    return Ok(false);
                }
                self.add_number(number)?;
                Ok(true)
            }
            Err(TextFault::TooLong) => Ok(false),
            Err(TextFault::OutOfMemory) => Err(OutOfMemory),
        }
    }
}
