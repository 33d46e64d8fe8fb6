//! The bytes of each class, so that what holds of a class is put at its bytes without a look at the others.
ghost use Rattle.std.specs.Prelude.{◌≡◌, ◌<◌, ℕ, List, length, slice_index};
ghost use Rattle.lextab_packed.specs.Alike.{AreAlike, IsSpread};

/// For each class its first byte, and for each byte the next one of its class; 256 where there is none.
#[derive(Drop)]
pub(crate) struct Alike {
    first: [u16; 256],
    after: [u16; 256],
}

/// The bytes of each class.
pub(crate) fn alike_of(class_of: &[u8]) -> Alike
    requires { length class_of.now ≡ 256 }
    ensures { AreAlike class_of.now result.first result.after 0 }
{
    let mut first = [256u16; 256];
    let mut after = [256u16; 256];
    let mut byte = 256usize;
    'bytes: while byte > 0 {
        byte -= 1;
        let class = usize::from(class_of[byte]);
        after[byte] = first[class];
        first[class] = byte as u16;
    }
    Alike { first, after }
}

/// Puts a number at each byte of a class.
fn put_class(targets: &mut [u32; 256], class_of: &[u8], alike: &Alike, class: usize, target: u32)
    requires alike { AreAlike class_of.now alike.now.first alike.now.after 0 }
    requires class { class < 256 }
    ensures put { (b : ℕ) → b < 256 → slice_index class_of.now b ≡ class → slice_index targets.new b ≡ target }
    ensures kept { (b : ℕ) → b < 256 → (slice_index class_of.now b ≡ class → ⊥)
        → slice_index targets.new b ≡ slice_index targets.old b }
{
    let mut byte = usize::from(alike.first[class]);
    'chain: while byte < 256 {
        targets[byte] = target;
        byte = usize::from(alike.after[byte]);
    }
}

/// A number for each class, and the same for each byte.
#[derive(Drop)]
pub(crate) struct Spread {
    by_class: [u32; 256],
    pub by_byte: [u32; 256],
}

impl Spread {
    /// Zero for each class.
    pub(crate) fn new() -> Spread
        ensures { (class_of : List ℕ) → IsSpread class_of result.by_class result.by_byte }
    {
        Spread {
            by_class: [0; 256],
            by_byte: [0; 256],
        }
    }

    /// Sets the number of a class. Where it has it already, no byte is looked at.
    pub(crate) fn set(&mut self, class_of: &[u8], alike: &Alike, class: usize, target: u32)
        requires alike { AreAlike class_of.now alike.now.first alike.now.after 0 }
        requires class { class < 256 }
        requires spread { IsSpread class_of.now self.old.by_class self.old.by_byte }
        ensures spread { IsSpread class_of.now self.new.by_class self.new.by_byte }
        ensures put { slice_index self.new.by_class class ≡ target }
        ensures kept { (other : ℕ) → (other ≡ class → ⊥)
            → slice_index self.new.by_class other ≡ slice_index self.old.by_class other }
    {
        if self.by_class[class] != target {
            self.by_class[class] = target;
            put_class(&mut self.by_byte, class_of, alike, class, target);
        }
    }
}
