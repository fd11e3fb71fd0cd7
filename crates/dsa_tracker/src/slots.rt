//! Sets of slots.

ghost use Rattle.std.specs.Prelude.{◌≡◌, ◌≢◌, ℕ, ◌<◌, ◌≤◌, ◌⊎◌, ◌↔◌, IsTrue, MatchOption};
ghost use Rattle.std.specs.Int.{bit_at};
ghost use Rattle.dsa_tracker.specs.Sets.{Has, IsEmpty};
ghost use Rattle.dsa_tracker.specs.Table.{IsWithout};

/// A set of slots, which are numbered from 0 to 63: bit `s` of the word is for slot `s`.
#[derive(Clone, Copy, Default)]
pub struct Slots(pub u64);

/// Whether bit `place` of the word is set.
fn has_bit(word: u64, place: u32) -> bool
    ensures { IsTrue result ↔ (0 < bit_at word place) }
{
    if place >= 64 {
        return false;
    }
    (word >> place) & 1 == 1
}

/// Whether no bit of the word is set.
fn has_no_bit(word: u64) -> bool
    ensures { IsTrue result ↔ ((place : ℕ) → ¬ (0 < bit_at word place)) }
{
    word == 0
}

/// The word with this bit cleared.
fn without_bit(word: u64, place: u32) -> u64
    requires { place < 64 }
    ensures bits { (s : ℕ) → (0 < bit_at result s) ↔ ((0 < bit_at word s) × (s ≢ place)) }
    ensures lower { 0 < bit_at word place → result < word }
{
    word & !(1 << place)
}

/// Whether all slots of the set are below this number.
pub(crate) fn are_below(set: Slots, slots: usize) -> bool
    requires { slots ≤ 64 }
    ensures { IsTrue result ↔ ((s : ℕ) → Has set s → s < slots) }
{
    if slots == 64 {
        return true;
    }
    has_no_bit(set.0 >> slots)
}

impl Slots {
    /// The set of no slots.
    pub const EMPTY: Slots = Slots(0);

    /// Whether the slot is in the set.
    pub fn contains(self, slot: u32) -> bool
        ensures { IsTrue result ↔ Has self slot }
    {
        has_bit(self.0, slot)
    }

    /// Whether no slot is in the set.
    pub fn is_empty(self) -> bool
        ensures { IsTrue result ↔ IsEmpty self }
    {
        has_no_bit(self.0)
    }

    /// The set and this slot.
    pub(crate) fn with(self, slot: u32) -> Slots
        requires { slot < 64 }
        ensures { (s : ℕ) → Has result s ↔ (Has self s ⊎ (s ≡ slot)) }
    {
        Slots(self.0 | 1 << slot)
    }

    /// The set without this slot.
    pub(crate) fn without(self, slot: u32) -> Slots
        requires { slot < 64 }
        ensures { (s : ℕ) → Has result s ↔ (Has self s × (s ≢ slot)) }
    {
        Slots(without_bit(self.0, slot))
    }

    /// The slots of both sets.
    pub(crate) fn union(self, other: Slots) -> Slots
        ensures { (s : ℕ) → Has result s ↔ (Has self s ⊎ Has other s) }
    {
        Slots(self.0 | other.0)
    }

    /// Those of the slots that are in the other set, too.
    pub(crate) fn intersection(self, other: Slots) -> Slots
        ensures { (s : ℕ) → Has result s ↔ (Has self s × Has other s) }
    {
        Slots(self.0 & other.0)
    }

    /// Those of the slots that are not in the other set.
    pub(crate) fn minus(self, other: Slots) -> Slots
        ensures { (s : ℕ) → Has result s ↔ (Has self s × (¬ Has other s)) }
    {
        Slots(self.0 & !other.0)
    }

    /// The lowest slot that is not in the set.
    pub(crate) fn first_without(self) -> Option<u32>
        ensures { MatchOption result ((s : ℕ) → s < 64 → Has self s)
            (λ s. (s < 64) × (¬ Has self s) × ((k : ℕ) → k < s → Has self k)) }
    {
        if self.0 == u64::MAX {
            return None;
        }
        Some((!self.0).trailing_zeros())
    }

    /// Takes the lowest slot out of the set.
    pub(crate) fn take_first(&mut self) -> Option<u32>
        ensures { MatchOption result (IsEmpty self.old × (self.new ≡ self.old)) (λ s. (s < 64) ×
            Has self.old s × IsWithout self.old s self.new × (self.new.0 < self.old.0)) }
    {
        if self.0 == 0 {
            return None;
        }
        let slot = self.0.trailing_zeros();
        self.0 = without_bit(self.0, slot);
        Some(slot)
    }
}
