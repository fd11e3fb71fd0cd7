//! The places of the groups of a plan.

ghost use Rattle.std.specs.Prelude.{◌≡◌, ◌+◌, ◌≤◌, length};
ghost use Rattle.dsa_descriptor.specs.Pieces.{most_pieces};
ghost use Rattle.dsa_settings.specs.Plan.{piece_count};

use dsa_settings::Group;

/// What comes before a group of a plan.
#[derive(Clone, Copy, Default)]
pub struct Place {
    /// The number of the first piece of the group.
    pub start: usize,
    /// How many batches come before it.
    pub batches: usize,
    /// How many pieces are in these batches.
    pub batched: usize,
}

impl Place {
    ghost use Rattle.dsa_emission.specs.Emission.{place_after};

    /// The place of the group after this one.
    pub fn after(self, group: &Group) -> Place
        requires few { self.start + length group.now ≤ most_pieces }
        requires batches { self.batches ≤ self.start }
        requires batched { self.batched ≤ self.start }
        ensures { result ≡ place_after self group.now }
    {
        if group.len() > 1 {
            Place {
                start: self.start + group.len(),
                batches: self.batches + 1,
                batched: self.batched + group.len(),
            }
        } else {
            Place {
                start: self.start + group.len(),
                batches: self.batches,
                batched: self.batched,
            }
        }
    }
}
