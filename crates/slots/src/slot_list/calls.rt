// Making a list of slots, and what it holds.
ghost use Rattle.std.specs.Prelude.{◌≡◌, ◌<◌, [], ◌∷◌, ◌++◌, length};
ghost use Rattle.units.specs.Limits.{most_slots};
ghost use Rattle.slots.specs.Listed.{items};

use crate::slot_list::SlotList;
use sure_ticks::Slot;
use units::limits::MAX_SLOTS;

impl SlotList {
    // No slot.
    pub(crate) fn empty() -> SlotList
        ensures { items result ≡ [] }
    {
        SlotList {
            slots: [Slot::default(); MAX_SLOTS],
            count: 0,
        }
    }

    // One slot more, at the end.
    pub(crate) fn push(&mut self, slot: Slot)
        requires { length (items self.old) < most_slots }
        ensures { items self.new ≡ items self.old ++ (slot ∷ []) }
    {
        self.slots[self.count] = slot;
        self.count += 1;
    }

    // How many slots there are.
    pub fn len(&self) -> usize
        ensures { result ≡ length (items self.now) }
    {
        self.as_slice().len()
    }

    // The slots.
    pub fn as_slice(&self) -> &[Slot]
        ensures { result.now ≡ items self.now }
    {
        &self.slots[..self.count]
    }
}
