// The slots with the list from digests to slots.
//
// A slot is found by its digest's 18 leading bits: each value of them begins a list of the slots that have it, from the greatest
// down. So a new slot takes no memory but its own link, a link is followed by comparing numbers, and digests that collide
// cost no more than a longer list.
ghost use Rattle.std.specs.Prelude.{◌≡◌, ◌+◌, ◌-◌, ◌<◌, ◌≤◌, ◌++◌, [], length, Some, None, replicate, slice_set, slice_index, IfOk, OnOk, OnErr, IsSome, ℕ};
ghost use Rattle.segment_pool.specs.Index.{IsIndex, IsNextBelow, IsPlaceOf, bits_of, bound_of, leading_bits};
ghost use Rattle.segment_pool.specs.Slots.{at_slot};

use crate::NoMemory;
use crate::slot::Slot;
use std::alloc::Global;

// So many lists, one for each value of the leading bits.
const LISTS: usize = 262_144;

// So many zeros.
pub(crate) fn zeros(alloc: Global, count: usize) -> Result<Vec<u32>, NoMemory>
    ensures length { IfOk result (λ v. length v.items ≡ count) }
    ensures zeros { IfOk result (λ v. (i : ℕ) → slice_index v.items i ≡ 0) }
{
    vec![in alloc; 0u32; count]
}

// The leading bits of a digest.
fn bits_in(digest: &[u8; 32]) -> usize
    ensures bits { result ≡ leading_bits digest.now }
    ensures few { result < 262144 }
{
    (digest[0] as usize * 256 + digest[1] as usize) * 4 + digest[2] as usize / 64
}

#[derive(Drop)]
pub(crate) struct Index {
    pub(crate) slots: Vec<Option<Slot>>,
    links: Vec<u32>,
    ghost indexed: { IsIndex slots.items links.items },
}

impl Index {
    pub(crate) fn new(alloc: Global) -> Result<Index, NoMemory>
        ensures { IfOk result (λ i. i.slots.items ≡ []) }
    {
        Ok(Index {
            slots: Vec::new(alloc),
            links: zeros(alloc, LISTS)?,
        })
    }

    // Adds free slots up to so many.
    pub(crate) fn grow(&mut self, slots: usize) -> Result<(), NoMemory>
        requires { slots ≤ 16777216 }
        ensures ok { OnOk result (self.new.slots.items ≡ self.old.slots.items ++ replicate (slots - length self.old.slots.items) None) }
        ensures err { OnErr result (self.new.slots.items ≡ self.old.slots.items) }
    {
        let before = self.slots.len();
        if slots <= before {
            return Ok(());
        }
        self.links.resize(LISTS + slots, 0)?;
        match self.slots.resize(slots, None) {
            Ok(()) => Ok(()),
            Err(refused) => {
                self.links.truncate(LISTS + before);
                Err(refused)
            }
        }
    }

    // The greatest slot of a list.
    pub(crate) fn first(&self, digest: &[u8; 32]) -> Option<u32>
        ensures { IsNextBelow self.now.slots.items (leading_bits digest.now) 16777216 result }
    {
        self.links[bits_in(digest)].checked_sub(1)
    }

    // The slot that follows a held one in its list.
    pub(crate) fn next(&self, slot: u32) -> Option<u32>
        requires { IsSome (bits_of self.now.slots.items slot) }
        ensures { (bits : ℕ) → bits_of self.now.slots.items slot ≡ Some bits → IsNextBelow self.now.slots.items bits slot result }
    {
        self.links[LISTS + slot as usize].checked_sub(1)
    }

    // The place of the link that leads past this slot or to it.
    fn seek(&self, bits: usize, slot: usize) -> usize
        requires few { bits < 262144 }
        requires within { slot < 16777216 }
        ensures place { IsPlaceOf self.now.slots.items bits result }
        ensures bound { slot < bound_of result }
        ensures link { slice_index self.now.links.items result ≤ slot + 1 }
    {
        let mut place = bits;
        while self.links[place] as usize > slot + 1 {
            place = LISTS + self.links[place] as usize - 1;
        }
        place
    }

    // Holds a free slot.
    pub(crate) fn hold(&mut self, slot: usize, what: Slot)
        requires within { slot < length self.old.slots.items }
        requires free { at_slot self.old.slots.items slot ≡ None }
        ensures { self.new.slots.items ≡ slice_set self.old.slots.items slot (Some what) }
    {
        let place = self.seek(bits_in(&what.digest), slot);
        self.links[LISTS + slot] = self.links[place];
        self.links[place] = slot as u32 + 1;
        self.slots[slot] = Some(what);
    }

    // Frees a held slot.
    pub(crate) fn free(&mut self, slot: usize, digest: &[u8; 32])
        requires { bits_of self.old.slots.items slot ≡ Some (leading_bits digest.now) }
        ensures { self.new.slots.items ≡ slice_set self.old.slots.items slot None }
    {
        let place = self.seek(bits_in(digest), slot);
        self.links[place] = self.links[LISTS + slot];
        self.slots[slot] = None;
    }

    // Changes what is known of a held slot, but for its digest.
    pub(crate) fn change(&mut self, slot: usize, what: Slot)
        requires { bits_of self.old.slots.items slot ≡ Some (leading_bits what.digest) }
        ensures { self.new.slots.items ≡ slice_set self.old.slots.items slot (Some what) }
    {
        self.slots[slot] = Some(what);
    }
}
