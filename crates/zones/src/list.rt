// Zones in the order of an answer, in slots of a fixed number.
ghost use Rattle.std.specs.Prelude.{◌≡◌, ◌≤◌, length};
ghost use Rattle.whole.specs.Lists.{padded};

use arrayvec::ArrayVec;
use std::marker::Model;

/// At most `N` zones, in the order of the answer. They are the first of `N` slots, and each slot after them is 0, so that two are equal where they
/// list the same.
#[derive(Clone, Copy, Debug, PartialEq, Eq)]
pub struct Zones<const N: usize> {
    slots: [u64; N],
    count: usize,
}

impl<const N: usize> Model for Zones<N> {
    ghost use Rattle.std.specs.Prelude.{ℕ, List, take, length};
    ghost use Rattle.std.proofs.Common.{sym};
    ghost use Rattle.whole.specs.Lists.{padded};
    ghost use Rattle.zones.specs.Slots.{InSlots};

    ghost Value = { List ℕ };

    ghost view = { λ z. take z.count z.slots };

    ghost invariant = { λ z. InSlots N z.slots z.count };

    ghost inverse = { λ l. record { slots = padded N l; count = length l } };

    ghost inverse_ok = { λ z h i. record { slots = sym h.rest i; count = h.counted i } };
}

/// The zones in their slots, the others 0.
fn in_slots<const N: usize>(zones: &ArrayVec<u64, N>) -> [u64; N]
    ensures { result ≡ padded N zones.now.items }
{
    let mut slots = [0; N];
    slots[..zones.len()].copy_from_slice(zones);
    slots
}

impl<const N: usize> From<ArrayVec<u64, N>> for Zones<N> {
    ghost from_gives = { λ listed zones. zones ≡ listed.items };

    fn from(listed: ArrayVec<u64, N>) -> Self {
        Zones {
            slots: in_slots(&listed),
            count: listed.len(),
        }
    }
}

impl<const N: usize> Zones<N> {
    /// How many zones there are.
    pub fn len(&self) -> usize
        ensures value { result ≡ length self.now }
        ensures fits { result ≤ N }
    {
        self.count
    }

    /// The zones alone.
    pub fn as_slice(&self) -> &[u64]
        ensures value { result.now ≡ self.now }
        ensures fits { length result.now ≤ N }
    {
        &self.slots[..self.count]
    }

    /// All slots: the zones, and 0 in each slot after them.
    pub fn slots(&self) -> [u64; N]
        ensures { result ≡ padded N self.now }
    {
        self.slots
    }
}
