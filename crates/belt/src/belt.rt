ghost use Rattle.std.specs.Prelude.{◌≡◌, ◌+◌, ◌%◌, ◌<◌};
ghost use Rattle.belt.specs.Turned.{Ring, Sound};

use crate::returned::Returned;
use faults::layer::Layer;
use faults::reason::Reason;
use std::marker::Model;

/// A queue over slots that the caller lends: it hands out first what was put in first.
// A ring by hand and no `VecDeque`: the slots are the caller's, so that a belt never allocates. `len` of them hold items, the oldest at `head`, round to the one before it.
#[derive(Drop)]
pub struct Belt<'a, T> {
    slots: &'a mut [Option<T>],
    head: usize,
    len: usize,
}

// A place past the last one is counted on from the first. By a comparison: with a remainder a put and a take took a quarter more time.
fn round(place: usize, room: usize) -> usize
    requires { place < room + room }
    ensures { result ≡ place % room }
{
    if place < room { place } else { place - room }
}

// A caller sees the slots where they lie, and which holds the oldest item: a refusal moves neither.
impl<'a, T> Model for Belt<'a, T> {
    ghost Value = { Ring T };

    ghost view = { λ b. record { slots = b.slots.now; head = b.head } };

    ghost invariant = { λ b. Sound b.slots.now b.head b.len };
}

impl<'a, T: Drop> Belt<'a, T> {
    ghost use Rattle.std.specs.Prelude.{◌↔◌, [], length, IsTrue};
    ghost use Rattle.belt.specs.Belts.{contents, room, Put, Took};
    ghost use Rattle.belt.specs.Histories.{InOrder};

    /// An empty belt, whatever the slots hold. From then on, what is handed out is in order a front of what was accepted, and the rest is inside.
    pub fn new(slots: &'a mut [Option<T>]) -> Belt<'a, T>
        ensures empty { contents result ≡ [] }
        ensures room { room result ≡ length slots.old }
        ensures history { InOrder result }
    {
        slots.fill_with(|| None);
        Belt {
            slots,
            head: 0,
            len: 0,
        }
    }

    /// How many items are inside. They lie in the slots from the oldest item's on, and no other slot holds one.
    pub fn len(&self) -> usize
        ensures value { result ≡ length (contents self.now) }
        ensures sound { Sound self.now.slots self.now.head result }
    {
        self.len
    }

    /// Whether no item is inside.
    pub fn is_empty(&self) -> bool
        ensures { IsTrue result ↔ (contents self.now ≡ []) }
    {
        self.len == 0
    }

    /// How many slots are free.
    pub fn free(&self) -> usize
        ensures { result + length (contents self.now) ≡ room self.now }
    {
        self.slots.len() - self.len
    }

    /// One item more; refused where every slot is taken, and then the caller has the item back.
    pub fn put(&mut self, item: T) -> Result<(), Returned<T>>
        ensures { Put self.old item result self.new }
    {
        if self.len == self.slots.len() {
            let fault = Layer::Belt.refuses(Reason::SlotsTaken, 0, 0);
            return Err(Returned { fault, item });
        }
        let free = round(self.head + self.len, self.slots.len());
        self.slots[free] = Some(item);
        self.len += 1;
        Ok(())
    }

    /// The oldest item, or none from an empty belt.
    pub fn take(&mut self) -> Option<T>
        ensures { Took self.old result self.new }
    {
        if self.len == 0 {
            return None;
        }
        let item = self.slots[self.head].take();
        self.head = round(self.head + 1, self.slots.len());
        self.len -= 1;
        item
    }
}
