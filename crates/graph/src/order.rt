ghost use Rattle.std.specs.Prelude.{◌≡◌, ℕ, ◌<◌, ◌≤◌, slice_index};

use crate::parts::MOST_TASKS;

/// So many tasks in an order, and the place of each in it.
// In fixed memory, since making a graph may not fail for want of it.
#[derive(Clone, Copy, PartialEq, Eq, Debug)]
pub struct Order {
    pub tasks: usize,
    pub list: [usize; MOST_TASKS],
    pub place: [usize; MOST_TASKS],
    ghost few: { tasks ≤ 16 },
    ghost listed: { (q : ℕ) → q < tasks → slice_index list q < tasks },
    ghost placed: { (v : ℕ) → v < tasks → slice_index place v < tasks },
    ghost found: { (v : ℕ) → v < tasks → slice_index list (slice_index place v) ≡ v },
    ghost back: { (q : ℕ) → q < tasks → slice_index place (slice_index list q) ≡ q },
}

impl Order {
    ghost use Rattle.graph.specs.Ordered.{Swapped};

    /// Places p and q change their tasks.
    pub(crate) fn swap(&mut self, p: usize, q: usize)
        requires p_in { p < self.old.tasks }
        requires q_in { q < self.old.tasks }
        ensures { Swapped self.old p q self.new }
    {
        self.place.swap(self.list[p], self.list[q]);
        self.list.swap(p, q);
    }
}
