ghost use Rattle.std.specs.Prelude.{◌≤◌};
ghost use Rattle.graph.specs.Edges.{Ends};

use crate::legal::legal_ends;
use crate::order::Order;
use crate::parts::{Edge, MOST_TASKS};
use std::array;

/// The edges between so many tasks, 16 at most, each from one of them to one of them.
#[derive(Clone, Copy)]
pub(crate) struct Edges<'a> {
    pub(crate) list: &'a [Edge],
    pub(crate) tasks: usize,
    ghost few: { tasks ≤ 16 },
    ghost ends: { Ends list.now tasks },
}

impl<'a> Edges<'a> {
    ghost use Rattle.std.specs.Prelude.{◌≡◌, ℕ, ◌<◌, ◌≤◌, MatchBool, MatchOption, slice_index};
    ghost use Rattle.graph.specs.Edges.{Ends, NoRing, SomeRing, Topmost};
    ghost use Rattle.graph.specs.Ordered.{Waits, Clear, Next, Ordered};
    ghost use Rattle.graph.specs.Reached.{Grown, Reached};

    /// None where an edge has an end that is no task.
    // The bound stays a `requires`: a count of tasks as a type of its own would be opened again at each use.
    pub(crate) fn new(list: &'a [Edge], tasks: usize) -> Option<Edges<'a>>
        requires { tasks ≤ 16 }
        ensures { MatchOption result (Ends list.now tasks → ⊥) (λ all. (all.list.now ≡ list.now) × (all.tasks ≡ tasks)) }
    {
        // Not `then`: its closure would have to require once more what the test has told.
        if legal_ends(list, tasks) {
            Some(Edges { list, tasks })
        } else {
            None
        }
    }

    /// Marks each task to which a token-free edge leads from a marked one, and says whether there was one.
    fn grow(&self, marked: &mut [bool; MOST_TASKS]) -> bool
        ensures { Grown self.now.list.now marked.old result marked.new }
    {
        let mut more = false;
        // A loop: a mark decides which of the next edges mark, so that a fold would carry the marks beside the answer.
        for edge in self.list {
            if edge.tokens == 0 && marked[edge.from] && !marked[edge.to] {
                marked[edge.to] = true;
                more = true;
            }
        }
        more
    }

    /// Marks the task and all to which token-free edges lead from it, in fixed memory as all of a graph's making.
    fn reach_from(&self, task: usize) -> [bool; MOST_TASKS]
        requires { task < self.now.tasks }
        ensures { Reached self.now.list.now task result }
    {
        let mut marked = [false; MOST_TASKS];
        marked[task] = true;
        while self.grow(&mut marked) {}
        marked
    }

    /// The first task that lies on a ring whose edges hold no token.
    // A nested search left by a label: docs/DECISIONS.md names it as this search's form.
    pub(crate) fn first_on_ring(&self) -> Option<usize>
        ensures { MatchOption result (NoRing self.now.list.now self.now.tasks) (Topmost self.now.list.now self.now.tasks) }
    {
        let mut found = None;
        'search: for task in 0..self.tasks {
            let marked = self.reach_from(task);
            for edge in self.list {
                if edge.tokens == 0 && edge.to == task && marked[edge.from] {
                    found = Some(task);
                    break 'search;
                }
            }
        }
        found
    }

    /// The tasks by their numbers.
    fn by_number(&self) -> Order
        ensures { result.tasks ≡ self.now.tasks }
    {
        let numbers = array::from_fn(|task| task);
        Order {
            tasks: self.tasks,
            list: numbers,
            place: numbers,
        }
    }

    /// Whether a token-free edge leads into the task from one that is not among the first p.
    fn pending(&self, order: &Order, p: usize, task: usize) -> bool
        ensures { MatchBool result (Waits self.now.list.now order.now.place p task) (Clear self.now.list.now order.now.place p task) }
    {
        self.list.iter().any(|edge| edge.to == task
            && edge.tokens == 0
            && order.place[edge.from] >= p)
    }

    /// A place from p on whose task waits for none but the first p.
    fn next_clear(&self, order: &Order, p: usize) -> Option<usize>
        ensures { MatchOption result ((q : ℕ) → p ≤ q → q < self.now.tasks → Waits self.now.list.now order.now.place p (slice_index order.now.list q)) (Next self.now.list.now self.now.tasks order.now p) }
    {
        (p..self.tasks).find(|q| !self.pending(order, p, order.list[*q]))
    }

    /// An order in which each token-free edge goes forward; none where some ring of edges holds no token.
    pub(crate) fn order(&self) -> Option<Order>
        ensures { MatchOption result (SomeRing self.now.list.now self.now.tasks) (λ o. (o.tasks ≡ self.now.tasks) × Ordered self.now.list.now o.place self.now.tasks) }
    {
        let mut order = self.by_number();
        // A loop: each place is given its task in turn, from the order that the ones before it left.
        for p in 0..self.tasks {
            let q = self.next_clear(&order, p)?;
            order.swap(p, q);
        }
        Some(order)
    }
}
