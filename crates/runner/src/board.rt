ghost use Rattle.std.specs.Prelude.{ℕ, ◌≡◌, ◌+◌, ◌-◌, ◌<◌, ◌≤◌, ◌==◌, false, IsTrue, slice_index, length, vec_items};
ghost use Rattle.graph.specs.Edges.{Ends, edge_at};
ghost use Rattle.runs.specs.States.{one};
ghost use Rattle.runner.specs.Tasks.{task_in};
ghost use Rattle.runner.specs.Serves.{AllServed, Carried, Fed, marked};

use crate::task::{Stage, TaskRecord};
use graph::graph::Graph;
use graph::parts::{Edge, MOST_EDGES, MOST_TASKS, Task};

/// A mark at each task, or none.
pub(crate) type Marks = [bool; MOST_TASKS];

/// The clock, a record for each task, the tokens on each edge, and a mark at each task whose edges all hold one, in fixed memory.
// Each tick ends one firing of a task at most, and adds one token to an edge: so no count passes its type.
// The marks are kept, since most ticks move no token.
#[derive(Drop)]
pub(crate) struct Board {
    clock: u64,
    tasks: [TaskRecord; MOST_TASKS],
    held: [u64; MOST_EDGES],
    fed: Marks,
    ghost early: { (v : ℕ) → (task_in tasks v).fired ≤ clock },
    ghost some: { (v : ℕ) → v < 16 → 1 ≤ (task_in tasks v).need },
    ghost laden: { (e : ℕ) → slice_index held e ≤ 255 + clock },
}

// Ticks each of the first n tasks. The answer: where a firing starts, and where one ends.
fn serve_all(
    tasks: &mut [TaskRecord; MOST_TASKS],
    n: usize,
    ready: &Marks,
    grants: &Marks,
) -> (Marks, Marks)
    requires few { n ≤ 16 }
    requires early { (v : ℕ) → (task_in tasks.old v).fired ≤ 1000000000 }
    requires some { (v : ℕ) → v < 16 → 1 ≤ (task_in tasks.old v).need }
    ensures { AllServed tasks.old ready.now grants.now n result tasks.new }
{
    let mut starts = [false; MOST_TASKS];
    let mut ends = [false; MOST_TASKS];
    for v in 0..n {
        let (started, ended) = tasks[v].serve(ready[v], grants[v]);
        starts[v] = started;
        ends[v] = ended;
    }
    (starts, ends)
}

// Whether no mark is set.
fn is_blank(marks: &Marks) -> bool
    ensures { IsTrue result → (v : ℕ) → marked marks.now v ≡ false }
{
    !marks.contains(&true)
}

// Takes a token from each edge into a task where a firing starts.
fn take_tokens(held: &mut [u64; MOST_EDGES], edges: &[Edge], starts: &Marks)
    requires few { length edges.now ≤ 48 }
    requires within { Ends edges.now 16 }
    ensures taken { (e : ℕ) → e < length edges.now → slice_index held.new e ≡ slice_index held.old e - one (marked starts.now (edge_at edges.now e).to) }
    ensures rest { (e : ℕ) → length edges.now ≤ e → slice_index held.new e ≡ slice_index held.old e }
{
    for (e, edge) in edges.iter().enumerate() {
        if starts[edge.to] {
            held[e] = held[e].saturating_sub(1);
        }
    }
}

// Adds a token to each edge out of task v.
fn add_from(held: &mut [u64; MOST_EDGES], edges: &[Edge], v: usize)
    requires few { length edges.now ≤ 48 }
    requires laden { (e : ℕ) → slice_index held.old e ≤ 3000000000 }
    ensures added { (e : ℕ) → e < length edges.now → slice_index held.new e ≡ slice_index held.old e + one ((edge_at edges.now e).from == v) }
    ensures rest { (e : ℕ) → length edges.now ≤ e → slice_index held.new e ≡ slice_index held.old e }
{
    for (e, edge) in edges.iter().enumerate() {
        if edge.from == v {
            held[e] += 1;
        }
    }
}

// Adds a token to each edge out of a task where a firing ends, in task order.
fn add_tokens(held: &mut [u64; MOST_EDGES], tasks: &[Task], edges: &[Edge], ends: &Marks)
    requires few_tasks { length tasks.now ≤ 16 }
    requires few { length edges.now ≤ 48 }
    requires within { Ends edges.now (length tasks.now) }
    requires laden { (e : ℕ) → slice_index held.old e ≤ 2000000000 }
    ensures added { (e : ℕ) → e < length edges.now → slice_index held.new e ≡ slice_index held.old e + one (marked ends.now (edge_at edges.now e).from) }
    ensures rest { (e : ℕ) → length edges.now ≤ e → slice_index held.new e ≡ slice_index held.old e }
{
    for (v, _) in tasks.iter().enumerate() {
        if ends[v] {
            add_from(held, edges, v);
        }
    }
}

// The tasks into which each edge holds a token.
fn fed_by(held: &[u64; MOST_EDGES], edges: &[Edge]) -> Marks
    requires few { length edges.now ≤ 48 }
    requires within { Ends edges.now 16 }
    ensures { Fed edges.now held.now result }
{
    let mut marks = [true; MOST_TASKS];
    for (e, edge) in edges.iter().enumerate() {
        if held[e] == 0 {
            marks[edge.to] = false;
        }
    }
    marks
}

// Moves the tokens of the firings that start and end, and marks anew the tasks that are fed; most often none moves.
fn move_tokens(
    held: &mut [u64; MOST_EDGES],
    fed: &mut Marks,
    graph: &Graph,
    starts: &Marks,
    ends: &Marks,
)
    requires laden { (e : ℕ) → slice_index held.old e ≤ 2000000000 }
    requires fed { Fed (vec_items graph.now.edges) held.old fed.old }
    ensures carried { Carried (vec_items graph.now.edges) starts.now ends.now held.old held.new }
    ensures fed { Fed (vec_items graph.now.edges) held.new fed.new }
{
    if is_blank(starts) && is_blank(ends) {
        return;
    }
    take_tokens(held, &graph.edges, starts);
    add_tokens(held, &graph.tasks, &graph.edges, ends);
    *fed = fed_by(held, &graph.edges);
}

impl Board {
    ghost use Rattle.std.specs.Prelude.{◌≡◌, ◌-◌, Decides, vec_len};
    ghost use Rattle.runner.specs.Marks.{Marked, KeepsMarks};
    ghost use Rattle.runner.specs.Serves.{Awaited, marked};
    ghost use Rattle.flow.specs.Nets.{net_of};
    ghost use Rattle.runs.specs.States.{new_state, arrived, need_set, supplied, ends, ticked};
    ghost use Rattle.runner.specs.Boards.{shown, Alike, Same};

    /// A new runner's: clock 0, the starting tokens, no firing under way, and each need the task's time.
    pub(crate) fn new(graph: &Graph) -> Board
        ensures stands { Alike (net_of graph.now) (shown result) (new_state (net_of graph.now)) }
        ensures marked { Marked graph.now result }
    {
        let mut tasks = [TaskRecord {
            stage: Stage::Idle,
            waiting: 0,
            need: 1,
            fired: 0,
        }; MOST_TASKS];
        for (v, task) in graph.tasks.iter().enumerate() {
            tasks[v].need = task.time;
        }
        let mut held = [0; MOST_EDGES];
        for (e, edge) in graph.edges.iter().enumerate() {
            held[e] = edge.tokens;
        }
        let fed = fed_by(&held, &graph.edges);
        Board {
            clock: 0,
            tasks,
            held,
            fed,
        }
    }

    /// How many arrivals wait at the inlet of task v.
    pub(crate) fn waiting(&self, v: usize) -> u64
        requires { v < 16 }
        ensures { result ≡ (shown self.now).waiting v }
    {
        self.tasks[v].waiting
    }

    /// One arrival more waits at the inlet of task v.
    pub(crate) fn arrive(&mut self, v: usize)
        requires there { v < 16 }
        requires room { (shown self.old).waiting v < 65535 }
        ensures stands { Same (shown self.new) (arrived (shown self.old) v) }
        ensures marks { KeepsMarks self.old self.new }
    {
        self.tasks[v].waiting += 1;
    }

    /// Later firings of task v need so many granted ticks.
    pub(crate) fn need(&mut self, v: usize, ticks: u64)
        requires there { v < 16 }
        requires some { 1 ≤ ticks }
        ensures stands { Same (shown self.new) (need_set (shown self.old) v ticks) }
        ensures marks { KeepsMarks self.old self.new }
    {
        self.tasks[v].need = ticks;
    }

    /// The ticks so far.
    pub(crate) fn clock(&self) -> u64
        ensures { result ≡ self.now.clock }
    {
        self.clock
    }

    // Whether an arrival waits at the inlet of task v, if it has one.
    fn is_awaited(&self, graph: &Graph, v: usize) -> bool
        requires { v < vec_len graph.now.tasks }
        ensures { Decides result (Awaited (net_of graph.now) (shown self.now) v) }
    {
        !graph.tasks[v].inlet || self.tasks[v].waiting > 0
    }

    // Whether a firing of task v can start: an arrival waits at its inlet, if it has one, and each edge into it holds a token.
    fn is_supplied(&self, graph: &Graph, v: usize) -> bool
        requires there { v < vec_len graph.now.tasks }
        requires marked { Marked graph.now self.now }
        ensures { result ≡ supplied (net_of graph.now) (shown self.now) v }
    {
        self.fed[v] && self.is_awaited(graph, v)
    }

    // The tasks that are supplied.
    fn ready(&self, graph: &Graph) -> Marks
        requires { Marked graph.now self.now }
        ensures { (v : ℕ) → v < vec_len graph.now.tasks → marked result v ≡ supplied (net_of graph.now) (shown self.now) v }
    {
        let mut ready = [false; MOST_TASKS];
        for v in 0..graph.tasks.len() {
            ready[v] = self.is_supplied(graph, v);
        }
        ready
    }

    /// One tick with these grants. The answer: at which tasks a firing ends. Which tasks are ready is judged before anything moves.
    pub(crate) fn tick(&mut self, graph: &Graph, grants: &Marks) -> Marks
        requires early { self.old.clock < 1000000000 }
        requires marked { Marked graph.now self.old }
        ensures marked { Marked graph.now self.new }
        ensures moves { Alike (net_of graph.now) (shown self.new) (ticked (net_of graph.now) (marked grants.now) (shown self.old)) }
        ensures ending { (v : ℕ) → v < vec_len graph.now.tasks → marked result v ≡ ends (net_of graph.now) (shown self.old) (marked grants.now) v }
    {
        let ready = self.ready(graph);
        let (starts, ends) = serve_all(&mut self.tasks, graph.tasks.len(), &ready, grants);
        move_tokens(&mut self.held, &mut self.fed, graph, &starts, &ends);
        self.clock += 1;
        ends
    }

    /// The task, the firing and the time, of a firing that ended at the last tick.
    pub(crate) fn finish(&self, v: usize) -> (usize, u64, u64)
        requires { v < 16 }
        ensures { result ≡ (v, (shown self.now).fired v - 1, self.now.clock) }
    {
        (v, self.tasks[v].fired.saturating_sub(1), self.clock)
    }
}
