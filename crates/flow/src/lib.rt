#![tactic(auto)]

ghost use Rattle.flow.specs.FinishLaws.{GraphsSound, OneBound, BoundExists, BoundRises, LeadAndPaceLater};
ghost use Rattle.flow.specs.Lone.{LoneBounds};
ghost use Rattle.flow.specs.RingLaws.{Potential, OneStart, OneCycle, LoneFigures};
ghost use Rattle.flow.specs.VerdictLaws.{KeepsByMargin, KeepsByCycle, OneRounded, OneLoad};

/// The finish rule: the net of an accepted graph is sound, and a firing has one finish bound, which exists once the arrivals that it needs were accepted.
/// The bound does not fall with the firing's number, and is not later than the rule with lead and pace in place of the worst wait.
pub fn finish_rule()
    ensures sound { GraphsSound }
    ensures one { OneBound }
    ensures exists { BoundExists }
    ensures rises { BoundRises }
    ensures later { LeadAndPaceLater }
{}

/// The finish bounds of one task alone, in a form that computes.
pub fn lone_bounds()
    ensures { LoneBounds }
{}

/// Numbers that meet the inequalities of the start figures, which speak of edges alone, show that no ring is slower than cycle over parts, where no task's link is.
pub fn potential_bounds_rings()
    ensures { Potential }
{}

/// A sound net has at most one cycle over parts, and a task at most one start figure; a task alone has both.
pub fn ring_figures()
    ensures start { OneStart }
    ensures cycle { OneCycle }
    ensures lone { LoneFigures }
{}

/// The verdict is "keeps up" exactly when the margin is not below 0, which is when cycle over parts is at most the goal.
/// A task's load is one number.
pub fn verdict_says_goal()
    ensures margin { KeepsByMargin }
    ensures cycle { KeepsByCycle }
    ensures rounded { OneRounded }
    ensures load { OneLoad }
{}
