#![tactic(auto)]

ghost use Rattle.flow.specs.FinishLaws.{GraphsSound};
ghost use Rattle.runs.specs.Claims.{OnTime, Paced, Steady, Records, NotEarly};
ghost use Rattle.runs.specs.Exact.{Exact, NoSmaller, Phase4, slice_at, slice_steps};
ghost use Rattle.runs.specs.Sample.{Sample, sample_places, sample_service, sample_steps};

use racks::one::One;
use racks::rack::Rack;
use racks::side_by_side::SideBySide;
use servers::fixed::Fixed;
use servers::own::Own;

/// The promise, of every rack. `timely`: a firing is finished at its finish bound at the latest.
/// `paced`: where arrivals keep to the cycle, firing i is finished by its start figure and i cycles.
/// `exact`: one task alone on a fixed slice ends exactly at its bound in some phase.
/// `smaller`: so no bound below that of `exact` is true in all phases.
/// `steady`: the figures that these speak of are the same before a run and after it.
/// `sound`: the net of every accepted graph is one of those that these speak of.
pub fn promise<R: Rack>()
    ensures timely { OnTime R.Rack.places R.Rack.service R.Rack.steps }
    ensures paced { Paced R.Rack.places R.Rack.service R.Rack.steps }
    ensures exact { Exact }
    ensures smaller { NoSmaller }
    ensures steady { Steady R.Rack.places R.Rack.service R.Rack.steps }
    ensures sound { GraphsSound }
{}

/// The clause `smaller` by itself: it speaks of no rack that a caller would have to name.
pub fn no_smaller()
    ensures { NoSmaller }
{}

/// The promise of the rack of one fixed slice: its ticks are those that `exact` speaks of.
// Beside `sample_promise`: what both say of any rack is `promise`, and each says it in the words of its own.
pub fn slice_promise()
    ensures timely { OnTime (λ _. 1) slice_at slice_steps }
    ensures paced { Paced (λ _. 1) slice_at slice_steps }
    ensures exact { Exact }
    ensures smaller { NoSmaller }
    ensures steady { Steady (λ _. 1) slice_at slice_steps }
{
    promise::<One<Fixed>>();
}

/// The records of every run, on every rack. `in_order`: they tell the firings of each task in order, and their clocks never fall.
/// `not_early`: no firing ends before the tokens and the arrival that it takes were there.
pub fn records<R: Rack>()
    ensures in_order { Records R.Rack.places R.Rack.steps }
    ensures not_early { NotEarly R.Rack.places R.Rack.steps }
{}

/// There are such runs: the sample's, tick by tick, in which both first firings end exactly at their finish bounds. Its cycle and start figures are there too.
pub fn sample_run()
    ensures { Sample }
{}

/// `exact` in a worked figure: one task alone with time 6, arrivals at 0, 5 and 40, on the slice 4 of 10. In phase 4 its firing 1 ends at 30, its finish bound.
pub fn worked_phase()
    ensures { Phase4 }
{}

/// The promise of the sample's rack: its ticks are those of `sample_run`.
pub fn sample_promise()
    ensures timely { OnTime sample_places sample_service sample_steps }
    ensures paced { Paced sample_places sample_service sample_steps }
    ensures exact { Exact }
    ensures smaller { NoSmaller }
    ensures steady { Steady sample_places sample_service sample_steps }
{
    promise::<SideBySide<One<Fixed>, One<Own>>>();
}
