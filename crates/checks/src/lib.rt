#![tactic(auto)]

ghost use Rattle.std.specs.Prelude.{◌≡◌, true, length};
ghost use Rattle.checks.specs.Starred.{starred, all_agree};
ghost use Rattle.checks.specs.StarredBounds.{starred_bounds, all_starred};

/// How many worked figures of servers the definitions give as they are expected: all of them. And all worked figures agree, those of finish bounds too.
// A number that is answered, so that a list which lost a figure is refused.
pub fn worked_figures() -> usize
    ensures count { result ≡ length starred }
    ensures agree { all_agree starred ≡ true }
    ensures all { all_agree all_starred ≡ true }
{
    19
}

/// How many worked finish bounds there are; they are the rest of the list that `worked_figures` checks.
// Beside it, and not in its place: each call promises the count of its own list.
pub fn worked_bounds() -> usize
    ensures count { result ≡ length starred_bounds }
    ensures agree { all_agree starred_bounds ≡ true }
{
    8
}

#[cfg(test)]
mod belt_tests;
#[cfg(test)]
mod graph_tests;
#[cfg(test)]
mod server_tests;
