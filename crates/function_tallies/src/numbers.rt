//! The numbers on the arcs of a function.

ghost use Rattle.std.specs.Prelude.{◌≡◌, ◌≤◌, length, IfOk, IfErr};
ghost use Rattle.std.specs.List.{All};
ghost use Rattle.gcda_format.specs.Data.{count_limit};
ghost use Rattle.span_tree.specs.Tree.{arrivals, off};
ghost use Rattle.function_tallies.specs.Numbers.{AreFlow, RefusesFlow};

use crate::tally::TallyFault;
use cov_base::{Net, Refusal};
use flow_solver::{NotAFlow, solve};
use span_tree::SpanTree;
use std::alloc::Global;

/// The only numbers on the arcs of the net of the function of number k that agree with these
/// counters and balance, or the first arc with a negative one.
pub fn numbers_of(
    alloc: Global,
    k: u32,
    net: &Net,
    tree: &SpanTree,
    counters: &[u64],
) -> Result<Vec<i128>, Refusal<TallyFault>>
    requires tree { tree.now ≡ arrivals net.now }
    requires counters { length counters.now ≡ length (off net.now) }
    requires counts { All (λ n. n ≤ count_limit) counters.now }
    ensures ok { IfOk result (λ v. AreFlow net.now counters.now v.items) }
    ensures err { IfErr result (RefusesFlow k net.now counters.now) }
{
    let mut numbers = vec![in alloc; 0i128; net.arcs().len()]?;
    match solve(net, tree, counters, &mut numbers) {
        Ok(()) => Ok(numbers),
        Err(NotAFlow(arc)) => Err(Refusal::Refused(TallyFault::NotAFlow(k, arc))),
    }
}
