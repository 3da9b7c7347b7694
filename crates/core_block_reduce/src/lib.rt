#![tactic(auto)]

ghost use Rattle.core_block_reduce.specs.Core.{BlocksReduced, CanReduce};

use core_reduce::Counts;

// Internal: reduces the m edges between n nodes to the cycles of the blocks that the k different active nodes need.
pub fn reduce(work: &mut [u32], n: usize, m: usize, k: usize) -> Counts
    requires { CanReduce n m k work.old }
    ensures { BlocksReduced n m k work.old work.new result.nodes result.edges }
{
    core_reduce::clear_nodes(work, n);
    core_forest::link_edges(work, n, m);
    let seen = core_forest::spanning_forest(work, n, m, k);
    core_blocks::merge_blocks(work, n, m, seen);
    core_cycles::count_nodes(work, n, m, k, seen);
    let nodes = core_cycles::number_nodes(work, n, m, k, seen);
    let edges = core_cycles::write_cycles(work, n, m, k, seen, nodes);
    core_cycles::map_actives(work, n, k);
    Counts { nodes, edges }
}
