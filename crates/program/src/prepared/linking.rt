// The links of a prepared graph: from a node to its lowest edge, and from an edge to the next one out of the same node.

ghost use Rattle.std.specs.Prelude.{◌≡◌, ◌<◌, length};
ghost use Rattle.program.specs.Parts.LinkingParts as parts;
ghost use Rattle.program.specs.Parts.Prepared.{nodes_most, edges_most, graph_length, source_in};

use crate::prepared;
use crate::prepared::{FIRST, GRAPH, NEXT, NONE};

// No edge out of any node.
fn clear(graph: &mut [u16])
    requires { length graph.old ≡ graph_length }
    ensures { parts.Unlinked graph.old graph.new }
{
    graph[FIRST..NEXT].fill(NONE);
}

// An edge put before those of its node.
fn link_edge(graph: &mut [u16; GRAPH], e: u16)
    requires { (e < edges_most) × (source_in graph.old e < nodes_most) }
    ensures { graph.new ≡ parts.linked_one graph.old e (source_in graph.old e) }
{
    let at = FIRST + prepared::edge_source(graph, e) as usize;
    graph[NEXT + e as usize] = graph[at];
    graph[at] = e;
}

// The links of a graph, the last edge first.
pub(crate) fn link(graph: &mut [u16; GRAPH])
    requires { parts.Linkable graph.old }
    ensures { parts.LinkedFrom graph.old graph.new }
{
    clear(graph);
    let n = prepared::edge_count(graph);
    for e in (0..n).rev() {
        link_edge(graph, e);
    }
}
