ghost use Rattle.std.specs.Prelude.{◌≡◌, ◌<◌, ◌≤◌, ◌^◌, length, map, All, IfOk};
ghost use Rattle.kconf_tree.specs.Limits.{max_symbols};
ghost use Rattle.kconf_tree.specs.Links.{AreRowsBelow};
ghost use Rattle.kconf_tree.specs.Numbering.{each_at, lists_of, symbol_places};
ghost use Rattle.kconf_tree.specs.Orders.{nodes_of, graph_of};

use crate::numbering::{NodeLists, place};
use crate::parts::Parts;
use indexmap::IndexSet;
use node_order::Graph;
use sqlite_items::Items;
use std::alloc::{AllocError, Global};
use ut_logic::Node;

/// What a list has at these places.
fn each_of(alloc: Global, list: &[u32], places: &[u32]) -> Result<Vec<u32>, AllocError>
    requires { All (λ p. p < length list.now) places.now }
    ensures { IfOk result (λ v. v.items ≡ each_at list.now places.now) }
{
    let mut found = Vec::with_capacity(alloc, places.len())?;
    for place in places {
        found.push(list[*place as usize])?;
    }
    Ok(found)
}

/// What a list has at the places of each row.
fn rows_of(alloc: Global, list: &[u32], rows: &[Items<u32>]) -> Result<Vec<Vec<u32>>, AllocError>
    requires { AreRowsBelow (length list.now) rows.now }
    ensures { IfOk result (λ v. map (λ row. row.items) v.items ≡ map (each_at list.now) rows.now) }
{
    let mut found = Vec::with_capacity(alloc, rows.len())?;
    for row in rows {
        found.push(each_of(alloc, list, row.as_slice())?)?;
    }
    Ok(found)
}

impl Parts {
    /// The order number of the node of each symbol.
    fn symbol_places(&self, alloc: Global, nodes: &IndexSet<Node>) -> Result<Vec<u32>, AllocError>
        requires { length nodes.now.keys < 2 ^ 32 }
        ensures { IfOk result (λ v. v.items ≡ symbol_places self.now nodes.now.keys) }
    {
        let mut places = Vec::with_capacity(alloc, self.symbols() as usize)?;
        for sym in 0..self.symbols() {
            places.push(place(nodes, self.node_of(sym)) as u32)?;
        }
        Ok(places)
    }

    /// The graph of the nodes. The only error is out of memory.
    pub(crate) fn graph(&self, alloc: Global, found: &NodeLists) -> Result<Graph, AllocError>
        requires nodes { found.now.nodes.keys ≡ nodes_of self.now }
        requires lists { found.now.lists.items ≡ lists_of self.now (nodes_of self.now) }
        requires within { AreRowsBelow (length self.now.symbols) found.now.lists.items }
        requires few { length self.now.symbols ≤ max_symbols }
        ensures { IfOk result (λ graph. graph ≡ graph_of self.now) }
    {
        let places = self.symbol_places(alloc, &found.nodes)?;
        let rows = rows_of(alloc, places.as_slice(), found.lists.as_slice())?;
        Ok(Graph::of(rows))
    }
}
