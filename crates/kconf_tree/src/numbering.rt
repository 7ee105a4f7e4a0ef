ghost use Rattle.std.specs.Prelude.{◌≡◌, ◌<◌, ◌≤◌, length, map, All, IfOk, OnOk, slice_index_or};
ghost use Rattle.indexmap.specs.IndexSet.{insert_key};
ghost use Rattle.ut_logic.specs.Node.{node_eq};
ghost use Rattle.kconf_tree.specs.References as spec;
ghost use Rattle.kconf_tree.specs.Orders.{nodes_of, place_of, graph_of};
ghost use Rattle.kconf_tree.specs.Links.{AreLinks, AreRowsBelow};
ghost use Rattle.kconf_tree.specs.Numbering.{lists_of, place_among, places_among};

use crate::links::Links;
use crate::parts::Parts;
use indexmap::IndexSet;
use sqlite_items::Items;
use std::alloc::{AllocError, Global};
use ut_logic::Node;

/// The nodes in order, and for each the numbers of the symbols that it refers to.
#[derive(Drop)]
pub struct NodeLists {
    pub nodes: IndexSet<Node>,
    pub lists: Vec<Items<u32>>,
}

/// The place of a node among the nodes; for any other node, the number of nodes.
pub fn place(nodes: &IndexSet<Node>, node: Node) -> usize
    ensures place { result ≡ place_among nodes.now.keys node }
    ensures within { result ≤ length nodes.now.keys }
{
    match nodes.get_index_of(&node) {
        Some(place) => place,
        None => nodes.len(),
    }
}

impl Parts {
    /// The node of a symbol.
    pub(crate) fn node_of(&self, sym: u32) -> Node
        requires { sym < length self.now.symbols }
        ensures { result ≡ spec.node_of self.now sym }
    {
        match self.symbol_at(sym).member_of {
            None => Node::Sym(sym),
            Some(choice) => Node::Choice(choice),
        }
    }

    /// The numbers of the symbols that the node of a symbol refers to.
    fn list_of(&self, alloc: Global, sym: u32, links: &Links) -> Result<Items<u32>, AllocError>
        requires sym { sym < length self.now.symbols }
        requires links { AreLinks self.now links.now }
        ensures row { IfOk result (λ row. row ≡ spec.numbers_of self.now (spec.node_of self.now sym)) }
        ensures within { IfOk result (λ row. All (λ k. k < length self.now.symbols) row) }
    {
        let mut row = Items::new(alloc);
        match self.symbol_at(sym).member_of {
            None => self.mention_symbol(sym, links, &mut row)?,
            Some(choice) => self.mention_choice(choice, links, &mut row)?,
        }
        Ok(row)
    }

    /// Adds the node of a symbol with its list, where it is new.
    fn add_node(
        &self,
        alloc: Global,
        sym: u32,
        links: &Links,
        found: &mut NodeLists,
    ) -> Result<(), AllocError>
        requires sym { sym < length self.now.symbols }
        requires links { AreLinks self.now links.now }
        requires lists { found.old.lists.items ≡ lists_of self.now found.old.nodes.keys }
        requires within { AreRowsBelow (length self.now.symbols) found.old.lists.items }
        ensures nodes { OnOk result (found.new.nodes.keys ≡ insert_key node_eq found.old.nodes.keys (spec.node_of self.now sym)) }
        ensures lists { OnOk result (found.new.lists.items ≡ lists_of self.now found.new.nodes.keys) }
        ensures within { OnOk result (AreRowsBelow (length self.now.symbols) found.new.lists.items) }
    {
        if found.nodes.insert(self.node_of(sym))? {
            found.lists.push(self.list_of(alloc, sym, links)?)?;
        }
        Ok(())
    }

    /// The nodes in order with their lists. The only error is out of memory.
    pub(crate) fn node_lists(&self, alloc: Global, links: &Links) -> Result<NodeLists, AllocError>
        requires { AreLinks self.now links.now }
        ensures nodes { IfOk result (λ f. f.nodes.keys ≡ nodes_of self.now) }
        ensures lists { IfOk result (λ f. f.lists.items ≡ lists_of self.now (nodes_of self.now)) }
        ensures within { IfOk result (λ f. AreRowsBelow (length self.now.symbols) f.lists.items) }
    {
        let mut found = NodeLists {
            nodes: IndexSet::new(alloc),
            lists: Vec::new(alloc),
        };
        for sym in 0..self.symbols() {
            self.add_node(alloc, sym, links, &mut found)?;
        }
        Ok(found)
    }
}
