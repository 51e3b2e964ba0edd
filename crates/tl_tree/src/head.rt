//! Nodes that go to the end of the `head` among the nodes of a row.
//!
//! A row is taken apart from its end, so a row costs as much as stands behind its `head`.
ghost use Rattle.std.specs.List.{list_all};
ghost use Rattle.std.specs.Prelude.{IfOk, IfSome, IsTrue, List, None, OnOk, [], false, true, ◌++◌, ◌<◌, ◌≡◌, ◌∷◌};
ghost use Rattle.tl_dom_spec.specs.Path.{Nodes, at_head};
ghost use Rattle.tl_tree.specs.Inner.Heads.{IsApart, IsSplit, front_weight, is_head, is_head_node, is_plain, listed};
ghost use Rattle.tl_tree.specs.declared.cell.Node.{Node};
ghost use Rattle.tl_tree.specs.Inner.Store.{Grows, is_node, is_row, nodes_of, tag_at};

use crate::cell::Node;
use crate::error::GrowError;
use crate::names::Names;
use crate::store::Store;
use crate::test::TagTest;

/// A `head` element.
#[derive(Clone, Copy)]
pub(crate) struct Head {
    pub(crate) tag: u32,
    pub(crate) below: u32,
}

/// A row, taken apart at its last `head`: what stands before it, and what stands behind it, the
/// last first.
#[derive(Drop)]
pub(crate) struct Apart {
    pub(crate) front: Vec<Node>,
    pub(crate) head: Option<Head>,
    pub(crate) behind: Vec<Node>,
}

fn head_of(store: &Store<'_>, node: Node) -> Option<Head>
    requires { IsTrue (is_node store.now node) }
    ensures node { IfSome result (λ head. node ≡ Node.Element head.tag head.below) }
    ensures is { IfSome result (λ head. is_head (tag_at store.now head.tag) ≡ true) }
    ensures none { result ≡ None → is_head_node store.now node ≡ false }
{
    let Node::Element { tag, below } = node else {
        return None;
    };
    if TagTest::Any(Names::Head).passes(store, tag) {
        Some(Head { tag, below })
    } else {
        None
    }
}

/// Whether a node is neither a `head` nor a row.
pub(crate) fn is_plain(store: &Store<'_>, node: Node) -> bool
    requires { IsTrue (is_node store.now node) }
    ensures { result ≡ is_plain store.now node }
{
    match node {
        Node::Text(_) => true,
        Node::Comment(_) => true,
        Node::Doctype {
            doctype: _,
            source: _,
        } => true,
        Node::Element { tag, below: _ } => !TagTest::Any(Names::Head).passes(store, tag),
        Node::Joined(_) => false,
    }
}

// A row is taken apart, as the row before its last node and that node.
fn open(store: &Store<'_>, row: u32, front: &mut Vec<Node>) -> Result<(), GrowError>
    requires { IsTrue (is_row store.now row) }
    ensures split { OnOk result
        ((nodes : Nodes) → (behind : List Node)
        → IsSplit store.now nodes (front.old.items ++ Node.Joined row ∷ []) behind
        → IsSplit store.now nodes front.new.items behind) }
    ensures less { OnOk result (front_weight store.now front.new.items
        < front_weight store.now (front.old.items ++ Node.Joined row ∷ [])) }
{
    if row == 0 {
        return Ok(());
    }
    let cell = store.cells[row as usize - 1];
    front.push(Node::Joined(cell.before))?;
    front.push(cell.node)?;
    Ok(())
}

// The node behind some others goes behind them all, or is taken apart.
fn turn(
    store: &Store<'_>,
    node: Node,
    front: &mut Vec<Node>,
    behind: &mut Vec<Node>,
) -> Result<(), GrowError>
    requires node { IsTrue (is_node store.now node) }
    requires is { is_head_node store.now node ≡ false }
    ensures split { OnOk result
        ((nodes : Nodes) → IsSplit store.now nodes (front.old.items ++ node ∷ []) behind.old.items
        → IsSplit store.now nodes front.new.items behind.new.items) }
    ensures less { OnOk result (front_weight store.now front.new.items
        < front_weight store.now (front.old.items ++ node ∷ [])) }
{
    match node {
        Node::Joined(row) => open(store, row, front),
        _ => {
            behind.push(node)?;
            Ok(())
        }
    }
}

// A row is taken apart up to its last `head`.
fn split(store: &Store<'_>, row: u32) -> Result<Apart, GrowError>
    requires { IsTrue (is_row store.now row) }
    ensures { IfOk result (λ apart. IsApart store.now (nodes_of store.now row) apart) }
{
    let mut front = Vec::new(*store.cells.allocator());
    let mut behind = Vec::new(*store.cells.allocator());
    front.push(Node::Joined(row))?;
    while let Some(node) = front.pop() {
        let head = head_of(store, node);
        if head.is_some() {
            return Ok(Apart {
                front,
                head,
                behind,
            });
        }
        turn(store, node, &mut front, &mut behind)?;
    }
    Ok(Apart {
        front,
        head: None,
        behind,
    })
}

// Nodes, one after the other, behind a row.
fn add_all(store: &mut Store<'_>, row: u32, nodes: &[Node]) -> Result<u32, GrowError>
    requires row { IsTrue (is_row store.old row) }
    requires nodes { IsTrue (list_all (is_node store.old) nodes.now) }
    ensures stands { IfOk result (λ end.
        nodes_of store.new end ≡ listed store.old (nodes_of store.old row) nodes.now) }
    ensures within { IfOk result (λ end. IsTrue (is_row store.new end)) }
    ensures grows { Grows store.old store.new }
{
    let mut end = row;
    for node in nodes {
        end = store.add(end, *node)?;
    }
    Ok(end)
}

/// A row with nodes at the end of the last `head` among its own, which is a new row.
pub(crate) fn at_head(store: &mut Store<'_>, row: u32, late: u32) -> Result<u32, GrowError>
    requires row { IsTrue (is_row store.old row) }
    requires late { IsTrue (is_row store.old late) }
    ensures stands { IfOk result (λ end.
        nodes_of store.new end ≡ at_head (nodes_of store.old row) (nodes_of store.old late)) }
    ensures within { IfOk result (λ end. IsTrue (is_row store.new end)) }
    ensures grows { Grows store.old store.new }
{
    let mut apart = split(store, row)?;
    let Some(head) = apart.head else {
        return Ok(row);
    };
    apart.behind.reverse();
    let below = store.join(head.below, late)?;
    let front = add_all(store, 0, apart.front.as_slice())?;
    let end = store.add(
        front,
        Node::Element {
            tag: head.tag,
            below,
        },
    )?;
    add_all(store, end, apart.behind.as_slice())
}
