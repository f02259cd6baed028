// Nodes of linked lists in one vector. A node that is on no list of a compartment is on the free
// list.
ghost use Rattle.std.specs.Prelude.{◌≡◌, ◌<◌, ◌^◌, length, vec_capacity, IfSome, IfNone, Some, slice_get, slice_set};
ghost use Rattle.gray_lists.specs.Nodes.{Puts};

use gz_names::Place;

// A wrapper on a list, and where the next one of its list stands.
#[derive(Clone, Copy)]
pub(crate) struct Node {
    pub(crate) wrapper: Place,
    pub(crate) next: Option<u32>,
}

// Puts a node where the first free one stands, or else at the end; says where.
pub(crate) fn put_node(nodes: &mut Vec<Node>, free: &mut Option<u32>, node: Node) -> u32
    requires free { IfSome free.old (λ at. at < length nodes.old.items) }
    requires room { IfNone free.old (length nodes.old.items < vec_capacity nodes.old) }
    requires limit { length nodes.old.items < 2 ^ 32 }
    ensures puts { Puts nodes.old.items free.old node nodes.new.items free.new result }
    ensures capacity { vec_capacity nodes.new ≡ vec_capacity nodes.old }
{
    match *free {
        Some(at) => {
            *free = nodes[at as usize].next;
            nodes[at as usize] = node;
            at
        }
        None => {
            let at = nodes.len() as u32;
            nodes.push_reserved(node);
            at
        }
    }
}

// Takes a node off its list, of which it is the first, and puts it first on the free list.
pub(crate) fn take_node(nodes: &mut Vec<Node>, free: &mut Option<u32>, at: u32) -> Node
    requires { at < length nodes.old.items }
    ensures node { slice_get nodes.old.items at ≡ Some result }
    ensures free { free.new ≡ Some at }
    ensures nodes { nodes.new.items
        ≡ slice_set nodes.old.items at (record { wrapper = result.wrapper; next = free.old }) }
    ensures capacity { vec_capacity nodes.new ≡ vec_capacity nodes.old }
{
    let node = nodes[at as usize];
    nodes[at as usize] = Node {
        wrapper: node.wrapper,
        next: *free,
    };
    *free = Some(at);
    node
}
