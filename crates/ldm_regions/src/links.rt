//! Regions that are linked in the order in which they lie.
ghost use Rattle.std.specs.Prelude.{◌≡◌, ℕ, ◌+◌, ◌-◌, ◌<◌, ◌≤◌, length, slice_index_or, false};
ghost use Rattle.std.specs.List.{filter};
ghost use Rattle.ldm_types.specs.Arena.{longest};
ghost use Rattle.ldm_regions.specs.Order.{spaces};
ghost use Rattle.ldm_regions.specs.Links.{node_at, linked, unlinked, in_order, IsRing};

/// The region of an owner, from a start up to an end, and the owners of the regions in front of it and behind it.
///
/// Regions stand in a table by their owners. Its last entry closes the ring: it stands for both walls of the
/// arena, so its region begins where the arena ends, and ends where the arena begins, at 0.
#[derive(Clone, Copy)]
pub struct Node {
    pub start: u64,
    pub end: u64,
    pub front: u32,
    pub behind: u32,
}

/// Gives an owner a region right behind that of another, or behind the wall.
pub fn link(nodes: &mut [Node], owner: u32, start: u64, end: u64, front: u32)
    requires owner { owner < length nodes.old }
    requires front { front < length nodes.old }
    requires behind { (node_at nodes.old front).behind < length nodes.old }
    ensures { nodes.new ≡ linked nodes.old owner start end front }
{
    let behind = nodes[front as usize].behind;
    nodes[owner as usize] = Node {
        start,
        end,
        front,
        behind,
    };
    nodes[front as usize].behind = owner;
    nodes[behind as usize].front = owner;
}

/// Takes an owner's region out.
pub fn unlink(nodes: &mut [Node], owner: u32)
    requires owner { owner < length nodes.old }
    requires front { (node_at nodes.old owner).front < length nodes.old }
    requires behind { (node_at nodes.old owner).behind < length nodes.old }
    ensures { nodes.new ≡ unlinked nodes.old owner }
{
    let node = nodes[owner as usize];
    nodes[node.front as usize].behind = node.behind;
    nodes[node.behind as usize].front = node.front;
}

/// The extent of the longest space between the regions of marked owners, 0 where there is none.
pub fn longest_space_if(nodes: &[Node], arena: u64, marks: &[bool]) -> u64
    requires { IsRing nodes.now (length marks.now) arena }
    ensures { result ≡ longest
        (spaces 0 (filter (λ u. slice_index_or marks.now u.owner false) (in_order nodes.now (length marks.now)))
        arena) }
{
    let mut longest = 0u64;
    let mut from = 0;
    let mut owner = nodes[marks.len()].behind as usize;
    while owner != marks.len() {
        let node = nodes[owner];
        let marked = marks[owner];
        if marked {
            longest = longest.max(node.start - from);
            from = node.end;
        }
        owner = node.behind as usize;
    }
    longest.max(arena - from)
}
