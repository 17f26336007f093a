//! The tree of objects: parent, sibling and child of each (Z-Machine Standard 1.1, section 12.3).
ghost use Rattle.std.specs.Prelude.{◌≡◌, ◌+◌, ◌<◌, ◌≤◌, IfOk, length};
ghost use Rattle.inf_objects.specs.Tree.{AreWithin, linked, links_of};

use std::alloc::{AllocError, Global};

/// The next object with the same parent, and the first object below this one; 0 where there is none.
#[derive(Clone, Copy)]
pub struct Link {
    pub sibling: usize,
    pub child: usize,
}

/// Returns the sibling and the child of each object, given its parent. All parents are among the objects, which are numbered from
/// 1; 0 is no parent. The children of an object come in the order of their numbers.
pub fn links(alloc: Global, parents: &[usize]) -> Result<Vec<Link>, AllocError>
    requires { AreWithin (length parents.now) parents.now }
    ensures { IfOk result (λ links. links.items ≡ links_of parents.now) }
{
    let none = Link {
        sibling: 0,
        child: 0,
    };
    let mut links = vec![in alloc; none; parents.len()]?;
    let mut left = parents;
    while let Some((parent, before)) = left.split_last() {
        hang(&mut links, before.len(), *parent);
        left = before;
    }
    Ok(links)
}

/// Makes the object at `place` the first one below `parent`; where that is 0 nothing changes.
fn hang(links: &mut Vec<Link>, place: usize, parent: usize)
    requires place { place < length links.old.items }
    requires parent { parent ≤ length links.old.items }
    ensures links { links.new.items ≡ linked place parent links.old.items }
    ensures count { length links.new.items ≡ length links.old.items }
{
    if parent == 0 {
        return;
    }
    links[place].sibling = links[parent - 1].child;
    links[parent - 1].child = place + 1;
}
