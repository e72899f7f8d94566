//! Second copies of what a desk keeps and also gives away.
ghost use Rattle.std.specs.Prelude.{◌≡◌, IfOk};

use rb_acl::Caller;
use rb_causes::{Items, NoMemory, Prop, Text};
use rb_node::Node;
use std::alloc::Global;

/// What can be copied where there is memory.
pub trait Duplicate: Sized {
    fn duplicate(&self, alloc: Global) -> Result<Self, NoMemory>
        ensures { IfOk result (λ copy. copy ≡ self.now) };
}

/// A copy of each of these.
pub fn each_of<T: Duplicate + Drop>(alloc: Global, these: &[T]) -> Result<Items<T>, NoMemory>
    ensures { IfOk result (λ copy. copy ≡ these.now) }
{
    let mut copy = Items::new(alloc);
    for item in these {
        copy.push(item.duplicate(alloc)?)?;
    }
    Ok(copy)
}

impl Duplicate for Text {
    fn duplicate(&self, alloc: Global) -> Result<Text, NoMemory> {
        self.copy(alloc)
    }
}

impl Duplicate for Prop {
    fn duplicate(&self, alloc: Global) -> Result<Prop, NoMemory> {
        let key = self.key.copy(alloc)?;
        let text = self.text.copy(alloc)?;
        Ok(Prop { key, text })
    }
}

impl Duplicate for Node {
    fn duplicate(&self, alloc: Global) -> Result<Node, NoMemory> {
        let name = self.name.copy(alloc)?;
        let attrs = each_of(alloc, self.attrs.as_slice())?;
        let tags = each_of(alloc, self.tags.as_slice())?;
        Ok(Node { name, attrs, tags })
    }
}

impl Duplicate for Caller {
    fn duplicate(&self, alloc: Global) -> Result<Caller, NoMemory> {
        let user = self.user.copy(alloc)?;
        let groups = each_of(alloc, self.groups.as_slice())?;
        Ok(Caller { user, groups })
    }
}
