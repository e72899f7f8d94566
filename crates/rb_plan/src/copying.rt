//! Copies of what a verdict takes out of the world.
ghost use Rattle.std.specs.Prelude.{◌≡◌, IfOk};

use rb_causes::{Items, NoMemory, Prop, Text};
use rb_job::JobAct;
use rb_node::Node;
use std::alloc::Global;

pub(crate) fn copy_texts(alloc: Global, texts: &[Text]) -> Result<Items<Text>, NoMemory>
    ensures { IfOk result (λ copy. copy ≡ texts.now) }
{
    let mut copy = Items::new(alloc);
    for text in texts {
        copy.push(text.copy(alloc)?)?;
    }
    Ok(copy)
}

fn copy_prop(alloc: Global, prop: &Prop) -> Result<Prop, NoMemory>
    ensures { IfOk result (λ copy. copy ≡ prop.now) }
{
    let key = prop.key.copy(alloc)?;
    let text = prop.text.copy(alloc)?;
    Ok(Prop { key, text })
}

pub(crate) fn copy_props(alloc: Global, props: &[Prop]) -> Result<Items<Prop>, NoMemory>
    ensures { IfOk result (λ copy. copy ≡ props.now) }
{
    let mut copy = Items::new(alloc);
    for prop in props {
        copy.push(copy_prop(alloc, prop)?)?;
    }
    Ok(copy)
}

pub(crate) fn copy_node(alloc: Global, node: &Node) -> Result<Node, NoMemory>
    ensures { IfOk result (λ copy. copy ≡ node.now) }
{
    let name = node.name.copy(alloc)?;
    let attrs = copy_props(alloc, node.attrs.as_slice())?;
    let tags = copy_texts(alloc, node.tags.as_slice())?;
    Ok(Node { name, attrs, tags })
}

pub(crate) fn copy_act(alloc: Global, act: &JobAct) -> Result<JobAct, NoMemory>
    ensures { IfOk result (λ copy. copy ≡ act.now) }
{
    match act {
        JobAct::Exec(words) => Ok(JobAct::Exec(copy_texts(alloc, words.as_slice())?)),
        JobAct::Script { text, args } => {
            let text = text.copy(alloc)?;
            let args = copy_texts(alloc, args.as_slice())?;
            Ok(JobAct::Script { text, args })
        }
        JobAct::Refer { group, name, args } => {
            let group = group.copy(alloc)?;
            let name = name.copy(alloc)?;
            let args = copy_props(alloc, args.as_slice())?;
            Ok(JobAct::Refer { group, name, args })
        }
    }
}
