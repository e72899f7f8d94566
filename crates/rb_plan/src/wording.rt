//! The words of a leaf.
ghost use Rattle.rb_plan.specs.Acceptance.{acceptance};
ghost use Rattle.rb_plan.specs.Sound.{HasSoundLeaves, IsLeafOf};
ghost use Rattle.rb_plan.specs.Words.{act_words, command_words, job_names, leaf_names, node_names, prefix_words, script_words, words_at};
ghost use Rattle.rb_acl.specs.Joining.{joined_rest};
ghost use Rattle.rb_causes.specs.Texts.{joined};
ghost use Rattle.rb_causes.specs.Signs.{comma};
ghost use Rattle.std.specs.Prelude.{◌≡◌, ◌++◌, Some, IfOk, OnOk};

use crate::accepted::{Accepted, Command};
use crate::naming::{option_names, prefixed, put_name, put_own_names};
use rb_causes::{Items, NoMemory, Prop, Text, WordsErr, words};
use rb_expand::{script_of, words_of};
use rb_job::JobAct;
use rb_marks::Leaf;
use rb_node::Node;
use std::alloc::Global;

/// What is told of a node: its attributes, its name under both its names, and its tags.
fn put_node_names(alloc: Global, names: &mut Items<Prop>, node: &Node) -> Result<(), NoMemory>
    ensures { OnOk result (names.new ≡ names.old ++ node_names node.now) }
{
    for attribute in node.attrs.as_slice() {
        names.push(prefixed(alloc, "node.", attribute)?)?;
    }
    let tags = joined_tags(alloc, node.tags.as_slice())?;
    put_name(alloc, names, "node.name", node.name.as_str())?;
    put_name(alloc, names, "node.nodename", node.name.as_str())?;
    put_name(alloc, names, "node.tags", tags.as_str())?;
    Ok(())
}

/// Tags, parted by commas.
fn joined_tags(alloc: Global, tags: &[Text]) -> Result<Text, NoMemory>
    ensures { IfOk result (λ text. text ≡ joined comma tags.now) }
{
    match tags.split_first() {
        None => Text::of(alloc, ""),
        Some((first, more)) => joined_behind(alloc, first.as_str(), more),
    }
}

/// The first tag, and each of the others behind a comma.
fn joined_behind(alloc: Global, first: &str, more: &[Text]) -> Result<Text, NoMemory>
    ensures { IfOk result (λ text. text ≡ first.now ++ joined_rest more.now) }
{
    let mut text = String::from_str(alloc, first)?;
    for tag in more {
        text.push(',')?;
        text.push_str(tag.as_str())?;
    }
    Ok(Text::from_string(text))
}

/// What is told of the job in which a command stands, and of the execution.
fn put_job_names(
    alloc: Global,
    names: &mut Items<Prop>,
    command: &Command,
    project: &str,
    execution: u64,
    user: &str,
) -> Result<(), NoMemory>
    ensures { OnOk result (names.new
        ≡ names.old ++ job_names command.now project.now execution user.now) }
{
    let number = format!(in alloc; "{execution}")?;
    let name = command.job_name.as_str();
    let group = command.job_group.as_str();
    put_own_names(alloc, names, name, group, command.job_id.as_str())?;
    put_name(alloc, names, "job.project", project)?;
    put_name(alloc, names, "job.execid", number.as_str())?;
    put_name(alloc, names, "job.username", user)?;
    Ok(())
}

/// All names of a command on a node.
fn leaf_names(
    alloc: Global,
    command: &Command,
    node: &Node,
    project: &str,
    execution: u64,
    user: &str,
) -> Result<Items<Prop>, NoMemory>
    ensures { IfOk result (λ names. names
        ≡ leaf_names command.now node.now project.now execution user.now) }
{
    let mut names = option_names(alloc, command.values.as_slice())?;
    put_node_names(alloc, &mut names, node)?;
    put_job_names(alloc, &mut names, command, project, execution, user)?;
    Ok(names)
}

/// The words by which a node is reached: those of its attribute `desk-exec`.
fn prefix_words(alloc: Global, node: &Node) -> Result<Vec<Text>, NoMemory>
    ensures { IfOk result (λ prefix. prefix.items ≡ prefix_words node.now) }
{
    let Some(text) = node.attribute("desk-exec") else {
        return Ok(Vec::new(alloc));
    };
    match words(alloc, text.as_str()) {
        Ok(words) => Ok(words),
        Err(WordsErr::OpenQuote) => Ok(Vec::new(alloc)),
        Err(WordsErr::NoMemory) => Err(NoMemory),
    }
}

/// The words that hand a script and its arguments to a shell.
fn script_words(
    alloc: Global,
    names: &[Prop],
    text: &Text,
    args: &[Text],
) -> Result<Vec<Text>, NoMemory>
    ensures { IfOk result (λ words. words.items
        ≡ script_words names.now text.now args.now) }
{
    let mut words = Vec::new(alloc);
    words.push(Text::of(alloc, "sh")?)?;
    words.push(Text::of(alloc, "-c")?)?;
    words.push(script_of(alloc, text.as_str(), names)?)?;
    words.push(Text::of(alloc, "script")?)?;
    let mut more = words_of(alloc, args, names)?;
    words.append(&mut more)?;
    Ok(words)
}

/// The words of an act.
fn act_words(alloc: Global, names: &[Prop], act: &JobAct) -> Result<Vec<Text>, NoMemory>
    ensures { IfOk result (λ words. words.items ≡ act_words names.now act.now) }
{
    match act {
        JobAct::Exec(words) => words_of(alloc, words.as_slice(), names),
        JobAct::Script { text, args } => script_words(alloc, names, text, args.as_slice()),
        JobAct::Refer {
            group: _,
            name: _,
            args: _,
        } => Ok(Vec::new(alloc)),
    }
}

/// The words that are run for a command on a node of a project: the node's prefix words and then
/// those of the command. `execution` is the run's number, and `user` who runs it.
pub fn words_on_node(
    alloc: Global,
    project: &str,
    node: &Node,
    command: &Command,
    execution: u64,
    user: &str,
) -> Result<Vec<Text>, NoMemory>
    ensures { IfOk result (λ words. words.items
        ≡ command_words project.now node.now command.now execution user.now) }
{
    let names = leaf_names(alloc, command, node, project, execution, user)?;
    let mut words = words_of(
        alloc,
        prefix_words(alloc, node)?.as_slice(),
        names.as_slice(),
    )?;
    let mut more = act_words(alloc, names.as_slice(), &command.act)?;
    words.append(&mut more)?;
    Ok(words)
}

/// The words that are run for a leaf of an accepted run: the node's prefix words and then those of
/// the command. `execution` is the run's number, and `user` who runs it.
pub fn command_words(
    alloc: Global,
    accepted: &Accepted,
    leaf: Leaf,
    execution: u64,
    user: &str,
) -> Result<Vec<Text>, NoMemory>
    requires leaves { HasSoundLeaves (acceptance accepted.now) }
    requires leaf { IsLeafOf (acceptance accepted.now) leaf }
    ensures { IfOk result (λ words.
        words_at (acceptance accepted.now) leaf execution user.now ≡ Some words.items) }
{
    let node = &accepted.nodes.as_slice()[leaf.node as usize];
    let command = &accepted.commands.as_slice()[leaf.slot as usize];
    let project = accepted.project.as_str();
    words_on_node(alloc, project, node, command, execution, user)
}
