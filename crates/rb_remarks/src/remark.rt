ghost use Rattle.rb_remarks.specs.Shapes.{matter_unless};
ghost use Rattle.std.specs.Prelude.{◌≡◌};

use rb_causes::{Items, NoMemory};

/// What is the matter with a value, or with a map as a whole.
#[derive(Clone, Copy)]
pub(crate) enum Matter {
    /// The key is not read.
    Unread,
    /// Values of a plugin.
    PluginValues,
    /// No text, or no list of texts, or no list of texts at all, or no map, or no list of maps.
    NoText,
    NoTexts,
    NoList,
    NoMap,
    NoMaps,
    NoAttribute,
    NoNode,
    NoTruth,
    NoNumber,
    NoStrategy,
    NoRankOrder,
    NoOrchestrator,
    NoWords,
    OpenQuote,
    BadPairs,
    NodeInPairs,
    VariableInFilter,
    BadFilter,
    LookAround,
    BadPattern,
    LargePattern,
    NoId,
    NoName,
    BadCrontab,
    UnknownZone,
    /// A key that has to be there.
    Missing,
    MissingContext,
    NoOneAct,
    ArgsAlone,
    NoNodeStep,
    NoCount,
    NoItems,
    ManyItems,
    CrontabAlone,
    BothDays,
    OtherId,
    OneContext,
    Nobody,
    NoAction,
    /// A job of this id, or of this group and name, stands before.
    Twice,
    /// Of a command, which no shell reads: a sign of shells.
    ShellSign,
    /// Of a script, which `sh` reads: another interpreter in its first line.
    Interpreter,
    /// A variable that Rundeck sets.
    RundeckVariable,
}

/// What is the matter with the value under a key that begins on this line.
#[derive(Clone, Copy)]
pub(crate) struct Remark<'a> {
    pub line: u32,
    pub key: &'a str,
    /// The text that it speaks of, or an empty one.
    pub text: &'a str,
    pub matter: Matter,
}

/// The remarks that were made so far.
pub(crate) type Found<'a> = Items<Remark<'a>>;

/// This matter, unless the test holds.
pub(crate) fn matter_unless(holds: bool, matter: Matter) -> Option<Matter>
    ensures { result ≡ matter_unless holds matter }
{
    if holds { None } else { Some(matter) }
}

/// Adds a remark on a text, or on what stands in it.
pub(crate) fn tell<'a>(
    found: &mut Found<'a>,
    key: &'a str,
    line: u32,
    text: &'a str,
    matter: Matter,
) -> Result<(), NoMemory> {
    found.push(Remark {
        line,
        key,
        text,
        matter,
    })
}
