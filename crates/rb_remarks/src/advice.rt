//! What a remark says behind its place, and behind the text that it speaks of.
ghost use Rattle.rb_remarks.specs.Advice.{saying};
ghost use Rattle.std.specs.Prelude.{◌≡◌};

use crate::remark::Matter;

/// What is said of a matter.
pub(crate) fn saying(matter: Matter) -> &'static str
    ensures { result.now ≡ saying matter }
{
    match matter {
        Matter::Unread => "this key is not read",
        Matter::PluginValues => "has values of plugins, of which none is read: take it out",
        Matter::NoText => "one text is wanted here",
        Matter::NoTexts => "a text, or a list of texts, is wanted here",
        Matter::NoList => "a list of texts is wanted here, each behind a dash",
        Matter::NoMap => "a map is wanted here, with each key on a line of its own",
        Matter::NoMaps => "a list of maps is wanted here, each behind a dash",
        Matter::NoAttribute => "this is no attribute: an attribute is one text",
        Matter::NoNode => "a map of attributes is wanted here, of which each is one text",
        Matter::NoTruth => "is neither true nor false",
        Matter::NoNumber => "is no number in the range: write one, and no variable",
        Matter::NoStrategy => "is not read: write node-first, sequential or parallel",
        Matter::NoRankOrder => "is not read: write ascending or descending",
        Matter::NoOrchestrator => "is not read: write subset, rankTiered or maxPercentage",
        Matter::NoWords => "a word is wanted here",
        Matter::OpenQuote => "has a quote that is not closed",
        Matter::BadPairs => "is not read: write pairs, each as -option value",
        Matter::NodeInPairs => "speaks of a node: use that in the steps of the other job",
        Matter::VariableInFilter => "has a variable, and a filter is read without: write it out",
        Matter::BadFilter => "is no filter: write clauses, as tags: web+prod !name: web1",
        Matter::LookAround => "has a look-ahead or a look-behind: deny what it leaves out",
        Matter::BadPattern => "is no pattern: write .* for any text",
        Matter::LargePattern => "is a pattern that is too long, or grows too large",
        Matter::NoId => "is no id: write up to 250 letters, digits, _ . and -",
        Matter::NoName => "is no name: write up to 100 bytes, without a slash",
        Matter::BadCrontab => "is not read: list the days, without L, W and #",
        Matter::UnknownZone => "is not known: a desk knows UTC, and the zones of its manifest",
        Matter::Missing => "this key is missing",
        Matter::MissingContext => "context is missing: write it, and below it project: NAME",
        Matter::NoOneAct => "each command has one of exec, script and jobref",
        Matter::ArgsAlone => "args stand beside script alone: write the words behind exec",
        Matter::NoNodeStep => "write nodeStep: true, as the other job runs on each node",
        Matter::NoCount => "write its number, count or percent, under configuration",
        Matter::NoItems => "at least one command is wanted here",
        Matter::ManyItems => "too many of them: at most 200 commands, and 64 options, are read",
        Matter::CrontabAlone => "nothing stands beside crontab: take the other keys out",
        Matter::BothDays => "days of the week or days of the month: write the other ones as *",
        Matter::OtherId => "id and uuid differ: write one of them",
        Matter::OneContext => "one of project and application is wanted below it",
        Matter::Nobody => "username or group is wanted below it",
        Matter::NoAction => "a rule without allow and deny does nothing: write one of them",
        Matter::Twice => "a job before has this id, or this group and name",
        Matter::ShellSign => "stays as it is, as no shell reads exec: write it under script",
        Matter::Interpreter => "says nothing, as sh runs a script: start the other one in it",
        Matter::RundeckVariable => "is not set: write @option.NAME@, or in exec ${option.NAME}",
    }
}
