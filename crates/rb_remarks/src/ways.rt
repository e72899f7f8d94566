//! The way out of each key that Rundeck writes and that is not read.
ghost use Rattle.rb_remarks.specs.Ways.{way_of};
ghost use Rattle.std.specs.Prelude.{◌≡◌};

/// What to write instead of a key that is not read.
pub(crate) fn way_of(key: &str) -> &'static str
    ensures { result.now ≡ way_of key.now }
{
    match key {
        "notification" => "take it out; who waits for a run looks at its status",
        "notifyAvgDurationThreshold" => "take it out; who waits for a run looks at its status",
        "timeout" => "take it out: no run is ended for its time",
        "retry" => "take it out: no run is tried again by itself",
        "loglimit" => "take it out: what a step writes has no bound",
        "loglimitAction" => "take it out: what a step writes has no bound",
        "loglimitStatus" => "take it out: what a step writes has no bound",
        "maxMultipleExecutions" => {
            "take it out: multipleExecutions allows any number of runs, or one"
        }
        "scriptfile" => "paste the text of the file under script",
        "scripturl" => "paste the text of the file under script",
        "expandTokenInScriptFile" => "take it out: names between @ are replaced in each script",
        "scriptInterpreter" => "take it out: sh reads a script, so start the other program in it",
        "fileExtension" => "take it out: sh reads a script, so start the other program in it",
        "interpreterArgsQuoted" => {
            "take it out: sh reads a script, so start the other program in it"
        }
        "type" => "write exec or script for a plugin's step; an option is a text without it",
        "configuration" => "write exec or script that does what the plugin's step does",
        "nodeStep" => "write exec or script that does what the plugin's step does",
        "uuid" => "take it out, and name the other job by its group and name",
        "project" => "take it out: jobs that refer to each other are of one project",
        "nodefilters" => "take it out: the steps of the other job run on the nodes of this one",
        "childNodes" => "take it out: the steps of the other job run on the nodes of this one",
        "nodeIntersect" => "take it out: the steps of the other job run on the nodes of this one",
        "failOnDisable" => "take it out",
        "ignoreNotifications" => "take it out",
        "importOptions" => "take it out, and give each option under args",
        "jobref" => "write the command of the other job as exec or script",
        "description" => "write it at the command",
        "secure" => "take it out, and give the value at the run",
        "valueExposed" => "take it out, and give the value at the run",
        "storagePath" => "take it out, and give the value at the run: no store of keys is read",
        "valuesUrl" => "take it out, and list under values what may be chosen",
        "configRemoteUrl" => "take it out, and list under values what may be chosen",
        "isDate" => "take it out, and let regex say how a date is written",
        "dateFormat" => "take it out, and let regex say how a date is written",
        "multivalueAllSelected" => "take it out, and write all of them under value",
        "tags" => "write filter: 'tags: ..' in its place",
        "hostname" => "write filter: 'hostname: ..' in its place",
        "osFamily" => "write filter: 'osFamily: ..' in its place",
        "include" => "write filter: 'tags: ..' in its place",
        "filterExclude" => "write filter: '!tags: ..' in its place",
        "excludeFilterUncheck" => "take it out",
        "exclude" => "write filter: '!tags: ..' in its place",
        "plugins" => "take it out: no plugin is run at a step",
        "notBy" => "write by for those who are meant, and deny for others",
        "urn" => "write group or username: those that it stands for",
        "groups" => "write group",
        "users" => "write username",
        _ => "take it out",
    }
}
