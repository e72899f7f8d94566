ghost use Rattle.rundeskd.specs.Answer.{own_text, IsText};
ghost use Rattle.std.specs.Prelude.{◌≡◌};

use rb_causes::Text;

/// The program's own texts.
#[derive(Clone, Copy, Debug, PartialEq, Eq)]
pub enum OwnText {
    Help,
    Version,
}

const HELP: &str = "\
rundeskd: an operations desk's runbook server

rundeskd drill FILE
    run the runs of a drill file, and print what starts and how it ends
rundeskd session MANIFEST STORE
    serve one caller on standard input and output, with the zones and documents of a manifest, by
    HTTP; jobs that are due begin before the first request and behind each; the log is kept in the
    file STORE, which is made where it is not there, or in memory where STORE is -
rundeskd serve MANIFEST STORE WORKERS CALLERS ADDRESS ...
    serve the callers of each ADDRESS, as 127.0.0.1:4440, by HTTP over TCP, while 1 to 64 workers
    run steps; as many at once as addresses, 1 to 16, of which one may stand several times; end
    after CALLERS of each; with 1 worker and 1 address nobody is served while a step runs; STORE as
    above
rundeskd check nodes FILE
    read a resource file, and print how many nodes it has
rundeskd check nodes FILE FILTER PRECEDENCE
    print the names of the nodes that the filter selects; PRECEDENCE is true where its exclude
    clauses go first, else false
rundeskd check policy FILE
    read a policy file, and print how many documents it has
rundeskd check jobs FILE
    read a job file, in which no zone but UTC may be named, and print how many jobs it has
rundeskd explain FILE USER GROUPS CONTEXT TYPE ACTION KEY=TEXT ...
    print what the policies of a file decide on an action, and by which clause; GROUPS are parted by
    commas, or - for none; CONTEXT is project:NAME or application; the pairs are the resource's
    properties
rundeskd next CRONTAB ZONE AFTER COUNT
    print the next COUNT instants, 1 to 100, of a schedule behind AFTER, in seconds since 1970; ZONE
    is UTC or a rule as CET-1CEST,M3.5.0,M10.5.0/3
rundeskd demo NODES
    play the demo on a desk of 1 to 1,000 nodes in memory, and print what it did; nothing is started
rundeskd --help
    print this text
rundeskd --version
    print the version

Status: 0 done, 2 words of no form, 3 a file is absent, or a file or a word is refused, 4 a file
that cannot be read, 5 an address cannot be served, or a caller cannot be read or written, 6 the
store failed, 7 out of memory, 8 a row may not stand in the store, 9 standard output cannot be
written, 10 the store is full, 11 a million callers were served. A program that fails is told in the
transcript of its drill or in its execution, and leaves the status 0. Fault lines stand on standard
output, those of a session and of a server on standard error; standard error explains them.
";

const VERSION: &str = "rundeskd 0.1.0\n";

/// The text that the words ask for, where they are `--help` or `--version` alone.
pub fn own_text(words: &[Text]) -> Option<OwnText>
    ensures { result ≡ own_text words.now }
{
    let [word] = words else {
        return None;
    };
    match word.as_str() {
        "--help" => Some(OwnText::Help),
        "--version" => Some(OwnText::Version),
        _ => None,
    }
}

/// The bytes of a text.
pub fn text_of(own: OwnText) -> &'static str
    ensures { IsText own result.now }
{
    match own {
        OwnText::Help => HELP,
        OwnText::Version => VERSION,
    }
}
