//! What is told of a file that was not had.
ghost use Rattle.rb_command.specs.Told.{Tells};
ghost use Rattle.rb_session.specs.Fetching.{EndsBy, manifest_kind, manifest_text, stop_unread};
ghost use Rattle.rb_session.specs.Lines.{kind_line};
ghost use Rattle.std.specs.Prelude.{Some};

use crate::telling::tell_kind_of;
use crate::unread::Unread;
use rb_causes::Sink;
use rb_command::status::{NO_MEMORY, REFUSED, SHELF_FAILED};
use rb_command::{tell_absent, tell_memory, tell_shelf};
use rb_fault_lines::tell_yaml;
use rb_manifest::ManifestFault;

/// Tells why the file of this name was not had, and gives the status.
pub(crate) fn tell_unread<O: Sink>(out: &mut O, file: &str, unread: &Unread) -> u8
    ensures { EndsBy (stop_unread file.now unread.now) result (O.shown out.old) (O.shown out.new) }
{
    match unread {
        Unread::Absent => {
            tell_absent(out, file);
            REFUSED
        }
        Unread::ShelfFailed => {
            tell_shelf(out);
            SHELF_FAILED
        }
        Unread::NotYaml(fault) => {
            tell_yaml(out, file, fault);
            REFUSED
        }
        Unread::NotManifest(fault) => {
            tell_manifest(out, file, fault);
            REFUSED
        }
        Unread::NotText(fault) => {
            tell_yaml(out, file, fault);
            REFUSED
        }
        Unread::NoMemory => {
            tell_memory(out);
            NO_MEMORY
        }
    }
}

/// Tells what is wrong with the manifest.
fn tell_manifest<O: Sink>(out: &mut O, file: &str, fault: &ManifestFault)
    ensures { Tells (kind_line file.now (manifest_kind fault.now) (Some (manifest_text fault.now)))
        (O.shown out.old) (O.shown out.new) }
{
    match fault {
        ManifestFault::OutOfProfile(key) => tell_kind_of(out, file, "OutOfProfile", key.as_str()),
        ManifestFault::BadShape(key) => tell_kind_of(out, file, "BadShape", key.as_str()),
        ManifestFault::BadName(text) => tell_kind_of(out, file, "BadName", text.as_str()),
        ManifestFault::TooMany(key) => tell_kind_of(out, file, "TooMany", key.as_str()),
        ManifestFault::Twice(text) => tell_kind_of(out, file, "Twice", text.as_str()),
    }
}
