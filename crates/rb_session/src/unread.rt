ghost use Rattle.rb_session.specs.declared.unread.Unread.TheVariants as variants;
ghost use Rattle.std.specs.Prelude.{◌≡◌};

use rb_causes::NoMemory;
use rb_manifest::ManifestFault;
use rb_yaml::YamlFault;

/// Why the manifest's file, or one that it names, was not had.
#[derive(Drop)]
pub enum Unread {
    /// The shelf has no file of this name.
    Absent,
    ShelfFailed,
    NotYaml(YamlFault),
    NotManifest(ManifestFault),
    /// Of a document: it is too large or not UTF-8.
    NotText(YamlFault),
    NoMemory,
}

impl From<NoMemory> for Unread {
    ghost from_gives = { λ _ unread. unread ≡ variants.NoMemory };

    fn from(_error: NoMemory) -> Unread {
        Unread::NoMemory
    }
}
