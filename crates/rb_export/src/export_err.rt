ghost use Rattle.rb_export.specs.declared.export_err.ExportErr.TheVariants as variants;
ghost use Rattle.std.specs.Prelude.{◌≡◌};

use rb_causes::NoMemory;

/// Why no text is exported. A job in another zone goes before a text that is too large.
#[derive(Clone, Copy, Debug, PartialEq, Eq)]
pub enum ExportErr {
    /// The first job, by its number from 1, whose schedule is in another zone than UTC.
    OtherZone(u32),
    /// The text would have more than 1,048,576 bytes.
    TooLarge,
    NoMemory,
}

impl From<NoMemory> for ExportErr {
    ghost from_gives = { λ _ error. error ≡ variants.NoMemory };

    fn from(_error: NoMemory) -> ExportErr {
        ExportErr::NoMemory
    }
}
