ghost use Rattle.rb_causes.specs.SeenTexts.{HasSeen};
ghost use Rattle.rb_causes.specs.Texts.{has_text};
ghost use Rattle.std.specs.Prelude.{◌≡◌, ℕ, List, [], ◌∷◌, ◌++◌, OnOk};

use crate::trouble::NoMemory;
use std::alloc::Global;
use std::collections::BTreeSet;

/// The texts that were seen so far, in an ordered set.
#[derive(Drop)]
pub struct SeenTexts {
    texts: BTreeSet<String>,
}

impl SeenTexts {
    /// No text; takes no memory.
    pub fn new(alloc: Global) -> SeenTexts
        ensures { HasSeen result [] }
    {
        SeenTexts {
            texts: BTreeSet::new(alloc),
        }
    }

    /// Whether the text was seen; takes no memory.
    pub fn holds(&self, text: &str) -> bool
        ensures { (texts : List (List ℕ)) → HasSeen self.now texts →
            result ≡ has_text texts text.now }
    {
        self.texts.contains(text)
    }

    /// Notes a text.
    pub fn note(&mut self, alloc: Global, text: &str) -> Result<(), NoMemory>
        ensures { OnOk result ((texts : List (List ℕ)) → HasSeen self.old texts →
            HasSeen self.new (texts ++ text.now ∷ [])) }
    {
        let text = String::from_str(alloc, text)?;
        let _new = self.texts.insert(text)?;
        Ok(())
    }
}
