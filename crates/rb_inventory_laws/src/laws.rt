//! Each function is a law, with nothing to run.
ghost use Rattle.rb_inventory_laws.specs.Laws.{ReadAttributesDiffer};

/// The keys of the attributes of each node differ, whatever text the documents were read of.
pub fn attributes_differ()
    ensures { ReadAttributesDiffer }
{}
