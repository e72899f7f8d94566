//! The documents of a file.
ghost use Rattle.rb_tools.specs.Documents.{IsNoYaml};
ghost use Rattle.rb_yaml.specs.Documents.{docs_of};
ghost use Rattle.rb_yaml.specs.Tree.{docs_tree};
ghost use Rattle.rb_yaml.specs.TreeSizes.{docs_size};
ghost use Rattle.std.specs.Prelude.{◌≡◌, ◌<◌, ◌^◌, Ok, IfOk, IfErr};

use crate::refusal::ToolRefusal;
use rb_yaml::{Doc, YamlErr, read_docs};
use rb_yaml_laws::laws::{read_is_meant, size_is_bounded};
use std::alloc::Global;

/// The documents of a file's bytes, or the first rule of YAML that they break.
pub(crate) fn read_documents(alloc: Global, bytes: &[u8]) -> Result<Vec<Doc>, ToolRefusal>
    ensures ok { IfOk result (λ docs. docs_of bytes.now ≡ Ok (docs_tree docs.items)) }
    ensures small { IfOk result (λ docs. docs_size (docs_tree docs.items) < 2 ^ 32) }
    ensures refused { IfErr result (IsNoYaml bytes.now) }
{
    read_is_meant();
    size_is_bounded();
    match read_docs(alloc, bytes) {
        Ok(docs) => Ok(docs),
        Err(YamlErr::Fault(fault)) => Err(ToolRefusal::Yaml(fault)),
        Err(YamlErr::NoMemory) => Err(ToolRefusal::NoMemory),
    }
}
