ghost use Rattle.rb_node.specs.Filters.{of_drafts, of_words, filter_of, split_fault, IsCounted, IsFaultOfDrafts, IsFirstFaultIn, ArePatternsRead, selects, is_plain_filter};
ghost use Rattle.rb_node.specs.Values.{drafted_values, AreRead};
ghost use Rattle.rb_causes.specs.Words.{words_in};
ghost use Rattle.std.specs.Prelude.{◌≡◌, ◌≤◌, ◌<◌, length, chars, filter, map, true, Ok, Err, IfOk, IfErr, OnOk, IsOk};

use crate::clause::FilterClause;
use crate::columns::selected_of_each;
use crate::compiling::compile_all;
use crate::drafting::{Drafts, draft_all};
use crate::filter_err::FilterErr;
use crate::node::Node;
use crate::selecting::selected;
use rb_causes::{Items, NoMemory, SplitErr, Text, split_words};
use std::alloc::Global;
use std::marker::Model;

/// A longer text is no filter.
const MOST_BYTES: usize = 1024;

/// A filter of nodes. Contracts see it as its text.
#[derive(Drop)]
pub struct Filter {
    text: Text,
    clauses: Items<FilterClause>,
}

impl Model for Filter {
    ghost use Rattle.rb_node.specs.Filters.{filter_of, ArePatternsRead};
    ghost use Rattle.std.specs.Prelude.{◌≡◌, Ok, List, ℕ};

    ghost Value = { List ℕ };

    ghost view = { λ f. f.text };

    ghost invariant = { λ f. (filter_of f.text ≡ Ok f.clauses) × ArePatternsRead f.text };
}

impl Filter {
    /// Reads a filter. Which fault comes first is said at `FilterErr`; the second and later are not
    /// told.
    pub fn read(alloc: Global, text: &str) -> Result<Filter, FilterErr>
        ensures text { IfOk result (λ f. f ≡ text.now) }
        ensures ok { OnOk result (IsOk (filter_of text.now)) }
        ensures read { OnOk result (ArePatternsRead text.now) }
        ensures long { 1024 < length text.now → result ≡ Err FilterErr.TooLong }
        ensures fault { IfErr result (λ e. length text.now ≤ 1024 → IsFirstFaultIn text.now e) }
    {
        if text.len() > MOST_BYTES {
            return Err(FilterErr::TooLong);
        }
        let clauses = clauses_of(alloc, text)?;
        let text = Text::of(alloc, text)?;
        Ok(Filter { text, clauses })
    }

    /// The text that was read.
    pub fn text(&self) -> &str
        ensures text { result.now ≡ self.now }
        ensures ok { IsOk (filter_of self.now) }
        ensures read { ArePatternsRead self.now }
    {
        self.text.as_str()
    }

    /// Whether the filter selects the node: it is included, and no exclude clause holds for it
    /// where those go first or there is no include clause. Without patterns it takes no memory.
    pub fn selects(&self, alloc: Global, node: &Node, exclude_first: bool) -> Result<bool, NoMemory>
        ensures found { IfOk result (λ yes. yes ≡ selects self.now exclude_first node.now) }
        ensures memory { is_plain_filter self.now ≡ true → IsOk result }
    {
        selected(alloc, self.clauses.as_slice(), exclude_first, node)
    }

    /// Those of the nodes that the filter selects. Each of its patterns is built once for all of
    /// them.
    pub fn chosen<'a>(
        &self,
        alloc: Global,
        nodes: &'a [Node],
        exclude_first: bool,
    ) -> Result<Vec<&'a Node>, NoMemory>
        ensures { IfOk result (λ chosen.
            map (λ node. node.now) chosen.items ≡ filter (selects self.now exclude_first) nodes.now) }
    {
        let marks = self.selects_each(alloc, nodes, exclude_first)?;
        let mut chosen = Vec::new(alloc);
        for (i, node) in nodes.iter().enumerate() {
            if marks[i] {
                chosen.push(node)?;
            }
        }
        Ok(chosen)
    }

    /// For each of the nodes whether the filter selects it.
    fn selects_each(
        &self,
        alloc: Global,
        nodes: &[Node],
        exclude_first: bool,
    ) -> Result<Vec<bool>, NoMemory>
        ensures { IfOk result (λ marks.
            marks.items ≡ map (selects self.now exclude_first) nodes.now) }
    {
        selected_of_each(alloc, self.clauses.as_slice(), exclude_first, nodes)
    }
}

/// The clauses of a text.
fn clauses_of(alloc: Global, text: &str) -> Result<Items<FilterClause>, FilterErr>
    requires { length text.now ≤ 1024 }
    ensures ok { IfOk result (λ cs. of_words (words_in (chars text.now)) ≡ Ok cs) }
    ensures read { OnOk result (ArePatternsRead text.now) }
    ensures fault { IfErr result (IsFirstFaultIn text.now) }
{
    match split_words(alloc, text) {
        Ok(words) => match draft_all(alloc, words.as_slice()) {
            Ok(drafts) => compiled(alloc, &drafts),
            Err(_) => Err(FilterErr::NoMemory),
        },
        Err(error) => Err(split_fault(error)),
    }
}

/// How a refusal to split the text is told: words are numbered from 1.
fn split_fault(error: SplitErr) -> FilterErr
    requires { IsCounted error }
    ensures { result ≡ split_fault error }
{
    match error {
        SplitErr::OpenQuote { before } => FilterErr::BadClause {
            at: before as u32 + 1,
        },
        SplitErr::NoMemory => FilterErr::NoMemory,
    }
}

/// The clauses of drafts.
fn compiled(alloc: Global, drafts: &Drafts) -> Result<Items<FilterClause>, FilterErr>
    ensures ok { IfOk result (λ cs. of_drafts drafts.now ≡ Ok cs) }
    ensures read { OnOk result (AreRead (drafted_values drafts.now.drafts)) }
    ensures fault { IfErr result (IsFaultOfDrafts drafts.now) }
{
    match compile_all(alloc, drafts.drafts.as_slice()) {
        Ok(clauses) => match drafts.bad {
            Some(at) => Err(FilterErr::BadClause { at }),
            None => Ok(clauses),
        },
        Err(error) => Err(error),
    }
}
