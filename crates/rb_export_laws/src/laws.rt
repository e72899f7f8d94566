//! Each function is a law, with nothing to run.
ghost use Rattle.rb_export_laws.specs.Laws.{PolicyDocsReadBack, PoliciesHaveOneText, JobDocsReadBack, ListedAreShaped};

use rb_acl_doc::laws::foremost_is_told;

/// Policies that were read are read again of the documents that they are written as.
pub fn policy_docs_read_back()
    ensures { PolicyDocsReadBack }
{
    foremost_is_told();
}

/// What was read again has the same text.
pub fn policies_have_one_text()
    ensures { PoliciesHaveOneText }
{}

/// Jobs such as a reader gives are the jobs of the documents that they are written as.
pub fn job_docs_read_back()
    ensures { JobDocsReadBack }
{}

/// What documents list as jobs is as far as this such as a reader gives.
pub fn listed_are_shaped()
    ensures { ListedAreShaped }
{}
