//! What the types of a call's parts promise.
ghost use Rattle.rb_node.specs.Filters.{IsReadFilter};

use rb_node::Filter;

/// The filter of an ask, if it has one, was read with each of its patterns.
pub(crate) fn check_filter(filter: &Option<Filter>)
    ensures { IsReadFilter filter.now }
{
    if let Some(filter) = filter {
        let _text = filter.text();
    }
}
