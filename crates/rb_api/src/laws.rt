//! What holds of all requests and replies: each function is a law, with nothing to run.
ghost use Rattle.rb_api.specs.Laws.{AnswersAreTold, BodiesHaveNoFloat, CallersAreListed};
ghost use Rattle.rb_api.specs.Laws.{CallsAreTheCallers, CallsMayBeAsked, DenialsCarryTheirClause};
ghost use Rattle.rb_api.specs.Laws.{GetsAddNothing, RecordsGiveReplies, RefusalsRestOnNothing};
ghost use Rattle.rb_api.specs.Laws.{StatusesAreExact, StatusesAreServed, StrangersAskNothing};

/// Whoever asks has given a listed token, whole.
pub fn callers_are_listed()
    ensures { CallersAreListed }
{}

/// Without a listed token nothing is asked, and the reply is the same on every log.
pub fn strangers_ask_nothing()
    ensures { StrangersAskNothing }
{}

/// A reply for which the desk is not asked rests on no row.
pub fn refusals_rest_on_nothing()
    ensures { RefusalsRestOnNothing }
{}

/// A call is that of the token's caller, at the moment; imports ask for permission.
pub fn calls_are_the_callers()
    ensures { CallsAreTheCallers }
{}

/// A call may be asked of any clerk.
pub fn calls_may_be_asked()
    ensures { CallsMayBeAsked }
{}

/// What is got by GET adds no row, but for an abort.
pub fn gets_add_nothing()
    ensures { GetsAddNothing }
{}

/// The rules answer to a request's call nothing that has no reply.
pub fn answers_are_told()
    ensures { AnswersAreTold }
{}

/// A status tells its cause.
pub fn statuses_are_exact()
    ensures { StatusesAreExact }
{}

/// Each status is one that is served.
pub fn statuses_are_served()
    ensures { StatusesAreServed }
{}

/// A denial carries the text of its clause, and no other error has one.
pub fn denials_carry_their_clause()
    ensures { DenialsCarryTheirClause }
{}

/// Each body has a printed text.
pub fn bodies_have_no_float()
    ensures { BodiesHaveNoFloat }
{}

/// A true record of the request's call gives the reply on the rows before it.
pub fn records_give_replies()
    ensures { RecordsGiveReplies }
{}
