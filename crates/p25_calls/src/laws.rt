//! The laws of calls. The body is empty: the function states what is proved.

ghost use Rattle.p25_calls.specs.CallLaws.{AnswersAreCalls, BreakBetween, ClosedStay, EachIsClosed, LastIsOpen, NoBreakInside, RunsJoin};

/// **Theorem.** The laws of calls, and that a caller returns them.
///
/// - `join`, `inside`, `between`: the runs of some data units are the data units in order, divided if and only if there
///   is a break between neighbours.
/// - `closed`: a run that is closed stays one, whatever data units come later.
/// - `answers`: the results of a new caller for items that lie end to end from position 0 on, and at the end, are their
///   calls. Without the result at the end they are those that no further item can change.
/// - `each`, `last`: so the result for an item is the call that it closes, and the result at the end the call that is
///   open.
pub fn call_laws()
    ensures join { RunsJoin }
    ensures inside { NoBreakInside }
    ensures between { BreakBetween }
    ensures closed { ClosedStay }
    ensures answers { AnswersAreCalls }
    ensures each { EachIsClosed }
    ensures last { LastIsOpen }
{}
