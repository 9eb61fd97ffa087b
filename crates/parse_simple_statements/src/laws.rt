//! Laws of the two machines. Each function carries one as its clause, and does nothing.

ghost use Rattle.parse_simple_statements.specs.Laws.{SimpleStatesForetell, SpecStatesForetell};

/// For each state of the machine of declarations, whatever may follow the whole: after a token what may follow is what may
/// follow in the next state, after one at which the machine fails nothing, and in every state something may follow.
pub fn spec_states_foretell()
    ensures { SpecStatesForetell }
{}

/// The same of the machine of simple statements, also for what may follow a `range`.
pub fn simple_states_foretell()
    ensures { SimpleStatesForetell }
{}
