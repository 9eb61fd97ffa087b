//! A law of the machine. The function carries it as its clause, and does nothing.

ghost use Rattle.parse_expressions.specs.Laws.{StatesForetell};

/// For each state, whatever may follow the whole: after a token what may follow is what may follow in the next state, after
/// one at which the machine fails nothing, and in every state something may follow.
pub fn states_foretell()
    ensures { StatesForetell }
{}
