//! The theorem as a law: the function carries it as its clause, and does nothing.

ghost use Rattle.simulated_code.specs.Correct.{CodeSimulates};

/// What a program's code shows is what the program means.
pub fn code_simulates()
    ensures { CodeSimulates }
{}
