// Worked examples of the definitions and of the refusals, in one table.
#![tactic(auto)]

ghost use Rattle.examples.specs.Examples.{WorkedCalls};

// What the definitions give, and which refusals are due, on worked examples. There is nothing to run: the contract is the table.
pub fn worked_calls()
    ensures { WorkedCalls }
{
    journal::worked_examples();
}
