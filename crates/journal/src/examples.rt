// Worked examples.
ghost use Rattle.journal.specs.Examples.{WorkedExamples};

// What the definitions give on worked examples. There is nothing to run: the contract is the table of them.
#[tactic(auto, unfolding(sector::specs::Crc::step, sector::specs::Crc::steps, sector::specs::Crc::register))]
pub fn worked_examples()
    ensures { WorkedExamples }
{}
