//! Worked examples, as one theorem over the definitions that the contracts cite.

#![tactic(auto)]

ghost use Rattle.cases.specs.Examples.{WorkedExamples};

/// Every worked example holds. The number returned means nothing.
pub fn examples_hold() -> u8
    ensures { WorkedExamples }
{
    0
}

#[cfg(test)]
mod example;
#[cfg(test)]
mod tests;
#[cfg(test)]
mod writing;
