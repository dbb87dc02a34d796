// Worked examples: tests of single calls, each with figures that were worked out apart from the code.
#![tactic(auto)]

#[cfg(test)]
mod flat_fee;
#[cfg(test)]
mod frames;
#[cfg(test)]
mod growing_fee;
#[cfg(test)]
mod of_books;
#[cfg(test)]
mod of_charges;
#[cfg(test)]
mod of_months;
#[cfg(test)]
mod of_runs;
#[cfg(test)]
mod of_schedules;
#[cfg(test)]
mod opened;
#[cfg(test)]
mod pair;
#[cfg(test)]
mod sample;
#[cfg(test)]
mod sketch;
