// Tests of loading, against cases worked out by hand from its rules.
#![tactic(auto)]

#[cfg(test)]
mod bounds;
#[cfg(test)]
mod faults;
#[cfg(test)]
mod fitting;
#[cfg(test)]
mod images;
#[cfg(test)]
mod loads;
#[cfg(test)]
mod opcode_table;
#[cfg(test)]
mod ranks;
#[cfg(test)]
mod sizes;
