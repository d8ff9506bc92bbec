// Tests by example of the metering site's archive.
#![tactic(auto)]

#[cfg(test)]
mod parsing;
#[cfg(test)]
mod reading;
