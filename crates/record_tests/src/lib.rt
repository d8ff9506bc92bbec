// Tests of record sources and of pages, against cases worked out by hand from the rules of both.
#![tactic(auto)]

#[cfg(test)]
mod agreeing;
#[cfg(test)]
mod both;
#[cfg(test)]
mod expected;
#[cfg(test)]
mod inputs;
#[cfg(test)]
mod joints;
#[cfg(test)]
mod layouts;
#[cfg(test)]
mod placing;
#[cfg(test)]
mod reading;
#[cfg(test)]
mod turning;
