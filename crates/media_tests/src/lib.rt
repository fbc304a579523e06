// The edges of the media's rules, by example. The contracts say the same of every input.
#![tactic(auto)]

#[cfg(test)]
mod plates;
#[cfg(test)]
mod rolls;
