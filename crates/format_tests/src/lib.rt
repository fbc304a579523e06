// The edges of the formats' rules, by example. The contracts say the same of every input.
#![tactic(auto)]

#[cfg(test)]
mod addresses;
#[cfg(test)]
mod maps_layouts;
#[cfg(test)]
mod pointers_layouts;
