// Format A on media, by example: what is refused, where, and what that leaves.
#![tactic(auto)]

#[cfg(test)]
mod pointers_media;
