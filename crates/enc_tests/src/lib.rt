//! Tests of the encodings by the public calls of their crates.
#![tactic(auto)]

#[cfg(test)]
mod areas;
#[cfg(test)]
mod cases;
#[cfg(test)]
mod examples;
#[cfg(test)]
mod index_files;
#[cfg(test)]
mod indexes;
#[cfg(test)]
mod kernels;
#[cfg(test)]
mod labels;
#[cfg(test)]
mod refusals;
#[cfg(test)]
mod sets;
#[cfg(test)]
mod states;
#[cfg(test)]
mod strings;
#[cfg(test)]
mod texts;
#[cfg(test)]
mod transcoders;
#[cfg(test)]
mod worked;
