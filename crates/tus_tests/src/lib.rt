//! Tests of the request parser and of the replies by their public calls.
#![tactic(auto)]

#[cfg(test)]
mod refusals;
#[cfg(test)]
mod replies;
#[cfg(test)]
mod requests;
