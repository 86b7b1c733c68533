//! What a job is done with.

use crate::random::Random;
use crate::words::Material;
use std::alloc::Global;

/// A job to be done so many times.
#[derive(Drop)]
pub(crate) struct Job<'a> {
    pub(crate) alloc: Global,
    pub(crate) count: u32,
    pub(crate) material: &'a Material,
    pub(crate) random: Random,
}
