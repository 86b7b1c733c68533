//! Tests of the stores of uploads by their public calls: the table in memory, and the spool on disks that stop and
//! crash. Each kind of disk has tests as well.
#![tactic(auto)]

#[cfg(test)]
mod devices;
#[cfg(test)]
mod examples;
#[cfg(test)]
mod images;
#[cfg(test)]
mod openings;
#[cfg(test)]
mod raises;
#[cfg(test)]
mod resumes;
#[cfg(test)]
mod tables;
#[cfg(test)]
mod upgrades;
#[cfg(test)]
mod uploads;
