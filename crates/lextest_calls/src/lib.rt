//! Tests that call the product: turn by turn, by pieces, with ends that fail and memory that is refused, and what a program in C
//! calls. Callers are named by the pages of crates, and call lexkit and lexscan. All is read with the tests alone, so that nothing is
//! proved twice.
#![tactic(auto)]

#[cfg(test)]
mod building;
#[cfg(test)]
mod c_programs;
#[cfg(test)]
mod c_refusals;
#[cfg(test)]
mod c_rows;
#[cfg(test)]
mod c_sizes;
#[cfg(test)]
mod c_steps;
#[cfg(test)]
mod c_streams;
#[cfg(test)]
mod caller;
#[cfg(test)]
mod error_words;
#[cfg(test)]
mod fault_lines;
#[cfg(test)]
mod for_c;
#[cfg(test)]
mod longest;
#[cfg(test)]
mod pipelines;
#[cfg(test)]
mod plain;
#[cfg(test)]
mod refused;
#[cfg(test)]
mod scanning;
#[cfg(test)]
mod series;
#[cfg(test)]
mod table_files;
#[cfg(test)]
mod turns;
