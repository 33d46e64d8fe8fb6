//! Tests of the parts below a scan: where it reads and writes, and patterns that no text spells.
#![tactic(auto)]

#[cfg(test)]
mod byte_reader;
#[cfg(test)]
mod byte_writer;
#[cfg(test)]
mod counted;
#[cfg(test)]
mod from_bytes;
#[cfg(test)]
mod long;
#[cfg(test)]
mod patterns;
#[cfg(test)]
mod script;
#[cfg(test)]
mod sink;
#[cfg(test)]
mod source;
#[cfg(test)]
mod to_bytes;
