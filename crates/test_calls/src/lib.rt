//! Tests of library calls whose surroundings fail: allocations, readers and writers that fail,
//! journals over their limit.
#![tactic(auto)]

#[cfg(test)]
mod tests;
