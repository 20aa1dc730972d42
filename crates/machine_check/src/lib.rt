//! Tests alone, over programs that are read and checked: of both machines, the one that frees nothing and the
//! one that collects; of books that are runs, and books that are none; and of reasons that hold up, and reasons
//! that do not.
#![tactic(auto)]

#[cfg(test)]
mod audit_tests;
#[cfg(test)]
mod beside;
#[cfg(test)]
mod block_tests;
#[cfg(test)]
mod both_tests;
#[cfg(test)]
mod driving;
#[cfg(test)]
mod left_by_roots;
#[cfg(test)]
mod plain_tests;
#[cfg(test)]
mod programs;
#[cfg(test)]
mod reason_tests;
#[cfg(test)]
mod tests;
#[cfg(test)]
mod touch_tests;
