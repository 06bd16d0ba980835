// The reader as bench/ links it: the crate `timing`'s function under its name in C.
#![tactic(auto)]

// The weight of the best reading; 2^32 for no reading, and 2^33 for a refusal.
#[unsafe(no_mangle)]
pub extern "C" fn bench_best(table: &[u8], line: &[u8]) -> u64 {
    timing::bench_best(table, line)
}
