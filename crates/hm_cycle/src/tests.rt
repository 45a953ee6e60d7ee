//! Cycles of two callers, on one thread.
