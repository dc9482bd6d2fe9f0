//! The hits of cycles, and the alert bytes of cycles.

mod cycles;
mod hits;
mod rows;
mod sites;
