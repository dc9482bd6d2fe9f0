//! Each net by itself, and alerts over cycles.

mod alerts;
mod apm;
mod apw;
mod msaw;
mod sets;
mod stca;
