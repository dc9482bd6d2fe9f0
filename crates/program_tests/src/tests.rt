//! The top call over a world in memory: whole output and status.

mod airspace;
mod alerts;
mod approach;
mod blocks;
mod cycles;
mod damage;
mod failures;
mod feeds;
mod memory;
mod outside;
mod plots;
mod report;
mod several;
mod site;
mod splits;
mod terrain;
mod told;
mod words;
