mod motions;
mod outside;
mod polygons;
mod steps;
mod tables;
mod terrains;
mod ticks;
mod turns;
