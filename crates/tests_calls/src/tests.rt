mod bounds;
mod graph;
mod lexemes;
mod reading;
mod spans;
