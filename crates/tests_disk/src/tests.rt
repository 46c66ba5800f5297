mod disk;
mod known;
mod looks;
mod writes;
