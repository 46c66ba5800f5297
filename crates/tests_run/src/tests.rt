mod calls;
mod disk;
mod faults;
mod limits;
mod outside;
mod run;
mod system;
