mod folder;
mod plans;
mod stops;
