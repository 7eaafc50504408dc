mod file;
mod folder;
mod in_memory;
mod journal;
mod standard;
