// Mistakes of texts of entities and of requests, with their places. Each subject has a module.
mod answers;
mod closures;
mod entities;
mod entries;
mod forms;
mod offsets;
mod parents;
mod parts;
mod requests;
mod shown;
